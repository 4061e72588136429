//! The records of changes next to chapters.

ghost use Rattle.std.specs.Prelude.{IfOk};
ghost use Rattle.fleet_map.specs.Form.{HasSides};
ghost use Rattle.fleet_map.specs.Grammar.{view};

use crate::kept::KeptText;
use fleet_grid::Grid;
use fleet_history::{Chapter, Opening};
use fleet_map::{MapFault, MapText, read_map};
use fleet_site::{Made, MakeFault, SiteFault, SiteRecord, checksum, make, read_site, write_site};
use fleet_survey::map_text;
use fleet_trace::{TraceFault, push_opening, read_trace};
use std::alloc::{AllocError, Global};
use std::fmt;

/// What is wrong with a record of changes.
#[derive(Clone, Copy, Debug, PartialEq, Eq)]
pub enum SiteTrouble {
    /// The map is none.
    Map,
    /// The file tells no record.
    Untold,
    /// It is that of another chapter than its name says.
    Number(u32),
    /// It is of a map with the first checksum, and this one has the second.
    OtherMap(u64, u64),
    /// Its changes cannot be made of the chapter before it.
    Unmade,
    /// Its changes make another site of the chapter before it.
    Differs,
    /// Its chapter begins with something else than the site.
    Astray,
    NoMemory,
}

impl From<AllocError> for SiteTrouble {
    ghost use Rattle.std.specs.Prelude.{◌≡◌};
    ghost use Rattle.fleet_lib.specs.declared.sites.SiteTrouble.TheVariants.{NoMemory};

    ghost from_gives = { λ _ f. f ≡ NoMemory };

    fn from(_error: AllocError) -> SiteTrouble {
        SiteTrouble::NoMemory
    }
}

impl fmt::Display for SiteTrouble {
    fn fmt<W: fmt::Write>(&self, f: &mut fmt::Formatter<W>) -> fmt::Result {
        let words = match *self {
            SiteTrouble::Map => "its map is none",
            SiteTrouble::Untold => "it is no record of changes",
            SiteTrouble::Number(number) => return write!(f, "it is of chapter {number}"),
            SiteTrouble::OtherMap(sum, other) => {
                return write!(
                    f,
                    "it is of a map with the checksum {sum}, and this map has {other}"
                );
            }
            SiteTrouble::Unmade => "its changes cannot be made of the chapter before it",
            SiteTrouble::Differs => "its changes make another site of the chapter before it",
            SiteTrouble::Astray => "its chapter does not begin with what the changes make",
            SiteTrouble::NoMemory => "out of memory",
        };
        f.write_str(words)
    }
}

/// The line that says what is wrong with the record in the file of this name.
pub fn site_line(alloc: Global, name: &str, trouble: SiteTrouble) -> Result<String, AllocError> {
    match trouble {
        SiteTrouble::NoMemory => Err(AllocError),
        trouble => format!(in alloc; "fleet: file {name}: {trouble}\n"),
    }
}

/// The map of a text.
pub(crate) fn map_in(alloc: Global, map: &[u8]) -> Result<MapText, SiteTrouble>
    ensures { IfOk result (λ map. HasSides (view map)) }
{
    match read_map(alloc, map) {
        Ok(map) => Ok(map),
        Err(MapFault::NoMemory) => Err(SiteTrouble::NoMemory),
        Err(_) => Err(SiteTrouble::Map),
    }
}

/// The record of a file, if it is that of the chapter in the file's name.
pub(crate) fn record_in(alloc: Global, site: KeptText<'_>) -> Result<SiteRecord, SiteTrouble> {
    match read_site(alloc, site.text) {
        Ok(record) if record.chapter == site.number => Ok(record),
        Ok(record) => Err(SiteTrouble::Number(record.chapter)),
        Err(SiteFault::NoMemory) => Err(SiteTrouble::NoMemory),
        Err(SiteFault::Shape) => Err(SiteTrouble::Untold),
    }
}

/// The record of a file, if it is that of the chapter in the file's name and of this map.
pub(crate) fn record_on(
    alloc: Global,
    map: &[u8],
    site: KeptText<'_>,
) -> Result<SiteRecord, SiteTrouble> {
    let record = record_in(alloc, site)?;
    let grid = Grid::new(map_in(alloc, map)?)?;
    let sum = checksum(&grid);
    if sum != record.map {
        return Err(SiteTrouble::OtherMap(record.map, sum));
    }
    Ok(record)
}

/// Whether the record of a file is that of the chapter in the file's name and of this map; if not, why.
pub fn check_site(alloc: Global, map: &[u8], site: KeptText<'_>) -> Result<(), SiteTrouble> {
    let _record = record_on(alloc, map, site)?;
    Ok(())
}

/// The chapter of a trace.
fn chapter_in(alloc: Global, trace: &[u8]) -> Result<Chapter, SiteTrouble> {
    match read_trace(alloc, trace) {
        Ok(chapter) => Ok(chapter),
        Err(TraceFault::NoMemory) => Err(SiteTrouble::NoMemory),
        Err(_) => Err(SiteTrouble::Unmade),
    }
}

/// The text of an opening.
fn opening_text(alloc: Global, opening: &Opening) -> Result<String, AllocError> {
    let mut text = String::new(alloc);
    push_opening(alloc, &mut text, opening)?;
    Ok(text)
}

/// A chapter before changes: its map, the record of the changes before it if there were any, and its trace.
#[derive(Clone, Copy, Debug)]
pub struct Before<'a> {
    pub map: &'a [u8],
    pub site: Option<KeptText<'a>>,
    pub trace: &'a [u8],
}

/// What the changes of a record make of the chapter before it.
fn made_again(alloc: Global, before: Before<'_>, record: &SiteRecord) -> Result<Made, SiteTrouble> {
    let map = map_in(alloc, before.map)?;
    let chapter = chapter_in(alloc, before.trace)?;
    let made = match before.site {
        Some(site) => {
            let last = record_in(alloc, site)?;
            make(alloc, map, Some(&last), &chapter, &record.changes)
        }
        None => make(alloc, map, None, &chapter, &record.changes),
    };
    match made {
        Ok(made) => Ok(made),
        Err(MakeFault::NoMemory) => Err(SiteTrouble::NoMemory),
        Err(_) => Err(SiteTrouble::Unmade),
    }
}

/// Goes over changes once more: the record is what its changes make of the chapter before it, and its chapter begins with
/// that. Returns the text of the map on which this chapter is played, or the first thing that is wrong.
pub fn changed_map(
    alloc: Global,
    before: Before<'_>,
    site: KeptText<'_>,
    trace: &[u8],
) -> Result<String, SiteTrouble> {
    let record = record_in(alloc, site)?;
    let made = made_again(alloc, before, &record)?;
    if write_site(alloc, &made.record)? != write_site(alloc, &record)? {
        return Err(SiteTrouble::Differs);
    }
    let chapter = match read_trace(alloc, trace) {
        Ok(chapter) => chapter,
        Err(TraceFault::NoMemory) => return Err(SiteTrouble::NoMemory),
        Err(_) => return Err(SiteTrouble::Astray),
    };
    let begun = opening_text(alloc, &chapter.opening)?;
    if chapter.number != record.chapter || begun != opening_text(alloc, &made.refit.opening)? {
        return Err(SiteTrouble::Astray);
    }
    Ok(map_text(alloc, &made.refit.grid)?)
}
