//! How a fleet goes on from the journals of one that was killed.

use crate::chapters::keep_chapter;
use crate::folder::Found;
use crate::journals::JournalFile;
use crate::kept_file::KeptFile;
use fleet_lib::{
    InputFault, RecoverFault, Recovered, SiteTrouble, check_site, fail, recover_journal,
    recover_line, site_line, write_whole,
};
use std::alloc::{Alloc, AllocError, Global};
use std::fs::Files;
use std::io::{self, ErrorKind, Write};

/// Why no fleet goes on from the journals of a folder.
#[derive(Drop)]
enum Refusal {
    /// The map is not that of the record of this name, or the record is none.
    Site(String, SiteTrouble),
    /// This one is no beginning of a legal chapter that follows.
    Journal(String, RecoverFault),
    /// A chapter cannot be written.
    File(String, io::Error),
    NoMemory,
}

impl From<AllocError> for Refusal {
    fn from(_error: AllocError) -> Refusal {
        Refusal::NoMemory
    }
}

/// Says that the end of a journal was not written whole.
fn say_cut<E: Write>(
    alloc: Global,
    name: &str,
    found: &Recovered,
    error: &mut E,
) -> Result<(), AllocError> {
    if found.cut == 0 {
        return Ok(());
    }
    let (cut, lines) = (found.cut, found.lines);
    let line = format!(in alloc;
        "fleet: file {name}: {cut} bytes after line {lines} were not written whole, and tell nothing\n"
    )?;
    write_whole(error, line.as_bytes());
    Ok(())
}

/// Keeps the chapter of a journal, after the one before. Returns the chapter's file.
fn recover_one<R: Files + Alloc<A = Global>, E: Write>(
    rt: &R,
    (map, folder): (&[u8], &str),
    before: &Option<KeptFile>,
    journal: JournalFile,
    error: &mut E,
) -> Result<KeptFile, Refusal> {
    let (alloc, number) = (rt.alloc(), journal.number);
    let text = match before {
        Some(file) => Some(file.text()),
        None => None,
    };
    let found = match recover_journal(alloc, map, text, journal.lent()) {
        Ok(found) => found,
        Err(RecoverFault::NoMemory) => return Err(Refusal::NoMemory),
        Err(fault) => return Err(Refusal::Journal(journal.name, fault)),
    };
    say_cut(alloc, journal.name.as_str(), &found, error)?;
    let trace = found.trace.into_bytes();
    let name = format!(in alloc; "{folder}/chapter-{number}.json")?;
    match keep_chapter(rt, folder, number, &trace) {
        Ok(()) => Ok(KeptFile::new(name, number, trace)),
        Err(why) if why.kind() == ErrorKind::OutOfMemory => Err(Refusal::NoMemory),
        Err(why) => Err(Refusal::File(name, why)),
    }
}

/// The record of the last changes, if it is of this map.
fn checked<R: Alloc<A = Global>>(
    rt: &R,
    map: &[u8],
    site: Option<KeptFile>,
) -> Result<Option<KeptFile>, Refusal> {
    let Some(site) = site else {
        return Ok(None);
    };
    match check_site(rt.alloc(), map, site.lent()) {
        // What is wrong with the map is said next.
        Ok(()) | Err(SiteTrouble::Map) => Ok(Some(site)),
        Err(trouble) => Err(Refusal::Site(site.into_name(), trouble)),
    }
}

/// Keeps the chapters of all journals, if the map is that of the last changes. Returns the files of the last chapter
/// and of this record.
fn recover_each<R: Files + Alloc<A = Global>, E: Write>(
    rt: &R,
    place: (&[u8], &str),
    found: Found,
    error: &mut E,
) -> Result<(Option<KeptFile>, Option<KeptFile>), Refusal> {
    let Found {
        kept,
        journals,
        site,
    } = found;
    let site = checked(rt, place.0, site)?;
    let mut last = kept;
    for journal in journals {
        let next = recover_one(rt, place, &last, journal, error)?;
        last = Some(next);
    }
    Ok((last, site))
}

/// The line that says why no fleet goes on, and the status.
fn line_of(alloc: Global, refusal: Refusal) -> Result<(String, u8), AllocError> {
    match refusal {
        Refusal::Site(name, trouble) => Ok((site_line(alloc, name.as_str(), trouble)?, 6)),
        Refusal::Journal(name, fault) => Ok((recover_line(alloc, name.as_str(), fault)?, 6)),
        Refusal::File(name, why) => Ok((
            format!(in alloc; "fleet: file {name} cannot be written: {why}\n")?,
            3,
        )),
        Refusal::NoMemory => Err(AllocError),
    }
}

/// Keeps the chapters of the journals that were found in a folder, if its fleet is to go on: each is judged as any
/// chapter, and has to follow the one before. Returns the files of the last chapter and of the record of the last
/// changes. Where the map is another than theirs, or a journal is refused, that is said, and the error is the status.
pub(crate) fn recover<R: Files + Alloc<A = Global>, E: Write, G: Write>(
    rt: &R,
    place: (&[u8], &str),
    found: Found,
    error: &mut E,
    said: &mut G,
) -> Result<(Option<KeptFile>, Option<KeptFile>), u8> {
    let refusal = match recover_each(rt, place, found, error) {
        Ok(files) => return Ok(files),
        // What is wrong with the map is said next.
        Err(Refusal::Journal(_, RecoverFault::Map)) => return Ok((None, None)),
        Err(refusal) => refusal,
    };
    match line_of(rt.alloc(), refusal) {
        Ok((line, status)) => {
            write_whole(said, line.as_bytes());
            Err(status)
        }
        Err(AllocError) => Err(fail(InputFault::NoMemory, said)),
    }
}
