//! The word `change`.

ghost use Rattle.fleet_map.specs.Form.{HasSides};
ghost use Rattle.fleet_map.specs.Grammar.{view};

use crate::kept::{KeptFault, KeptText, complain_of_kept, kept_chapter};
use crate::renumbering::{first_renumbered, moved_before, push_numbers};
use crate::said::fail;
use crate::sites::{SiteTrouble, record_on, site_line};
use crate::waits::leaves_room;
use fleet_history::Chapter;
use fleet_hooks::StampLaw;
use fleet_map::{MapFault, MapText, read_map};
use fleet_refit::{Change, ChangeFault, Dropped, Refit, RefitFault};
use fleet_reopen::ReopenFault;
use fleet_site::{Made, MakeFault, SiteRecord, change_said, make, write_site};
use fleet_survey::map_text;
use fleet_talk::ResumeFault;
use fleet_text::{Complaint, InputFault, trace_line, write_whole};
use std::alloc::{AllocError, Global};
use std::fmt::Write as Format;
use std::io::Write;

/// What changes are made of: the map, the record of the changes before if there were any, and the last chapter.
#[derive(Clone, Copy, Debug)]
pub struct ChangeTexts<'a> {
    pub map: &'a [u8],
    pub site: Option<KeptText<'a>>,
    pub kept: KeptText<'a>,
}

/// Changes that were made: what is printed, and the texts that are to be written.
#[derive(Drop)]
pub struct Changed {
    pub said: String,
    /// The number of the chapter that begins.
    pub chapter: u32,
    /// The map on which its robots move.
    pub map: String,
    pub site: String,
    pub trace: String,
}

/// Why no changes are made.
#[derive(Clone, Copy)]
enum Refusal {
    /// What is wrong with the record of the changes before.
    Site(SiteTrouble),
    Kept(KeptFault),
    /// The chapter has not the robots of the record.
    Robots,
    Refit(RefitFault),
    /// This robot would get another number.
    Renumbered(u32),
    /// A robot has waited longer than it may after the changes.
    Waits,
    NoMemory,
}

impl From<AllocError> for Refusal {
    fn from(_error: AllocError) -> Refusal {
        Refusal::NoMemory
    }
}

/// The changes that the words say, those between `;` one after the other, or the first word that says none.
fn changes_in(
    alloc: Global,
    words: &[String],
    laws: (StampLaw, StampLaw),
) -> Result<Result<Vec<Change>, usize>, AllocError> {
    let mut changes = Vec::new(alloc);
    for place in 0..words.len() {
        for part in words[place].as_bytes().split(|byte| *byte == b';') {
            match change_said(part, laws) {
                Some(change) => changes.push(change)?,
                None => return Ok(Err(place)),
            }
        }
    }
    Ok(Ok(changes))
}

/// The laws of a robot that joins: those of the first robot, since all robots of this program have the same.
fn laws_of(chapter: &Chapter) -> (StampLaw, StampLaw) {
    match chapter.opening.robots.as_slice().first() {
        Some(robot) => (robot.arrival_law, robot.farewell_law),
        None => (StampLaw { low: 0, high: 0 }, StampLaw { low: 0, high: 0 }),
    }
}

/// The number and the name of a reason why a change cannot be made.
fn code_of(fault: ChangeFault) -> (u8, &'static str) {
    match fault {
        ChangeFault::NoCell => (1, "no-cell"),
        ChangeFault::IsWall => (2, "wall"),
        ChangeFault::IsFloor => (3, "floor"),
        ChangeFault::IsTaken { .. } => (4, "taken"),
        ChangeFault::NoRobot => (5, "no-robot"),
        ChangeFault::IsHeld => (6, "held"),
        ChangeFault::NotHeld => (7, "not-held"),
        ChangeFault::TooMany => (8, "too-many"),
        ChangeFault::NoStamp => (9, "no-stamp"),
        ChangeFault::NoErrand => (10, "no-errand"),
        ChangeFault::NoMemory => (0, "memory"),
    }
}

/// The line for changes that cannot be made.
fn refused_line(alloc: Global, fault: RefitFault) -> Result<String, AllocError> {
    match fault {
        RefitFault::Change { place, fault } => {
            let (code, name) = code_of(fault);
            let number = (place as u64).saturating_add(1);
            if let ChangeFault::IsTaken { robot } = fault {
                return format!(in alloc;
                    "change-refused {code} {name} change {number} robot {robot}\n"
                );
            }
            format!(in alloc; "change-refused {code} {name} change {number}\n")
        }
        RefitFault::NoRobot => String::from_str(alloc, "change-refused 11 none-moves\n"),
        RefitFault::NoMemory => Err(AllocError),
    }
}

/// Adds a line for each errand that was dropped.
fn push_dropped(text: &mut String, dropped: &[Dropped]) -> Result<(), AllocError> {
    for one in dropped {
        let (client, number) = (one.client, one.number);
        let (robot, cell) = (one.robot, one.cell);
        write!(
            text,
            "dropped {client} {number} robot {robot} cell {cell}\n"
        )?;
    }
    Ok(())
}

/// The lines for changes that were made.
fn said_of(alloc: Global, made: &Made, moved: &[u32]) -> Result<String, AllocError> {
    let mut said = String::new(alloc);
    push_dropped(&mut said, &made.refit.dropped)?;
    push_numbers(&mut said, moved, &made.refit.numbers)?;
    let (count, dropped) = (made.record.changes.len(), made.refit.dropped.len());
    let chapter = made.record.chapter;
    write!(
        &mut said,
        "changed {count} dropped {dropped} chapter {chapter}\n"
    )?;
    Ok(said)
}

/// What is printed and written of changes that were made, if a fleet goes on from them.
fn changed_texts(alloc: Global, made: Made, moved: &[u32]) -> Result<Changed, Refusal> {
    let said = said_of(alloc, &made, moved)?;
    let Made { refit, record } = made;
    let (chapter, site) = (record.chapter, write_site(alloc, &record)?);
    let Refit {
        site: _site,
        grid,
        opening,
        numbers: _numbers,
        dropped: _dropped,
    } = refit;
    let map = map_text(alloc, &grid)?;
    let next = Chapter {
        number: chapter,
        opening,
        entries: Vec::new(alloc),
    };
    let trace = trace_line(alloc, &next)?;
    if !leaves_room(alloc, grid, &next)? {
        return Err(Refusal::Waits);
    }
    Ok(Changed {
        said,
        chapter,
        map,
        site,
        trace,
    })
}

/// Makes the changes. What is printed and written of them.
fn changes_made(
    alloc: Global,
    map: MapText,
    found: (Option<&SiteRecord>, &Chapter),
    changes: &[Change],
    renumber: bool,
) -> Result<Changed, Refusal>
    requires { HasSides (view map) }
{
    let (before, chapter) = found;
    let made = match make(alloc, map, before, chapter, changes) {
        Ok(made) => made,
        Err(MakeFault::Chapter) => {
            let illegal = ReopenFault::Illegal { at: 0, rule: 1 };
            let fault = KeptFault::Resume(ResumeFault::Chapter(illegal));
            return Err(Refusal::Kept(fault));
        }
        Err(MakeFault::Robots) => return Err(Refusal::Robots),
        Err(MakeFault::Refit(fault)) => return Err(Refusal::Refit(fault)),
        Err(MakeFault::NoMemory) => return Err(Refusal::NoMemory),
    };
    let moved = moved_before(alloc, before, chapter.opening.robots.len())?;
    if !renumber {
        if let Some(robot) = first_renumbered(&moved, &made.refit.numbers) {
            return Err(Refusal::Renumbered(robot));
        }
    }
    changed_texts(alloc, made, &moved)
}

/// The record of the changes before, if there were any.
fn record_before(alloc: Global, texts: ChangeTexts<'_>) -> Result<Option<SiteRecord>, Refusal> {
    match texts.site {
        None => Ok(None),
        Some(site) => match record_on(alloc, texts.map, site) {
            Ok(record) => Ok(Some(record)),
            Err(trouble) => Err(Refusal::Site(trouble)),
        },
    }
}

/// The line that says why no changes are made, and the status.
fn refusal_line(alloc: Global, name: &str, refusal: Refusal) -> Result<(String, u8), AllocError> {
    match refusal {
        Refusal::Site(trouble) => Ok((site_line(alloc, name, trouble)?, 6)),
        Refusal::Robots => Ok((
            format!(in alloc; "fleet: file {name}: it is of other robots than the chapter\n")?,
            6,
        )),
        Refusal::Refit(fault) => Ok((refused_line(alloc, fault)?, 5)),
        Refusal::Renumbered(robot) => Ok((
            format!(in alloc; "change-refused 12 renumbered robot {robot}\n")?,
            5,
        )),
        Refusal::Waits => Ok((String::from_str(alloc, "change-refused 13 waits\n")?, 5)),
        Refusal::Kept(_) | Refusal::NoMemory => Err(AllocError),
    }
}

/// Prints why no changes are made. Returns the status.
fn refuse<W: Write, E: Write>(
    alloc: Global,
    texts: ChangeTexts<'_>,
    refusal: Refusal,
    (output, error): (&mut W, &mut E),
) -> u8 {
    if let Refusal::Kept(fault) = refusal {
        return complain_of_kept(alloc, texts.map, texts.kept, fault, error);
    }
    let name = match texts.site {
        Some(site) => site.name,
        None => "",
    };
    match refusal_line(alloc, name, refusal) {
        Ok((line, 5)) => {
            if write_whole(output, line.as_bytes()) {
                5
            } else {
                fail(InputFault::File, error)
            }
        }
        Ok((line, status)) => {
            write_whole(error, line.as_bytes());
            status
        }
        Err(AllocError) => fail(InputFault::NoMemory, error),
    }
}

/// Prints what is wrong with the map. Returns the status.
fn complain_of_map<E: Write>(alloc: Global, fault: MapFault, error: &mut E) -> u8 {
    if fault == MapFault::NoMemory {
        return fail(InputFault::NoMemory, error);
    }
    let complaint = Complaint::Map(fault);
    match format!(in alloc; "fleet: {complaint}\n") {
        Ok(line) => {
            write_whole(error, line.as_bytes());
            4
        }
        Err(AllocError) => fail(InputFault::NoMemory, error),
    }
}

/// Prints which word says no change. Returns the status.
fn complain_of_change<E: Write>(
    alloc: Global,
    words: &[String],
    place: usize,
    error: &mut E,
) -> u8 {
    let word = match words.get(place) {
        Some(word) => word.as_str(),
        None => "",
    };
    match format!(in alloc; "error: invalid value '{word}' for '<CHANGE>'\n") {
        Ok(line) => {
            write_whole(error, line.as_bytes());
            2
        }
        Err(AllocError) => fail(InputFault::NoMemory, error),
    }
}

/// Makes the changes that words say, at the end of a chapter on a map. If they are refused that is said, and the error is the
/// status: 2 a word says no change, 4 the map is refused, 5 a change cannot be made, or a robot would get another number, 6
/// the chapter or the record of the changes before is refused, 7 out of memory.
pub fn change_site<W: Write, E: Write>(
    alloc: Global,
    texts: ChangeTexts<'_>,
    (words, renumber): (&[String], bool),
    (output, error): (&mut W, &mut E),
) -> Result<Changed, u8> {
    let map = match read_map(alloc, texts.map) {
        Ok(map) => map,
        Err(fault) => return Err(complain_of_map(alloc, fault, error)),
    };
    let before = match record_before(alloc, texts) {
        Ok(before) => before,
        Err(refusal) => return Err(refuse(alloc, texts, refusal, (output, error))),
    };
    let chapter = match kept_chapter(alloc, texts.kept) {
        Ok(chapter) => chapter,
        Err(fault) => return Err(refuse(alloc, texts, Refusal::Kept(fault), (output, error))),
    };
    let changes = match changes_in(alloc, words, laws_of(&chapter)) {
        Ok(Ok(changes)) => changes,
        Ok(Err(place)) => return Err(complain_of_change(alloc, words, place, error)),
        Err(AllocError) => return Err(fail(InputFault::NoMemory, error)),
    };
    match changes_made(alloc, map, (before.as_ref(), &chapter), &changes, renumber) {
        Ok(changed) => Ok(changed),
        Err(refusal) => Err(refuse(alloc, texts, refusal, (output, error))),
    }
}
