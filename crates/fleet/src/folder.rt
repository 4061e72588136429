//! The folder of chapters, before the fleet begins.

use crate::journals::{JournalFile, journal_numbers, journals_after};
use crate::kept_file::{KeptFile, file_of};
use crate::lock::{lock_folder, try_folder};
use crate::sites::{remove_unmade, site_until};
use fleet_lib::{NamesFault, last_chapter, write_whole};
use std::alloc::{Alloc, AllocError, Global};
use std::fs::{self, File, Files};
use std::io::{self, ErrorKind, Write};

/// Why a folder does not take the chapters of a fleet.
#[derive(Debug, Drop)]
pub(crate) enum FolderFault {
    /// The word is empty.
    NoName,
    /// No folder is named from which to go on, though this word asks for it.
    NoFolder(&'static str),
    /// It is not there, or cannot be written.
    File(io::Error),
    /// Another fleet keeps its chapters there.
    InUse,
    /// Chapters of a fleet are there.
    HasChapters,
    /// There is no chapter from which to go on, and no fleet may begin anew.
    NoChapter,
    /// A file with this name is taken for that of a chapter, and is that of none.
    Unreadable(String),
    /// The chapter with this number is not there, and a later one is.
    Missing(u32),
    /// The journal of the chapter with this number is not there, and a later one is.
    NoJournal(u32),
    /// The last chapter, whose file has this name, cannot be read.
    Unread(String),
    /// In its place is a pipe, a link or a folder.
    NoFile(String),
    TooLarge(String),
    /// Its file begins or ends with a byte that no text has.
    Hollow(String),
    NoMemory,
}

impl From<AllocError> for FolderFault {
    fn from(_error: AllocError) -> FolderFault {
        FolderFault::NoMemory
    }
}

impl From<io::Error> for FolderFault {
    fn from(error: io::Error) -> FolderFault {
        if error.kind() == ErrorKind::OutOfMemory {
            FolderFault::NoMemory
        } else {
            FolderFault::File(error)
        }
    }
}

/// Whether a fleet goes on from the last chapter of its folder.
#[derive(Clone, Copy, Debug, PartialEq, Eq)]
pub(crate) enum Start {
    /// It begins anew, in a folder without chapters.
    Anew,
    /// It goes on if there is a chapter.
    Resume,
    /// It goes on, or is refused.
    ResumeOnly,
}

impl Start {
    /// By the words `--resume` and `--resume-only`.
    pub(crate) fn of(resume: bool, resume_only: bool) -> Start {
        if resume_only {
            Start::ResumeOnly
        } else if resume {
            Start::Resume
        } else {
            Start::Anew
        }
    }
}

/// A folder that this fleet alone keeps its chapters in, or none, until this is dropped.
#[derive(Drop)]
pub(crate) struct HeldFolder {
    _lock: Option<File>,
}

/// What a fleet goes on from: the last chapter of its folder, if there is one, and the journals of those that follow it.
#[derive(Drop)]
pub(crate) struct Found {
    pub(crate) kept: Option<KeptFile>,
    pub(crate) journals: Vec<JournalFile>,
    /// The record of the last changes of the site, if there were any.
    pub(crate) site: Option<KeptFile>,
}

impl Found {
    fn nothing(alloc: Global) -> Found {
        Found {
            kept: None,
            journals: Vec::new(alloc),
            site: None,
        }
    }

    fn is_nothing(&self) -> bool {
        self.kept.is_none() && self.journals.is_empty()
    }
}

/// The names of a folder's files. Those that are no text are left out: no chapter has such a name.
pub(crate) fn names_in<R: Files + Alloc<A = Global> + Clone + Drop>(
    rt: &R,
    folder: &str,
) -> Result<Vec<String>, FolderFault> {
    let mut names = Vec::new(rt.alloc());
    for entry in fs::read_dir(rt, folder)? {
        let name = match entry {
            Ok(entry) => String::from_str(rt.alloc(), entry.file_name())?,
            Err(fault) if fault.kind() == ErrorKind::InvalidFilename => continue,
            Err(fault) => return Err(FolderFault::from(fault)),
        };
        if names.push(name).is_err() {
            return Err(FolderFault::NoMemory);
        }
    }
    Ok(names)
}

/// Whether a chapter, its journal, or the record of changes before it has this name.
fn is_chapter(name: &str) -> bool {
    if name.starts_with("site-") {
        return name.ends_with(".json");
    }
    name.starts_with("chapter-") && (name.ends_with(".json") || name.ends_with(".journal"))
}

/// What is wrong with the names of a folder's files.
fn fault_of(alloc: Global, fault: NamesFault, names: &[String]) -> Result<FolderFault, AllocError> {
    match fault {
        NamesFault::Unreadable(at) => match names.get(at) {
            Some(name) => Ok(FolderFault::Unreadable(String::from_str(alloc, name.as_str())?)),
            None => Ok(FolderFault::NoMemory),
        },
        NamesFault::Missing(number) => Ok(FolderFault::Missing(number)),
        NamesFault::NoMemory => Ok(FolderFault::NoMemory),
    }
}

/// The last chapter of a folder with these files, if it has chapters.
fn last_of<R: Files + Alloc<A = Global>>(
    rt: &R,
    folder: &str,
    names: &[String],
) -> Result<Option<KeptFile>, FolderFault> {
    match last_chapter(rt.alloc(), names) {
        Ok(Some(number)) => Ok(Some(file_of(rt, folder, number)?)),
        Ok(None) => Ok(None),
        Err(fault) => Err(fault_of(rt.alloc(), fault, names)?),
    }
}

/// The number of the last chapter, after the journals became chapters.
fn last_number(kept: &Option<KeptFile>, journals: &[JournalFile]) -> Option<u32> {
    match (journals.last(), kept) {
        (Some(journal), _) => Some(journal.number),
        (None, Some(file)) => Some(file.number()),
        (None, None) => None,
    }
}

/// The last chapter of a folder with these files, and the journals of those that follow it.
fn found_in<R: Files + Alloc<A = Global>>(
    rt: &R,
    folder: &str,
    names: &[String],
) -> Result<Found, FolderFault> {
    let numbers = journal_numbers(rt.alloc(), names)?;
    let kept = last_of(rt, folder, names)?;
    let last = match &kept {
        Some(file) => Some(file.number()),
        None => None,
    };
    let journals = journals_after(rt, folder, &numbers, last)?;
    let last = last_number(&kept, &journals);
    remove_unmade(rt, folder, names, last)?;
    let site = match last {
        Some(last) => site_until(rt, folder, names, last)?,
        None => None,
    };
    Ok(Found {
        kept,
        journals,
        site,
    })
}

/// What a fleet goes on from in a folder, if it is to go on and there is something. A fleet that begins anew takes no
/// folder that has chapters, and one that may only go on takes none that has no chapter.
fn kept_in<R: Files + Alloc<A = Global> + Clone + Drop>(
    rt: &R,
    folder: &str,
    start: Start,
) -> Result<Found, FolderFault> {
    let names = names_in(rt, folder)?;
    if start == Start::Anew {
        if names.iter().any(|name| is_chapter(name.as_str())) {
            return Err(FolderFault::HasChapters);
        }
        return Ok(Found::nothing(rt.alloc()));
    }
    let found = found_in(rt, folder, &names)?;
    if found.is_nothing() && start == Start::ResumeOnly {
        return Err(FolderFault::NoChapter);
    }
    Ok(found)
}

/// What is held where no folder is named.
fn without_folder(alloc: Global, start: Start) -> Result<(HeldFolder, Found), FolderFault> {
    match start {
        Start::Anew => Ok((HeldFolder { _lock: None }, Found::nothing(alloc))),
        Start::Resume => Err(FolderFault::NoFolder("--resume")),
        Start::ResumeOnly => Err(FolderFault::NoFolder("--resume-only")),
    }
}

/// Takes the folder of this name for a fleet, if one is named. Returns it with what the fleet goes on from, if it is to
/// go on and there is something.
pub(crate) fn hold_folder<R: Files<File = File> + Alloc<A = Global> + Clone + Drop>(
    rt: &R,
    name: Option<&str>,
    start: Start,
) -> Result<(HeldFolder, Found), FolderFault> {
    let Some(folder) = name else {
        return without_folder(rt.alloc(), start);
    };
    if folder.is_empty() {
        return Err(FolderFault::NoName);
    }
    let lock = lock_folder(rt, folder)?;
    try_folder(rt, folder)?;
    let found = kept_in(rt, folder, start)?;
    Ok((HeldFolder { _lock: Some(lock) }, found))
}

/// Says that a fleet begins anew, where it could have gone on.
pub(crate) fn tell_start<E: Write>(start: Start, found: &Found, error: &mut E) {
    if start != Start::Anew && found.is_nothing() {
        write_whole(error, b"fleet: begins anew\n");
    }
}
