//! The word `change`.

use crate::chapters::{keep_chapter, keep_text};
use crate::ends::{MOST_MAP_BYTES, complain, file_bytes};
use crate::folder::{Found, Start, hold_folder};
use crate::folder_line::complain_of_folder;
use crate::kept_file::KeptFile;
use crate::recovering::recover;
use crate::sites::site_name;
use fleet_lib::{
    ChangeJob, ChangeTexts, Changed, InputFault, KeptText, change_site, fail, write_whole,
};
use std::alloc::{Alloc, AllocError, Global};
use std::fs::{File, Files};
use std::io::{self, ErrorKind, Write};

/// Why what the changes make was not written.
#[derive(Drop)]
enum Unwritten {
    /// The file of this name cannot be written.
    File(String, io::Error),
    NoMemory,
}

impl From<AllocError> for Unwritten {
    fn from(_error: AllocError) -> Unwritten {
        Unwritten::NoMemory
    }
}

/// The folder that a file of this name is in.
pub(crate) fn folder_of(name: &str) -> &str {
    match name.rsplit_once('/') {
        Some(("", _)) => "/",
        Some((folder, _)) => folder,
        None => ".",
    }
}

/// Whether the file of this name has this text already.
fn has_text<R: Files + Alloc<A = Global>>(rt: &R, name: &str, text: &str) -> bool {
    match file_bytes(rt, name, MOST_MAP_BYTES) {
        Ok(bytes) => bytes.as_slice() == text.as_bytes(),
        Err(_) => false,
    }
}

/// Writes a text as a whole file of a new name.
fn write_file<R: Files + Alloc<A = Global>>(
    rt: &R,
    folder: &str,
    name: &str,
    text: &str,
) -> Result<(), Unwritten> {
    let beside = format!(in rt.alloc(); "{name}.part")?;
    match keep_text(rt, folder, (beside.as_str(), name), text.as_bytes()) {
        Ok(()) => Ok(()),
        Err(why) if why.kind() == ErrorKind::OutOfMemory => Err(Unwritten::NoMemory),
        Err(why) => Err(Unwritten::File(String::from_str(rt.alloc(), name)?, why)),
    }
}

/// Writes the map, then the record, then the chapter. Without its chapter a record is of changes that were not made,
/// and the next start removes it.
fn write_changed<R: Files + Alloc<A = Global>>(
    rt: &R,
    change: &ChangeJob,
    changed: &Changed,
) -> Result<(), Unwritten> {
    let (alloc, folder, to) = (rt.alloc(), change.traces.as_str(), change.to.as_str());
    if !has_text(rt, to, changed.map.as_str()) {
        write_file(rt, folder_of(to), to, changed.map.as_str())?;
    }
    let site = site_name(alloc, folder, changed.chapter)?;
    write_file(rt, folder, site.as_str(), changed.site.as_str())?;
    let number = changed.chapter;
    let name = format!(in alloc; "{folder}/chapter-{number}.json")?;
    match keep_chapter(rt, folder, number, changed.trace.as_bytes()) {
        Ok(()) => Ok(()),
        Err(why) if why.kind() == ErrorKind::OutOfMemory => Err(Unwritten::NoMemory),
        Err(why) => Err(Unwritten::File(name, why)),
    }
}

/// Prints which file was not written. Returns the status.
fn complain_of_file<E: Write>(alloc: Global, unwritten: Unwritten, error: &mut E) -> u8 {
    let line = match unwritten {
        Unwritten::File(name, why) => {
            format!(in alloc; "fleet: file {name} cannot be written: {why}\n")
        }
        Unwritten::NoMemory => Err(AllocError),
    };
    match line {
        Ok(line) => {
            write_whole(error, line.as_bytes());
            3
        }
        Err(AllocError) => fail(InputFault::NoMemory, error),
    }
}

/// The texts of which the changes are made. A chapter is missing only where the map is none, which is said first.
fn texts_of<'a>(
    map: &'a [u8],
    kept: &'a Option<KeptFile>,
    site: &'a Option<KeptFile>,
) -> ChangeTexts<'a> {
    let kept = match kept {
        Some(file) => file.lent(),
        None => KeptText {
            name: "",
            number: 0,
            text: &[],
        },
    };
    let site = match site {
        Some(file) => Some(file.lent()),
        None => None,
    };
    ChangeTexts { map, site, kept }
}

/// Makes the changes of these texts, and writes what they make unless it is only to be said. Returns the status.
fn change_texts<R: Files + Alloc<A = Global>, W: Write, E: Write>(
    rt: &R,
    change: &ChangeJob,
    texts: ChangeTexts<'_>,
    output: &mut W,
    error: &mut E,
) -> u8 {
    let words = (change.changes.as_slice(), change.renumber);
    let changed = match change_site(rt.alloc(), texts, words, (&mut *output, &mut *error)) {
        Ok(changed) => changed,
        Err(status) => return status,
    };
    if !change.dry_run {
        if let Err(unwritten) = write_changed(rt, change, &changed) {
            return complain_of_file(rt.alloc(), unwritten, error);
        }
    }
    if write_whole(output, changed.said.as_bytes()) {
        0
    } else {
        fail(InputFault::File, error)
    }
}

/// Changes the site of the folder that was found.
fn change_found<R: Files + Alloc<A = Global>, W: Write, E: Write>(
    rt: &R,
    change: &ChangeJob,
    found: Found,
    output: &mut W,
    error: &mut E,
) -> u8 {
    let map = match file_bytes(rt, change.map.as_str(), MOST_MAP_BYTES) {
        Ok(map) => map,
        Err(fault) => return complain(rt, fault, error),
    };
    let folder = change.traces.as_str();
    let mut said = Vec::new(rt.alloc());
    let recovered = recover(rt, (map.as_slice(), folder), found, error, &mut said);
    write_whole(error, &said);
    match recovered {
        Ok((kept, site)) => change_texts(rt, change, texts_of(&map, &kept, &site), output, error),
        Err(status) => status,
    }
}

/// Changes the site of a fleet that does not run, after the last chapter in its folder. Returns the status: 0 good, 2 a
/// word says no change, 3 a file failed, 4 the map is refused, 5 the changes are, 6 no fleet goes on from the folder on
/// this map, 7 memory ran out.
pub(crate) fn run_change<
    R: Files<File = File> + Alloc<A = Global> + Clone + Drop,
    W: Write,
    E: Write,
>(rt: &R, change: &ChangeJob, output: &mut W, error: &mut E) -> u8 {
    let name = Some(change.traces.as_str());
    match hold_folder(rt, name, Start::ResumeOnly) {
        Ok((folder, found)) => {
            let status = change_found(rt, change, found, output, error);
            drop(folder);
            status
        }
        Err(fault) => complain_of_folder(rt, fault, name, error),
    }
}
