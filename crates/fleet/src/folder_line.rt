//! Why a folder does not take the chapters of a fleet, in lines.

use crate::folder::FolderFault;
use fleet_lib::{InputFault, fail, write_whole};
use std::alloc::{Alloc, AllocError, Global};
use std::io::Write;

/// The line that says why a chapter's file in the folder of this name is refused.
fn chapter_line(alloc: Global, folder: &str, fault: FolderFault) -> Result<String, AllocError> {
    match fault {
        FolderFault::Unreadable(name) => {
            format!(in alloc; "fleet: file {folder}/{name}: no chapter has this name\n")
        }
        FolderFault::Missing(number) => format!(in alloc;
            "fleet: file {folder}/chapter-{number}.json: it is missing, and a later chapter is there\n"
        ),
        FolderFault::NoJournal(number) => format!(in alloc;
            "fleet: file {folder}/chapter-{number}.journal: it is missing, and a later one is there\n"
        ),
        FolderFault::Unread(name) => format!(in alloc; "fleet: file {name}: it cannot be read\n"),
        FolderFault::NoFile(name) => {
            format!(in alloc; "fleet: file {name}: it is a pipe, a link or a folder\n")
        }
        FolderFault::TooLarge(name) => {
            format!(in alloc; "fleet: file {name}: it has more than 1073741824 bytes\n")
        }
        FolderFault::Hollow(name) => {
            format!(in alloc; "fleet: file {name}: its first or last byte is zero\n")
        }
        _ => Err(AllocError),
    }
}

/// The line that says why the folder of this name does not take a fleet's chapters.
fn line_of(alloc: Global, folder: &str, fault: FolderFault) -> Result<String, AllocError> {
    match fault {
        FolderFault::NoName => String::from_str(
            alloc,
            "error: invalid value for '--traces <DIR>'\n",
        ),
        FolderFault::NoFolder(word) => {
            format!(in alloc; "error: '{word}' needs '--traces <DIR>'\n")
        }
        FolderFault::File(why) => {
            format!(in alloc; "fleet: file {folder} cannot be written: {why}\n")
        }
        FolderFault::InUse => format!(in alloc;
            "fleet: file {folder} is in use by another fleet\n"
        ),
        FolderFault::HasChapters => {
            format!(in alloc; "fleet: file {folder} has chapters of another fleet\n")
        }
        FolderFault::NoChapter => format!(in alloc; "fleet: file {folder} has no chapter\n"),
        fault => chapter_line(alloc, folder, fault),
    }
}

/// Whether a word is wrong, and no file.
fn is_of_words(fault: &FolderFault) -> bool {
    matches!(fault, FolderFault::NoName | FolderFault::NoFolder(_))
}

/// Prints why the folder of this name does not take a fleet's chapters. Returns the status.
pub(crate) fn complain_of_folder<R: Alloc<A = Global>, E: Write>(
    rt: &R,
    fault: FolderFault,
    name: Option<&str>,
    error: &mut E,
) -> u8 {
    let status = if is_of_words(&fault) { 2 } else { 3 };
    match line_of(rt.alloc(), name.unwrap_or(""), fault) {
        Ok(line) => {
            write_whole(error, line.as_bytes());
            status
        }
        Err(AllocError) => fail(InputFault::NoMemory, error),
    }
}
