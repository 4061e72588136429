//! The journals in a folder, before the fleet begins.

use crate::ends::{FileFault, file_bytes};
use crate::files::{remove_old, sync_folder};
use crate::folder::{FolderFault, names_in};
use crate::journal::journal_name;
use crate::kept_file::{MOST_KEPT_BYTES, is_plain_file};
use fleet_lib::{JournalText, Named, has_whole_line, journal_named};
use std::alloc::{Alloc, AllocError, Global};
use std::fs::{self, Files};

/// The file of a journal.
#[derive(Debug, Drop)]
pub(crate) struct JournalFile {
    pub(crate) name: String,
    pub(crate) number: u32,
    text: Vec<u8>,
}

impl JournalFile {
    /// The same, lent.
    pub(crate) fn lent(&self) -> JournalText<'_> {
        JournalText {
            name: self.name.as_str(),
            number: self.number,
            text: &self.text,
        }
    }
}

/// Adds an item.
fn add<T: Drop>(items: &mut Vec<T>, item: T) -> Result<(), AllocError> {
    items.push(item)?;
    Ok(())
}

/// The numbers of the journals among a folder's files, in order.
pub(crate) fn journal_numbers(alloc: Global, names: &[String]) -> Result<Vec<u32>, FolderFault> {
    let mut numbers = Vec::new(alloc);
    for name in names {
        match journal_named(alloc, name.as_str())? {
            Named::Other => {}
            Named::Chapter(number) => add(&mut numbers, number)?,
            Named::Unreadable => {
                return Err(FolderFault::Unreadable(String::from_str(alloc, name.as_str())?));
            }
        }
    }
    numbers.sort_unstable();
    Ok(numbers)
}

/// The journal of this number.
fn journal_of<R: Files + Alloc<A = Global>>(
    rt: &R,
    folder: &str,
    number: u32,
) -> Result<JournalFile, FolderFault> {
    let name = journal_name(rt.alloc(), folder, number)?;
    if !is_plain_file(rt, name.as_str()) {
        return Err(FolderFault::NoFile(name));
    }
    match file_bytes(rt, name.as_str(), MOST_KEPT_BYTES) {
        Ok(text) => Ok(JournalFile { name, number, text }),
        Err(FileFault::NoMemory) => Err(FolderFault::NoMemory),
        Err(FileFault::TooLarge(_)) => Err(FolderFault::TooLarge(name)),
        Err(_) => Err(FolderFault::Unread(name)),
    }
}

/// Removes the journals of these numbers.
fn remove_all<R: Files + Alloc<A = Global>>(
    rt: &R,
    folder: &str,
    numbers: &[u32],
) -> Result<(), FolderFault> {
    for number in numbers {
        let name = journal_name(rt.alloc(), folder, *number)?;
        remove_old(rt, name.as_str())?;
    }
    if !numbers.is_empty() {
        sync_folder(rt, folder)?;
    }
    Ok(())
}

/// Removes the journals of a folder that nothing was written into, once its fleet has ended.
pub(crate) fn remove_blank<R: Files + Alloc<A = Global> + Clone + Drop>(
    rt: &R,
    folder: &str,
) -> Result<(), FolderFault> {
    let names = names_in(rt, folder)?;
    let mut blank = Vec::new(rt.alloc());
    for number in journal_numbers(rt.alloc(), &names)? {
        let name = journal_name(rt.alloc(), folder, number)?;
        if fs::symlink_metadata(rt, name.as_str())?.len() == 0 {
            add(&mut blank, number)?;
        }
    }
    remove_all(rt, folder, &blank)
}

/// The journals of these numbers, in order, from the one that follows the last chapter on, if there is one. Those of
/// chapters that were kept, and those without a whole line, tell nothing that is needed: they are removed.
pub(crate) fn journals_after<R: Files + Alloc<A = Global>>(
    rt: &R,
    folder: &str,
    numbers: &[u32],
    last: Option<u32>,
) -> Result<Vec<JournalFile>, FolderFault> {
    let (mut journals, mut idle, mut last) = (Vec::new(rt.alloc()), Vec::new(rt.alloc()), last);
    for number in numbers {
        if last.is_some_and(|last| *number <= last) {
            add(&mut idle, *number)?;
            continue;
        }
        let journal = journal_of(rt, folder, *number)?;
        if !has_whole_line(journal.lent().text) {
            add(&mut idle, *number)?;
            continue;
        }
        if let Some(last) = last {
            if *number - last > 1 {
                return Err(FolderFault::NoJournal(last + 1));
            }
        }
        last = Some(*number);
        add(&mut journals, journal)?;
    }
    remove_all(rt, folder, &idle)?;
    Ok(journals)
}
