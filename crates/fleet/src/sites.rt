//! The records of changes in a folder, before the fleet begins.

use crate::files::{remove_old, sync_folder};
use crate::folder::FolderFault;
use crate::kept_file::{KeptFile, file_named};
use fleet_lib::{Named, site_named};
use std::alloc::{Alloc, AllocError, Global};
use std::fs::Files;

/// The name of the record of changes that a chapter begins with.
pub(crate) fn site_name(alloc: Global, folder: &str, number: u32) -> Result<String, AllocError> {
    format!(in alloc; "{folder}/site-{number}.json")
}

/// The numbers of the records among a folder's files.
fn site_numbers(alloc: Global, names: &[String]) -> Result<Vec<u32>, FolderFault> {
    let mut numbers = Vec::new(alloc);
    for name in names {
        match site_named(alloc, name.as_str())? {
            Named::Other => {}
            Named::Chapter(number) => {
                if numbers.push(number).is_err() {
                    return Err(FolderFault::NoMemory);
                }
            }
            Named::Unreadable => {
                return Err(FolderFault::Unreadable(String::from_str(alloc, name.as_str())?));
            }
        }
    }
    Ok(numbers)
}

/// The greatest number up to this one.
fn last_until(numbers: &[u32], last: u32) -> Option<u32> {
    let mut found = None;
    for number in numbers {
        if *number <= last && found.is_none_or(|other| other < *number) {
            found = Some(*number);
        }
    }
    found
}

/// The record of the last changes up to the begin of a chapter, if there were any.
pub(crate) fn site_until<R: Files + Alloc<A = Global>>(
    rt: &R,
    folder: &str,
    names: &[String],
    last: u32,
) -> Result<Option<KeptFile>, FolderFault> {
    match last_until(&site_numbers(rt.alloc(), names)?, last) {
        None => Ok(None),
        Some(number) => {
            let name = site_name(rt.alloc(), folder, number)?;
            Ok(Some(file_named(rt, name, number)?))
        }
    }
}

/// Removes the records of changes that were not made, since the program was killed before their chapter was written:
/// those with a greater number than the last chapter, or all if there is none.
pub(crate) fn remove_unmade<R: Files + Alloc<A = Global>>(
    rt: &R,
    folder: &str,
    names: &[String],
    last: Option<u32>,
) -> Result<(), FolderFault> {
    let mut removed = false;
    for number in site_numbers(rt.alloc(), names)? {
        if last.is_none_or(|last| last < number) {
            let name = site_name(rt.alloc(), folder, number)?;
            remove_old(rt, name.as_str())?;
            removed = true;
        }
    }
    if removed {
        sync_folder(rt, folder)?;
    }
    Ok(())
}
