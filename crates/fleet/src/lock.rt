//! The lock on a folder of chapters, and whether the folder takes files.

use crate::files::write_synced;
use crate::folder::FolderFault;
use fleet_lib::write_whole;
use std::alloc::{Alloc, Global};
use std::fs::{self, File, Files, OpenOptions, TryLockError};
use std::io::{self, ErrorKind};
use std::os::unix::fs::MetadataExt;

/// How often the lock is tried anew where its file was removed meanwhile.
const MOST_TRIES: u32 = 16;

/// How many bytes are written on trial: a block of a disk.
const TRIAL: usize = 4096;

/// Whether a file may be opened under this name: nothing has it, or a file that is no pipe, link or folder.
fn is_free<R: Files>(rt: &R, name: &str) -> io::Result<bool> {
    match fs::symlink_metadata(rt, name) {
        Ok(found) => Ok(found.is_file()),
        Err(fault) if fault.kind() == ErrorKind::NotFound => Ok(true),
        Err(fault) => Err(fault),
    }
}

/// Opens the file of the lock, which is made where it is not there.
fn open_lock<R: Files<File = File>>(rt: &R, name: &str) -> io::Result<File> {
    if !is_free(rt, name)? {
        return Err(io::Error::other("fleet.lock is no file"));
    }
    OpenOptions::new().create(true).write(true).open(rt, name)
}

/// Whether an open file is still the one of this name.
fn is_named<R: Files>(rt: &R, file: &File, name: &str) -> io::Result<bool> {
    let held = file.metadata()?;
    match fs::metadata(rt, name) {
        Ok(named) => Ok(held.dev() == named.dev() && held.ino() == named.ino()),
        Err(fault) if fault.kind() == ErrorKind::NotFound => Ok(false),
        Err(fault) => Err(fault),
    }
}

/// Locks the file of this name. The lock ends with the process, however that ends; the file stays, so that all
/// programs lock the same one. `None` if it was removed before it was locked.
fn lock_once<R: Files<File = File>>(rt: &R, name: &str) -> Result<Option<File>, FolderFault> {
    let file = open_lock(rt, name)?;
    match file.try_lock() {
        Ok(()) => {}
        Err(TryLockError::WouldBlock) => return Err(FolderFault::InUse),
        Err(TryLockError::Error(fault)) => return Err(FolderFault::from(fault)),
    }
    if is_named(rt, &file, name)? {
        Ok(Some(file))
    } else {
        Ok(None)
    }
}

/// Locks a folder. The lock lasts as long as the file that is returned.
pub(crate) fn lock_folder<R: Files<File = File> + Alloc<A = Global>>(
    rt: &R,
    folder: &str,
) -> Result<File, FolderFault> {
    let name = format!(in rt.alloc(); "{folder}/fleet.lock")?;
    for _ in 0..MOST_TRIES {
        if let Some(mut file) = lock_once(rt, name.as_str())? {
            write_whole(&mut file, b"a fleet keeps its chapters here\n");
            return Ok(file);
        }
    }
    Err(FolderFault::InUse)
}

/// Writes a file into a folder, down to the disk, and removes it.
pub(crate) fn try_folder<R: Files + Alloc<A = Global>>(
    rt: &R,
    folder: &str,
) -> Result<(), FolderFault> {
    let name = format!(in rt.alloc(); "{folder}/fleet.part")?;
    let trial = vec![in rt.alloc(); b'\n'; TRIAL]?;
    let written = write_synced(rt, name.as_str(), &trial);
    let _removed = fs::remove_file(rt, name.as_str());
    Ok(written?)
}
