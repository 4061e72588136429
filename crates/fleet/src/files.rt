//! Files that are made anew.

use std::fs::{self, File, Files, OpenFile};
use std::io::{self, ErrorKind, Write};

/// Removes what has this name, if anything has.
pub(crate) fn remove_old<R: Files>(rt: &R, name: &str) -> io::Result<()> {
    match fs::remove_file(rt, name) {
        Ok(()) => Ok(()),
        Err(fault) if fault.kind() == ErrorKind::NotFound => Ok(()),
        Err(fault) => Err(fault),
    }
}

/// Writes a new file in place of what had its name, which is not opened. Returns it.
pub(crate) fn write_new<R: Files>(rt: &R, name: &str, text: &[u8]) -> io::Result<R::File> {
    remove_old(rt, name)?;
    let mut file = File::create_new(rt, name)?;
    file.write_all(text)?;
    Ok(file)
}

/// Writes a new file, down to the disk, in place of what had its name.
pub(crate) fn write_synced<R: Files>(rt: &R, name: &str, text: &[u8]) -> io::Result<()> {
    write_new(rt, name, text)?.sync_all()
}

/// Brings the names in a folder down to the disk.
pub(crate) fn sync_folder<R: Files>(rt: &R, folder: &str) -> io::Result<()> {
    File::open(rt, folder)?.sync_all()
}
