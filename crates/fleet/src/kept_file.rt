//! The file of the chapter that a fleet goes on from.

use crate::ends::{FileFault, file_bytes};
use crate::folder::FolderFault;
use fleet_lib::KeptText;
use std::alloc::{Alloc, Global};
use std::fs::{self, File, Files};
use std::io::{self, Read, Seek, SeekFrom};

/// The greatest length of a chapter's text, in bytes.
pub(crate) const MOST_KEPT_BYTES: usize = 1_073_741_824;

/// The file of the chapter that a fleet goes on from.
#[derive(Debug, Drop)]
pub(crate) struct KeptFile {
    name: String,
    number: u32,
    text: Vec<u8>,
}

impl KeptFile {
    /// The file of this name, with the text of the chapter of this number.
    pub(crate) fn new(name: String, number: u32, text: Vec<u8>) -> KeptFile {
        KeptFile { name, number, text }
    }

    /// Its text.
    pub(crate) fn text(&self) -> &[u8] {
        &self.text
    }

    /// Its name.
    pub(crate) fn into_name(self) -> String {
        self.name
    }

    /// The number of its chapter.
    pub(crate) fn number(&self) -> u32 {
        self.number
    }

    /// The same, lent.
    pub(crate) fn lent(&self) -> KeptText<'_> {
        KeptText {
            name: self.name.as_str(),
            number: self.number,
            text: &self.text,
        }
    }
}

/// What is wrong with a file in the place of a chapter, before all of it is read.
#[derive(Clone, Copy)]
enum Misfit {
    /// It is a pipe, a link or a folder.
    NoFile,
    TooLarge,
    /// Its first or its last byte is zero, as in a file with holes.
    Hollow,
    Unreadable,
}

/// The byte at a place of a file.
fn byte_at<F: Read + Seek>(file: &mut F, place: u64) -> io::Result<u8> {
    let mut byte = [1u8; 1];
    file.seek(SeekFrom::Start(place))?;
    file.read(&mut byte)?;
    Ok(byte[0])
}

/// Whether the first or the last byte of a file is zero, which no text has.
fn is_hollow<R: Files>(rt: &R, name: &str, len: u64) -> io::Result<bool> {
    let mut file = File::open(rt, name)?;
    Ok(byte_at(&mut file, 0)? == 0 || byte_at(&mut file, len.saturating_sub(1))? == 0)
}

/// Whether a file has this name, and no pipe, link or folder.
pub(crate) fn is_plain_file<R: Files>(rt: &R, name: &str) -> bool {
    match fs::symlink_metadata(rt, name) {
        Ok(found) => found.is_file(),
        Err(_) => false,
    }
}

/// What is wrong with the file of this name.
fn misfit_of<R: Files>(rt: &R, name: &str) -> Option<Misfit> {
    let Ok(found) = fs::symlink_metadata(rt, name) else {
        return Some(Misfit::Unreadable);
    };
    if !found.is_file() {
        return Some(Misfit::NoFile);
    }
    if found.len() > MOST_KEPT_BYTES as u64 {
        return Some(Misfit::TooLarge);
    }
    match is_hollow(rt, name, found.len()) {
        Ok(false) => None,
        Ok(true) => Some(Misfit::Hollow),
        Err(_) => Some(Misfit::Unreadable),
    }
}

/// The file of a chapter in a folder.
pub(crate) fn file_of<R: Files + Alloc<A = Global>>(
    rt: &R,
    folder: &str,
    number: u32,
) -> Result<KeptFile, FolderFault> {
    let name = format!(in rt.alloc(); "{folder}/chapter-{number}.json")?;
    file_named(rt, name, number)
}

/// The file of this name, which belongs to the chapter of this number.
pub(crate) fn file_named<R: Files + Alloc<A = Global>>(
    rt: &R,
    name: String,
    number: u32,
) -> Result<KeptFile, FolderFault> {
    match misfit_of(rt, name.as_str()) {
        Some(Misfit::NoFile) => return Err(FolderFault::NoFile(name)),
        Some(Misfit::TooLarge) => return Err(FolderFault::TooLarge(name)),
        Some(Misfit::Hollow) => return Err(FolderFault::Hollow(name)),
        Some(Misfit::Unreadable) => return Err(FolderFault::Unread(name)),
        None => {}
    }
    match file_bytes(rt, name.as_str(), MOST_KEPT_BYTES) {
        Ok(text) => Ok(KeptFile { name, number, text }),
        Err(FileFault::NoMemory) => Err(FolderFault::NoMemory),
        Err(_) => Err(FolderFault::Unread(name)),
    }
}
