//! The files that a job names.

ghost use Rattle.std.specs.Prelude.{◌<◌, ◌≤◌, ◌^◌, vec_len, IfOk};

use crate::density::is_dense;
use fleet_lib::{InputFault, fail, read_up_to, write_whole};
use std::alloc::{Alloc, AllocError, Global};
use std::fs::{File, Files};
use std::io::{ErrorKind, Read, Write};

/// The greatest length of a map, in bytes.
pub(crate) const MOST_MAP_BYTES: usize = 16_777_216;

/// Why the file with this name cannot be used.
#[derive(Clone, Copy)]
pub(crate) enum FileFault<'a> {
    /// There is no such file.
    Missing(&'a str),
    /// It cannot be opened or read.
    Unreadable(&'a str),
    /// Nothing can be written there, or there is a file of this name.
    Unwritable(&'a str),
    /// It is longer than such a file may be.
    TooLarge(&'a str),
    /// It begins with a byte order mark.
    Marked(&'a str),
    /// It is JSON that takes many times its length in memory.
    Dense(&'a str),
    /// Memory ran out.
    NoMemory,
}

impl<'a> From<AllocError> for FileFault<'a> {
    fn from(_error: AllocError) -> FileFault<'a> {
        FileFault::NoMemory
    }
}

/// Why the file with this name was not read completely: it is too large if it has more to read.
fn unread<'a, F: Read>(name: &'a str, file: &mut F, fault: InputFault) -> FileFault<'a> {
    let mut piece = [0u8; 1];
    match fault {
        InputFault::NoMemory => FileFault::NoMemory,
        InputFault::File => match file.read(&mut piece) {
            Ok(_) => FileFault::TooLarge(name),
            Err(_) => FileFault::Unreadable(name),
        },
    }
}

/// Whether a text begins with a byte order mark.
fn is_marked(text: &[u8]) -> bool {
    text.len() >= 3 && &text[..3] == b"\xEF\xBB\xBF".as_slice()
}

/// What is wrong with the text of the file with this name, in any form.
fn text_fault<'a>(name: &'a str, text: &[u8]) -> Option<FileFault<'a>> {
    if is_marked(text) {
        Some(FileFault::Marked(name))
    } else if is_dense(text) {
        Some(FileFault::Dense(name))
    } else {
        None
    }
}

/// Everything that a file has, at most `most` bytes. A byte order mark at its begin is a fault, since no text here has
/// one, and so is JSON that takes too much memory for its length.
pub(crate) fn file_bytes<'a, R: Files + Alloc<A = Global>>(
    rt: &R,
    name: &'a str,
    most: usize,
) -> Result<Vec<u8>, FileFault<'a>>
    requires { most < 2 ^ 32 }
    ensures { IfOk result (λ bytes. vec_len bytes ≤ most) }
{
    match File::open(rt, name) {
        Ok(mut file) => match read_up_to(rt.alloc(), &mut file, most) {
            Ok(bytes) => match text_fault(name, &bytes) {
                Some(fault) => Err(fault),
                None => Ok(bytes),
            },
            Err(fault) => Err(unread(name, &mut file, fault)),
        },
        Err(fault) => match fault.kind() {
            ErrorKind::OutOfMemory => Err(FileFault::NoMemory),
            ErrorKind::NotFound => Err(FileFault::Missing(name)),
            _ => Err(FileFault::Unreadable(name)),
        },
    }
}

/// The line that says why a file cannot be used.
fn line_of(alloc: Global, fault: FileFault<'_>) -> Result<String, AllocError> {
    match fault {
        FileFault::Missing(name) => format!(in alloc; "fleet: file {name} missing\n"),
        FileFault::Unreadable(name) => format!(in alloc; "fleet: file {name} unreadable\n"),
        FileFault::Unwritable(name) => format!(in alloc; "fleet: file {name} unwritable\n"),
        FileFault::TooLarge(name) => format!(in alloc; "fleet: file {name} too-large\n"),
        FileFault::Dense(name) => format!(in alloc; "fleet: file {name} too-dense\n"),
        FileFault::Marked(name) => format!(in alloc; "fleet: file {name} byte-order-mark\n"),
        FileFault::NoMemory => Err(AllocError),
    }
}

/// Prints why a file cannot be used. Returns the status.
pub(crate) fn complain<R: Alloc<A = Global>, E: Write>(
    rt: &R,
    fault: FileFault<'_>,
    error: &mut E,
) -> u8 {
    match line_of(rt.alloc(), fault) {
        Ok(line) => {
            write_whole(error, line.as_bytes());
            3
        }
        Err(AllocError) => fail(InputFault::NoMemory, error),
    }
}
