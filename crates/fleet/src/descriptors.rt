//! The files that are open when a program starts: standard input, standard output and the error output.

use fleet_lib::write_whole;
use std::fs::{self, Files};
use std::io::Write;

/// Where the system lists the files that a process has open.
const LISTED: &str = "/proc/self/fd";

/// Whether this file is open. Where the system has no such list, it is taken to be.
fn is_open<R: Files>(rt: &R, place: &str) -> bool {
    match (fs::exists(rt, LISTED), fs::exists(rt, place)) {
        (Ok(true), Ok(false)) => false,
        _ => true,
    }
}

/// Whether standard input, standard output and the error output are open, and otherwise says which one is not: the next
/// file that is opened would take its place.
pub(crate) fn are_open<R: Files, E: Write>(rt: &R, error: &mut E) -> bool {
    if !is_open(rt, "/proc/self/fd/2") {
        return false;
    }
    if !is_open(rt, "/proc/self/fd/0") {
        write_whole(error, b"fleet: file standard input is closed\n");
        return false;
    }
    if !is_open(rt, "/proc/self/fd/1") {
        write_whole(error, b"fleet: file standard output is closed\n");
        return false;
    }
    true
}
