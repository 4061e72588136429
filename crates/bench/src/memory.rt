//! The memory of this process.

use fleet_map::text::number_up_to;
use std::alloc::{Alloc, Global};
use std::fs::{self, Files};
use std::io::{self, ErrorKind};

/// Where Linux says how many pages this process has: in all, and resident.
const PAGES: &str = "/proc/self/statm";

/// The bytes of a page.
const PAGE: u64 = 4096;

/// The bytes of this process that are resident now.
pub(crate) fn resident<R: Alloc<A = Global> + Files>(rt: &R) -> io::Result<u64> {
    let text = fs::read(rt, PAGES)?;
    match pages_in(&text) {
        Some(pages) => Ok(pages.saturating_mul(PAGE)),
        None => Err(io::Error::from(ErrorKind::InvalidData)),
    }
}

/// The second number.
fn pages_in(text: &[u8]) -> Option<u64> {
    let word = text.split(|byte| *byte == b' ').nth(1)?;
    number_up_to(word, 1 << 40)
}
