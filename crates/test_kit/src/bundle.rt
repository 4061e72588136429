//! A bundle of a map and a script.

use crate::block::split_at;

/// The texts of a map and of a script.
#[derive(Clone, Copy, Debug)]
pub struct Bundle<'a> {
    /// The text up to the line `script`.
    pub map: &'a [u8],
    /// The text after that line.
    pub script: &'a [u8],
}

impl<'a> Bundle<'a> {
    /// The bundle that a text is; `None` if no line begins with `script`.
    pub fn of(text: &'a [u8]) -> Option<Bundle<'a>> {
        let Some((map, _, script)) = split_at(text, b"script") else {
            return None;
        };
        Some(Bundle { map, script })
    }
}
