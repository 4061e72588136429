//! Numbers and words of a line.

use fleet_map::text::{first_word, number_up_to};
use fleet_script::one_small_number;
use std::alloc::{AllocError, Global};

/// The greatest number that is told apart.
const MOST: u64 = 1 << 59;

/// A number of 32 bits, and what follows it.
pub(crate) fn small(words: &[u8]) -> Option<(u32, &[u8])> {
    let (word, rest) = first_word(words)?;
    Some((one_small_number(word)?, rest))
}

/// A number, and what follows it.
pub(crate) fn wide(words: &[u8]) -> Option<(u64, &[u8])> {
    let (word, rest) = first_word(words)?;
    Some((number_up_to(word, MOST)?, rest))
}

/// What follows this word.
pub(crate) fn after<'a>(words: &'a [u8], wanted: &[u8]) -> Option<&'a [u8]> {
    let (word, rest) = first_word(words)?;
    if word == wanted { Some(rest) } else { None }
}

/// The number of a word that ends with a colon, and what follows it.
pub(crate) fn with_colon(words: &[u8]) -> Option<(u64, &[u8])> {
    let (word, rest) = first_word(words)?;
    if word.is_empty() || word[word.len() - 1] != b':' {
        return None;
    }
    Some((number_up_to(&word[..word.len() - 1], MOST)?, rest))
}

/// The numbers that the words are; `None` if one is none of 32 bits.
pub(crate) fn cells_in(alloc: Global, words: &[u8]) -> Result<Option<Vec<u32>>, AllocError> {
    let mut cells = Vec::new(alloc);
    let mut rest = words;
    for _word in 0..=words.len() {
        let Some((word, more)) = first_word(rest) else {
            return Ok(Some(cells));
        };
        let Some(cell) = one_small_number(word) else {
            return Ok(None);
        };
        cells.push(cell)?;
        rest = more;
    }
    Ok(None)
}
