//! What `fleet map` answers.
//!
//! A row begins with a line of the form, the number of robots and a list of cells, which may be empty; the map follows.
//! What is printed of it is the answer, or the complaint, and the status.

use fleet_lib::{MapForm, Said, answer_map};
use fleet_map::text::{first_line, first_word, number_up_to};
use std::alloc::{AllocError, Global};
use test_kit::{Block, blocks_of};

/// The form of a word.
fn form_of(word: &[u8]) -> MapForm {
    if word == b"json".as_slice() {
        MapForm::Json
    } else if word == b"pruned".as_slice() {
        MapForm::Pruned
    } else if word == b"picture".as_slice() {
        MapForm::Picture
    } else if word == b"mended".as_slice() {
        MapForm::Mended
    } else {
        MapForm::Lines
    }
}

/// The answer to the words of a row's first line, and to its map.
fn answer_words(alloc: Global, head: &[u8], map: &[u8]) -> Result<Said, AllocError> {
    let (form, rest) = first_word(head).unwrap_or((head, head));
    let (robots, cells) = first_word(rest).unwrap_or((rest, rest));
    let robots = number_up_to(robots, 512).unwrap_or(0) as u32;
    let listed = first_word(cells).map(|_| cells);
    answer_map(alloc, form_of(form), robots, map, listed)
}

/// Prints what a row is answered.
fn tell_row(alloc: Global, block: Block<'_>, told: &mut Vec<u8>) -> Result<(), AllocError> {
    let (head, map) = first_line(block.text).unwrap_or((block.text, block.text));
    let said = answer_words(alloc, head, map)?;
    let status = said.status;
    let end = format!(in alloc; "status {status}\n")?;
    told.extend_from_slice(b"= ")?;
    told.extend_from_slice(block.name.as_bytes())?;
    told.push(b'\n')?;
    told.extend_from_slice(&said.output)?;
    told.extend_from_slice(said.complaint.as_bytes())?;
    told.extend_from_slice(end.as_bytes())
}

/// Prints what each row is answered.
pub(crate) fn tell(alloc: Global, text: &[u8], told: &mut Vec<u8>) -> Result<(), AllocError> {
    for block in &blocks_of(alloc, text, b"= ")? {
        tell_row(alloc, *block, told)?;
    }
    Ok(())
}
