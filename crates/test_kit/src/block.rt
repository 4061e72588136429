//! Blocks of a text of test cases, which lines with a mark begin.

use std::alloc::{AllocError, Global};

/// What a line that begins with a mark says after it, and the text up to the next such line.
#[derive(Clone, Copy, Debug)]
pub struct Block<'a> {
    /// What the line says after its mark.
    pub name: &'a str,
    /// The lines after it.
    pub text: &'a [u8],
}

/// The first line without its line feed, and what follows.
pub fn cut_line(text: &[u8]) -> (&[u8], &[u8]) {
    match text.iter().position(|byte| *byte == b'\n') {
        Some(end) if end < text.len() => (&text[..end], &text[end + 1..]),
        _ => (text, &[]),
    }
}

/// The text before the first line that begins so, that line after its beginning, and the text after the line.
pub fn split_at<'a>(text: &'a [u8], start: &[u8]) -> Option<(&'a [u8], &'a [u8], &'a [u8])> {
    let mut rest = text;
    for _line in 0..text.len() {
        let (line, after) = cut_line(rest);
        if let Some(tail) = line.strip_prefix(start) {
            let before = text.len().saturating_sub(rest.len());
            return Some((&text[..before.min(text.len())], tail, after));
        }
        rest = after;
    }
    None
}

/// The first block, and the text after it.
fn next_block<'a>(text: &'a [u8], mark: &[u8]) -> Option<(Block<'a>, &'a [u8])> {
    let (_, name, behind) = split_at(text, mark)?;
    let block = match split_at(behind, mark) {
        Some((block, _, _)) => block,
        None => behind,
    };
    let name = str::from_utf8(name).ok()?;
    Some((
        Block { name, text: block },
        &behind[block.len().min(behind.len())..],
    ))
}

/// The blocks of a text that lines with this mark begin.
pub fn blocks_of<'a>(
    alloc: Global,
    text: &'a [u8],
    mark: &[u8],
) -> Result<Vec<Block<'a>>, AllocError> {
    let mut blocks = Vec::new(alloc);
    let mut rest = text;
    for _block in 0..text.len() {
        let Some((block, after)) = next_block(rest, mark) else {
            break;
        };
        blocks.push(block)?;
        rest = after;
    }
    Ok(blocks)
}
