//! A text in pieces, of which each may repeat: so that a text may be longer than memory.

ghost use Rattle.std.specs.Prelude.{◌≡◌, IfOk, OnOk, IsTrue, string_bytes, ◌++◌};
ghost use Rattle.std.specs.Io.KnownBytes.{Appends};
ghost use Rattle.fleet_text.specs.Pieces.{repeated, pieces_text};
ghost use Rattle.fleet_text.specs.Transfer.{AppendsPrefix};

use crate::output::write_whole;
use std::alloc::{AllocError, Global};
use std::io::Write;

/// A text, and how often it comes one after another.
#[derive(Drop)]
pub struct Piece {
    pub text: String,
    pub times: u32,
}

/// A text as one piece.
pub fn whole(alloc: Global, text: String) -> Result<Vec<Piece>, AllocError>
    ensures { IfOk result (λ pieces. pieces_text pieces.items ≡ string_bytes text) }
{
    let mut pieces = Vec::with_capacity(alloc, 1)?;
    pieces.push_reserved(Piece { text, times: 1 });
    Ok(pieces)
}

/// Writes a text this many times, and says whether all of it was taken.
fn write_times<W: Write>(writer: &mut W, text: &[u8], times: u32) -> bool
    ensures prefix { AppendsPrefix (W.contents writer.old) (W.contents writer.new) (repeated times text.now) }
    ensures whole { IsTrue result → Appends (W.contents writer.old) (W.contents writer.new) (repeated times text.now) }
{
    for written in 0..times {
        let _ = written;
        if !write_whole(writer, text) {
            return false;
        }
    }
    true
}

/// Writes the pieces, each as often as it says, and says whether all of them were taken.
pub fn write_pieces<W: Write>(writer: &mut W, pieces: &[Piece]) -> bool
    ensures prefix { AppendsPrefix (W.contents writer.old) (W.contents writer.new) (pieces_text pieces.now) }
    ensures whole { IsTrue result → Appends (W.contents writer.old) (W.contents writer.new) (pieces_text pieces.now) }
{
    for at in 0..pieces.len() {
        let piece = &pieces[at];
        if !write_times(writer, piece.text.as_bytes(), piece.times) {
            return false;
        }
    }
    true
}
