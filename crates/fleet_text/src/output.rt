//! Writes a text.

ghost use Rattle.std.specs.Prelude.{◌≡◌, ◌≤◌, ◌<◌, ◌++◌, length, IsTrue};
ghost use Rattle.std.specs.Io.KnownBytes.{Appends};
ghost use Rattle.fleet_text.specs.Transfer.{AppendsPrefix};

use std::io::Write;

/// Writes the text, and says whether all of it was taken.
pub fn write_whole<W: Write>(writer: &mut W, text: &[u8]) -> bool
    ensures prefix { AppendsPrefix (W.contents writer.old) (W.contents writer.new) text.now }
    ensures whole { IsTrue result → Appends (W.contents writer.old) (W.contents writer.new) text.now }
{
    let mut written = 0;
    while written < text.len() {
        match writer.write(&text[written..]) {
            Err(_) | Ok(0) => return false,
            Ok(count) => written += count,
        }
    }
    true
}
