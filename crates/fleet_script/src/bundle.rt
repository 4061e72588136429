//! Bundles: a map and a script in one text.

ghost use Rattle.std.specs.Prelude.{◌≡◌, ◌+◌, ◌≤◌, ◌<◌, length, codes, IfOk, IfErr, IsTrue, ◌↔◌};
ghost use Rattle.fleet_map.specs.Text.{lines_of};
ghost use Rattle.fleet_script.specs.Bundle.{HasNoScript, IsBundle};

use fleet_map::text::first_line;

/// Whether the line is exactly `script`.
fn is_script(line: &[u8]) -> bool
    ensures { IsTrue result ↔ (line.now ≡ codes "script") }
{
    line == b"script".as_slice()
}

/// The map and the script of a bundle; if no line is `script`, the number of the line after the last one.
pub fn split_bundle(bytes: &[u8]) -> Result<(&[u8], &[u8]), u32>
    requires { length bytes.now ≤ 16777216 }
    ensures found { IfOk result (λ x. IsBundle bytes.now x.0.now x.1.now) }
    ensures short { IfOk result (λ x. length x.1.now ≤ 16777216) }
    ensures absent { IfErr result (λ line. HasNoScript (lines_of bytes.now)) }
    ensures behind { IfErr result (λ line. line ≡ length (lines_of bytes.now) + 1) }
{
    let mut number = 1;
    let mut rest = bytes;
    while let Some((line, after)) = first_line(rest) {
        if is_script(line) {
            return Ok((&bytes[..bytes.len() - rest.len()], after));
        }
        number += 1;
        rest = after;
    }
    Err(number)
}
