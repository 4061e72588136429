//! What is told of a fault, in one sentence.

ghost use Rattle.std.specs.Prelude.{◌≡◌, ◌+◌, ◌≤◌, ◌++◌, List, ℕ, length};
ghost use Rattle.std.specs.List.{flat_map};
ghost use Rattle.fleet_c.specs.Sentences.{piece, message_of, over, ended};

use crate::fault::Fault;
use crate::sentences::sentence_of;
use itoa::Buffer;

/// Writes these bytes after a text of `at` bytes, as far as there is room. Returns how many bytes the text has then.
fn write(bytes: &[u8], text: &mut [u8], at: usize) -> usize
    requires { at + length bytes.now ≤ 5000 }
    ensures count { result ≡ at + length bytes.now }
    ensures text { (before told : List ℕ) → text.old ≡ over before told → at ≡ length told → text.new ≡ over before (told ++ bytes.now) }
{
    for index in 0..bytes.len() {
        let place = at + index;
        if place < text.len() {
            text[place] = bytes[index];
        }
    }
    at + bytes.len()
}

/// Writes a byte of a sentence, or the number that it stands for.
fn write_piece(fault: &Fault, byte: u8, text: &mut [u8], at: usize) -> usize
    requires { at ≤ 4800 }
    ensures count { result ≡ at + length (piece fault.now byte) }
    ensures few { length (piece fault.now byte) ≤ 40 }
    ensures text { (before told : List ℕ) → text.old ≡ over before told → at ≡ length told → text.new ≡ over before (told ++ piece fault.now byte) }
{
    let mut buffer = Buffer::new();
    match byte {
        b'#' => write(buffer.format(fault.first).as_bytes(), text, at),
        b'%' => write(buffer.format(fault.second).as_bytes(), text, at),
        _ => write(&[byte], text, at),
    }
}

/// Writes the sentence.
fn write_all(fault: &Fault, sentence: &[u8], text: &mut [u8]) -> usize
    requires { length sentence.now ≤ 120 }
    ensures count { result ≡ length (flat_map (piece fault.now) sentence.now) }
    ensures text { text.new ≡ over text.old (flat_map (piece fault.now) sentence.now) }
{
    let mut at = 0;
    for index in 0..sentence.len() {
        at = write_piece(fault, sentence[index], text, at);
    }
    at
}

/// Writes what is told of a fault, in ASCII and with a zero after it; of a longer text, as much as there is room for.
/// Returns how many bytes the whole text has, without the zero.
#[unsafe(no_mangle)]
pub extern "C" fn nashirudder_message(fault: &Fault, text: &mut [u8]) -> usize
    ensures length { result ≡ length (message_of fault.now) }
    ensures text { text.new ≡ ended text.old (message_of fault.now) }
{
    let length = write_all(fault, sentence_of(fault.code).as_bytes(), text);
    if !text.is_empty() {
        let end = length.min(text.len() - 1);
        text[end] = 0;
    }
    length
}
