//! The part of a line that is in the reader's buffer.

ghost use Rattle.std.specs.Prelude.{◌≡◌, ◌≢◌, ◌-◌, ◌≤◌, ◌<◌, ◌++◌, ℕ, List, All, true, length, take, IfOk, vec_len};
ghost use Rattle.std.specs.Option.{OnSome};
ghost use Rattle.std.specs.Io.{StopsAt, IsEmptyOrEndsWith};
ghost use Rattle.std.specs.Io.KnownBytes.{Consumes, IsAtEnd};
ghost use Rattle.std.specs.Io.BufRead.{strip_last};

use std::alloc::Allocator;
use std::io::{self, BufRead, ErrorKind};

/// The length up to and including the first line feed, or the whole length.
fn length_through(bytes: &[u8]) -> usize
    ensures bound { result ≤ length bytes.now }
    ensures some { 0 < length bytes.now → 0 < result }
    ensures before { All (λ x. x ≢ 10) (take (result - 1) bytes.now) }
{
    let mut at = 0;
    while at < bytes.len() {
        if bytes[at] == b'\n' {
            return at + 1;
        }
        at += 1;
    }
    at
}

/// Whether a line ends with this part of it: with its line feed, or with the input where nothing is left.
fn is_last(part: &[u8]) -> bool
    requires { StopsAt part.now 10 }
    ensures more { result ≢ true → All (λ x. x ≢ 10) part.now }
    ensures done { result ≡ true → IsEmptyOrEndsWith part.now 10 }
{
    part.is_empty() || part[part.len() - 1] == b'\n'
}

/// The part without the line feed at its end.
fn before_line_feed(part: &[u8]) -> &[u8]
    ensures { result.now ≡ strip_last 10 part.now }
{
    if !part.is_empty() && part[part.len() - 1] == b'\n' {
        return &part[..part.len() - 1];
    }
    part
}

/// The first bytes of a list, or all.
fn first_of(bytes: &[u8], most: usize) -> &[u8]
    ensures { result.now ≡ take most bytes.now }
{
    if most < bytes.len() {
        &bytes[..most]
    } else {
        bytes
    }
}

/// A piece of a line, as one read gave it.
#[derive(Clone, Copy)]
pub(crate) struct Part {
    /// The number of bytes read, with the line feed where the line ends.
    pub(crate) len: usize,
    /// Whether it is the line's last piece.
    pub(crate) is_last: bool,
}

/// Reads the next piece of a line, which is what the reader has in its buffer of it, and adds it to `line` without its
/// line feed. Bytes beyond `most` are read and dropped.
pub(crate) fn read_part<R: BufRead, A: Allocator + Copy>(
    reader: &mut R,
    most: usize,
    line: &mut Vec<u8, A>,
) -> io::Result<Part>
    requires { vec_len line.old ≤ most }
    ensures part { IfOk result (λ part. (bs : List ℕ) × (length bs ≡ part.len) × StopsAt bs 10
        × Consumes (R.remaining reader.old) (R.remaining reader.new) bs
        × (part.is_last ≢ true → All (λ x. x ≢ 10) bs)
        × (part.is_last ≡ true → IsEmptyOrEndsWith bs 10)
        × (part.is_last ≡ true → length bs ≡ 0 → OnSome (R.remaining reader.old) (IsAtEnd (R.remaining reader.new)))
        × (line.new.items ≡ line.old.items ++ take (most - length line.old.items) (strip_last 10 bs))) }
    ensures short { vec_len line.new ≤ most }
{
    let available = match reader.fill_buf() {
        Ok(available) => available,
        Err(error) => {
            return if error.kind() == ErrorKind::Interrupted {
                Ok(Part {
                    len: 0,
                    is_last: false,
                })
            } else {
                Err(error)
            };
        }
    };
    let len = length_through(available);
    let part = &available[..len];
    let is_last = is_last(part);
    let room = most - line.len();
    line.extend_from_slice(first_of(before_line_feed(part), room))?;
    reader.consume(len);
    Ok(Part { len, is_last })
}
