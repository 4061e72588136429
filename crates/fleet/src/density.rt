//! How much memory the value of a text in JSON takes.

/// The memory of a value is at most this many times the length of its text, and `FREE` bytes more.
const MOST_TIMES: usize = 32;

const FREE: usize = 1_048_576;

/// What the parts of a value take while it is read, in bytes: an array that has items (room for four), an object, a
/// string, and what comes after a comma (room in a list that doubles).
const ARRAY: usize = 144;

const OBJECT: usize = 800;

const STRING: usize = 32;

const NEXT: usize = 48;

/// Where in its text a value is read.
#[derive(Clone, Copy)]
enum Place {
    Outside,
    InString,
    /// After a backslash in a string.
    Escaped,
}

/// What is known of a value from the bytes read so far.
#[derive(Clone, Copy)]
struct Tally {
    place: Place,
    /// Whether the last byte that is no white space opened an array.
    is_open: bool,
    bytes: usize,
}

/// Whether a byte is white space of JSON.
fn is_space(byte: u8) -> bool {
    matches!(byte, b' ' | b'\t' | b'\n' | b'\r')
}

impl Tally {
    const NONE: Tally = Tally {
        place: Place::Outside,
        is_open: false,
        bytes: 0,
    };

    /// Reads one byte outside of strings. An empty array takes nothing.
    fn read_outside(&mut self, byte: u8) {
        if is_space(byte) {
            return;
        }
        let was_open = self.is_open;
        self.is_open = byte == b'[';
        match byte {
            b'[' => self.bytes = self.bytes.saturating_add(ARRAY),
            b']' if was_open => self.bytes = self.bytes.saturating_sub(ARRAY),
            b'{' => self.bytes = self.bytes.saturating_add(OBJECT),
            b',' => self.bytes = self.bytes.saturating_add(NEXT),
            b'"' => {
                self.bytes = self.bytes.saturating_add(STRING);
                self.place = Place::InString;
            }
            _ => {}
        }
    }

    /// Reads one byte.
    fn read(&mut self, byte: u8) {
        match self.place {
            Place::Outside => self.read_outside(byte),
            Place::Escaped => self.place = Place::InString,
            Place::InString => match byte {
                b'\\' => self.place = Place::Escaped,
                b'"' => self.place = Place::Outside,
                _ => {}
            },
        }
    }
}

/// Whether the first byte that is no white space opens an object or an array.
fn begins_as_json(text: &[u8]) -> bool {
    for byte in text {
        if !is_space(*byte) {
            return matches!(*byte, b'{' | b'[');
        }
    }
    false
}

/// Whether a text is JSON whose value takes more than 32 times its length and 1 MiB. No trace that a program of this
/// repository writes does: in a long one each entry takes less.
pub(crate) fn is_dense(text: &[u8]) -> bool {
    if !begins_as_json(text) {
        return false;
    }
    let mut tally = Tally::NONE;
    for byte in text {
        tally.read(*byte);
    }
    tally.bytes > text.len().saturating_mul(MOST_TIMES).saturating_add(FREE)
}
