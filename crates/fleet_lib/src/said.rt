//! What the program has to say, and how it is written.

ghost use Rattle.std.specs.Prelude.{◌≡◌};
ghost use Rattle.fleet_lib.specs.Said.{Failed, IsTold, said_of};

use fleet_text::{InputFault, write_whole};
use std::io::Write;

/// A text for the output, the status, and a text for the error writer.
#[derive(Debug, Drop)]
pub struct Said {
    pub output: Vec<u8>,
    pub status: u8,
    pub complaint: String,
}

/// Prints on the error writer that a file or memory failed. Returns the status.
pub fn fail<E: Write>(fault: InputFault, error: &mut E) -> u8
    ensures { Failed fault (E.contents error.old) (E.contents error.new) result }
{
    match fault {
        InputFault::File => {
            write_whole(error, b"fleet: file\n");
            3
        }
        InputFault::NoMemory => {
            write_whole(error, b"fleet: memory\n");
            7
        }
    }
}

/// Writes the answer. Returns the status: 3 if the output was not written completely.
pub fn tell<W: Write, E: Write>(said: &Said, output: &mut W, error: &mut E) -> u8
    ensures { IsTold (said_of said.now) (W.contents output.old) (W.contents output.new) (E.contents error.old) (E.contents error.new) result }
{
    if !write_whole(output, &said.output) {
        return fail(InputFault::File, error);
    }
    write_whole(error, said.complaint.as_bytes());
    said.status
}
