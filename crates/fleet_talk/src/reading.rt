//! The lines of the input, one by one.

ghost use Rattle.std.specs.Prelude.{IfOk, IfErr, IfSome};
ghost use Rattle.std.specs.Io.Buffered.{reader_buffer, reader_remaining};
ghost use Rattle.fleet_talk.specs.Broken.{IsMidway};
ghost use Rattle.fleet_talk.specs.Due.{IsDone};
ghost use Rattle.fleet_talk.specs.Heard.{IsNext};

use crate::fault::TalkFault;
use crate::ground::MOST_LINE;
use crate::input_line::read_line;
use crate::pen::Pen;
use std::io::{BufReader, Read};

/// Reads the next line, and returns whether there was one. No answer of the pen may wait while the line has to be
/// waited for.
pub(crate) fn next_line<I: Read>(
    input: &mut BufReader<I>,
    pen: &Pen,
    bytes: &mut Vec<u8>,
) -> Result<bool, TalkFault>
    requires { IsDone (reader_buffer input.old) pen.now.out.items }
    ensures next { IfOk result (λ found. IfSome (reader_remaining I.remaining input.old) (λ xs. IsNext xs (reader_remaining I.remaining input.new) found bytes.new.items)) }
    ensures midway { IfErr result (λ fault. IsMidway fault) }
{
    // It is read by the condition alone.
    let _pen = pen;
    Ok(read_line(input, MOST_LINE + 1, bytes)?)
}
