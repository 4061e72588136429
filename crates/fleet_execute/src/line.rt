//! Lines of the input.

ghost use Rattle.std.specs.Prelude.{◌≡◌, IfOk, IfErr, IfSome};
ghost use Rattle.std.specs.Str.Lines.{strip_carriage_return};
ghost use Rattle.fleet_map.specs.Text.{words_of};
ghost use Rattle.fleet_script.specs.Numbers.{most32, one_in};
ghost use Rattle.fleet_talk.specs.Heard.{IsNext};
ghost use Rattle.fleet_execute.specs.Heard.{report_in, said_by, words_heard};
ghost use Rattle.fleet_execute.specs.inside.Held.{IsUnread};

use crate::fault::HoldFault;
use crate::heard::Heard;
use fleet_map::text::first_word;
use fleet_script::one_small_number;
use fleet_talk::{LineFault, MOST_LINE, read_line};
use std::io::BufRead;

/// A report, by the words after the first.
fn report_in(words: &[u8]) -> Heard
    ensures { result ≡ report_in (one_in most32 (words_of words.now)) }
{
    match one_small_number(words) {
        Some(robot) => Heard::Reached(robot),
        None => Heard::Other,
    }
}

/// What the words of a line say.
fn words_heard(line: &[u8]) -> Heard
    ensures { result ≡ words_heard (words_of line.now) }
{
    let Some((word, words)) = first_word(line) else {
        return Heard::Nothing;
    };
    if word == b"reached".as_slice() {
        return report_in(words);
    }
    Heard::Other
}

/// The line without the carriage return at its end.
fn without_return(line: &[u8]) -> &[u8]
    ensures { result.now ≡ strip_carriage_return line.now }
{
    if !line.is_empty() && line[line.len() - 1] == b'\r' {
        return &line[..line.len() - 1];
    }
    line
}

/// What the line says, of which these are the first bytes.
pub(crate) fn said_by(bytes: &[u8]) -> Heard
    ensures { result ≡ said_by bytes.now }
{
    if bytes.len() > MOST_LINE {
        return Heard::Other;
    }
    words_heard(without_return(bytes))
}

/// Reads the next line, and says whether there was one.
pub(crate) fn next_line<I: BufRead>(input: &mut I, line: &mut Vec<u8>) -> Result<bool, HoldFault>
    ensures next { IfOk result (λ found. IfSome (I.remaining input.old) (λ xs. IsNext xs (I.remaining input.new) found line.new.items)) }
    ensures unread { IfErr result (λ fault. IsUnread fault) }
{
    match read_line(input, MOST_LINE + 1, line) {
        Ok(found) => Ok(found),
        Err(LineFault::NoMemory) => Err(HoldFault::NoMemory),
        Err(LineFault::Read) => Err(HoldFault::Input),
    }
}
