//! What a line of the vehicles says.

ghost use Rattle.std.specs.Prelude.{◌≡◌};
ghost use Rattle.std.specs.Str.Lines.{strip_carriage_return};
ghost use Rattle.fleet_map.specs.Text.{words_of};
ghost use Rattle.fleet_script.specs.Numbers.{most32, one_in};
ghost use Rattle.live_vehicles.specs.Heard.{at_in, look_in, report_in, said_by, words_heard};

use fleet_map::text::first_word;
use fleet_script::one_small_number;

/// The most bytes that a line has.
const MOST_LINE: usize = 8192;

/// What a line of the vehicles says.
#[derive(Clone, Copy, Debug, PartialEq, Eq)]
pub enum Heard {
    /// It is blank.
    Nothing,
    /// This robot has reached the cell of its move.
    Reached(u32),
    /// This robot stands on this cell.
    At(u32, u32),
    /// How far the vehicles are.
    Look,
    /// It is none that is understood.
    Other,
}

/// A report, by the words after the first.
fn report_in(words: &[u8]) -> Heard
    ensures { result ≡ report_in (one_in most32 (words_of words.now)) }
{
    match one_small_number(words) {
        Some(robot) => Heard::Reached(robot),
        None => Heard::Other,
    }
}

/// Where a robot stands, by the words after the first.
fn at_in(words: &[u8]) -> Heard
    ensures { result ≡ at_in (words_of words.now) }
{
    let Some((robot, cell)) = first_word(words) else {
        return Heard::Other;
    };
    match (one_small_number(robot), one_small_number(cell)) {
        (Some(robot), Some(cell)) => Heard::At(robot, cell),
        _ => Heard::Other,
    }
}

/// A look, if there are no words after the first.
fn look_in(words: &[u8]) -> Heard
    ensures { result ≡ look_in (words_of words.now) }
{
    match first_word(words) {
        None => Heard::Look,
        Some(_) => Heard::Other,
    }
}

/// What the words of a line say.
fn words_heard(line: &[u8]) -> Heard
    ensures { result ≡ words_heard (words_of line.now) }
{
    let Some((word, words)) = first_word(line) else {
        return Heard::Nothing;
    };
    if word == b"reached".as_slice() {
        return report_in(words);
    }
    if word == b"at".as_slice() {
        return at_in(words);
    }
    if word == b"look".as_slice() {
        return look_in(words);
    }
    Heard::Other
}

/// The line without the carriage return at its end.
fn without_return(line: &[u8]) -> &[u8]
    ensures { result.now ≡ strip_carriage_return line.now }
{
    if !line.is_empty() && line[line.len() - 1] == b'\r' {
        return &line[..line.len() - 1];
    }
    line
}

/// What the line says, of which these are the first bytes: one more than it may have, which is 8,192.
pub fn said_by(bytes: &[u8]) -> Heard
    ensures { result ≡ said_by bytes.now }
{
    if bytes.len() > MOST_LINE {
        return Heard::Other;
    }
    words_heard(without_return(bytes))
}
