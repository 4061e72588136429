//! The lines of a script.

ghost use Rattle.std.specs.Prelude.{◌≡◌, ◌≤◌, length, IfOk, IfSome, Some, Ok};
ghost use Rattle.std.specs.Option.{option_map};
ghost use Rattle.fleet_map.specs.Text.{words_of};
ghost use Rattle.fleet_script.specs.Script.{order_in, withdrawal_in, post_in, ticks_in, events_of};
ghost use Rattle.fleet_script.specs.Shown.{repeated, said_on};
ghost use Rattle.fleet_script.specs.Event.{event_line_in};

use crate::numbers::{number_of_word, one_number, one_small_number, small_number};
use fleet_book::{Event, Order};
use fleet_map::text::first_word;

/// An event, and how often it happens: 1 to 1,000,000 times for ticks, else once.
#[derive(Clone, Copy, Debug, PartialEq, Eq)]
pub struct Repeat {
    pub event: Event,
    pub times: u32,
}

/// What a line after a script's head says.
#[derive(Clone, Copy, Debug, PartialEq, Eq)]
pub enum EventLine {
    /// The line is blank, or a comment.
    Nothing,
    /// The line names this event.
    Events(Repeat),
    /// The line is no event line.
    Other,
}

/// Reads one line, without its line feed, as `read_script` reads the lines after the head: `Nothing` where it is blank
/// or begins with `#`, its event and how often it happens where it is an event line, and `Other` where it is neither.
pub fn event_line(line: &[u8]) -> EventLine
    ensures { said_on result ≡ event_line_in line.now }
{
    if !line.is_empty() && line[0] == b'#' {
        return EventLine::Nothing;
    }
    let Some((key, words)) = first_word(line) else {
        return EventLine::Nothing;
    };
    match events_of_line(key, words) {
        Some(more) => EventLine::Events(more),
        None => EventLine::Other,
    }
}

/// An order: `close`, `withdraw` with a number, or `go` with robot and cell.
fn order(word: &[u8], words: &[u8]) -> Option<Order>
    ensures { result ≡ order_in word.now (words_of words.now) }
{
    let Some((first, rest)) = first_word(words) else {
        return if word == b"close".as_slice() {
            Some(Order::Close)
        } else {
            None
        };
    };
    let Some((second, rest)) = first_word(rest) else {
        return if word == b"withdraw".as_slice() {
            withdrawal(first)
        } else {
            None
        };
    };
    if first_word(rest).is_some() || word != b"go".as_slice() {
        return None;
    }
    let robot = small_number(first)?;
    let cell = small_number(second)?;
    Some(Order::Go { robot, cell })
}

/// The withdrawal of the errand with the number that the word says.
fn withdrawal(word: &[u8]) -> Option<Order>
    ensures { result ≡ withdrawal_in word.now }
{
    let number = number_of_word(word, u64::MAX)?;
    Some(Order::Withdraw { number })
}

/// A post: client and order.
fn post(words: &[u8]) -> Option<Event>
    ensures { result ≡ post_in (words_of words.now) }
{
    let (client, rest) = first_word(words)?;
    let (word, rest) = first_word(rest)?;
    let client = small_number(client)?;
    let order = order(word, rest)?;
    Some(Event::Post(client, order))
}

/// How many ticks.
fn tick_count(words: &[u8]) -> Option<u32>
    ensures exact { result ≡ ticks_in (words_of words.now) }
    ensures some { IfSome result (λ n. 1 ≤ n) }
{
    if first_word(words).is_none() {
        return Some(1);
    }
    match one_number(words, 1_000_000) {
        Some(count) if count >= 1 => Some(count as u32),
        _ => None,
    }
}

/// The events of an event line, by its first word and the others.
pub(crate) fn events_of_line(key: &[u8], words: &[u8]) -> Option<Repeat>
    ensures exact { option_map repeated result ≡ events_of key.now (words_of words.now) }
    ensures some { IfSome result (λ more. 1 ≤ more.times) }
{
    let mut times = 1;
    let event = if key == b"post".as_slice() {
        post(words)?
    } else if key == b"take".as_slice() {
        Event::Take(one_small_number(words)?)
    } else if key == b"tick".as_slice() {
        times = tick_count(words)?;
        Event::Tick
    } else if key == b"give".as_slice() {
        Event::Give(one_small_number(words)?)
    } else if key == b"collect".as_slice() {
        Event::Collect(one_small_number(words)?)
    } else if key == b"shut".as_slice() {
        Event::Shut(one_small_number(words)?)
    } else {
        return None;
    };
    Some(Repeat { event, times })
}
