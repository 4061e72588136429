//! What a line asks of a fleet in real time.

ghost use Rattle.std.specs.Prelude.{◌≡◌};
ghost use Rattle.fleet_map.specs.Text.{words_of};
ghost use Rattle.fleet_script.specs.Event.{said_in};
ghost use Rattle.live_parts.specs.Demand.{lone_asked, as_asked, as_said, client_in, demand_of, event_asked, other_asked, post_as, seq_in, session_asked, since_asked, watch_asked, where_granted};

use fleet_book::{Event, Order};
use fleet_map::text::{first_word, number_up_to};
use fleet_script::{EventLine, event_line};
use fleet_talk::{Asked, Line};

/// What the keeper is asked for.
#[derive(Clone, Copy, Debug, PartialEq, Eq)]
pub enum Wanted {
    Shut(u32),
    Look,
    /// To list a client's open errands.
    Open(u32),
    Chapter,
    Tick(u32),
    /// To judge what was posted; it has no answer of its own.
    Settle,
}

/// An order that counts only as the one of this number of its client.
#[derive(Clone, Copy, Debug, PartialEq, Eq)]
pub struct Numbered {
    pub number: u64,
    pub client: u32,
    pub order: Order,
}

/// What a line asks.
#[derive(Clone, Copy, Debug, PartialEq, Eq)]
pub enum Demand {
    /// Nothing: it is blank, or a comment.
    Nothing,
    Post(u32, Order),
    /// A post of this client to a cell to which posts are refused.
    NoRoom(u32),
    PostAs(Numbered),
    /// A client's open errands.
    Open(u32),
    /// How far the fleet is with a client.
    Session(u32),
    /// What a client was told after the notice of this number.
    Since(u32, u64),
    /// What the fleet is.
    Hello,
    /// How each robot stands.
    Robots,
    Ask(Wanted),
    Watch(bool),
    Quit,
    /// It is no line of this conversation.
    Bad,
}

/// What a conversation may ask for.
#[derive(Clone, Copy, Debug, PartialEq, Eq)]
pub struct Rights {
    /// Whether it shuts robots, hands out chapters, watches, and ends the fleet.
    pub is_operator: bool,
    /// Whether it makes ticks.
    pub ticks: bool,
}

/// The demand if the conversation may make it, else a bad line.
fn where_granted(granted: bool, demand: Demand) -> Demand
    ensures { result ≡ where_granted granted demand }
{
    if granted { demand } else { Demand::Bad }
}

/// What an event line asks.
fn event_asked(rights: Rights, event: Event, times: u32) -> Demand
    ensures { result ≡ event_asked rights event times }
{
    match event {
        Event::Post(client, order) => Demand::Post(client, order),
        Event::Tick => where_granted(rights.ticks, Demand::Ask(Wanted::Tick(times))),
        Event::Shut(robot) => where_granted(rights.is_operator, Demand::Ask(Wanted::Shut(robot))),
        Event::Take(_) | Event::Give(_) | Event::Collect(_) => Demand::Bad,
    }
}

/// Whether to watch, where a line says that.
fn watch_asked(line: &[u8]) -> Demand
    ensures { result ≡ watch_asked (words_of line.now) }
{
    let Some((word, rest)) = first_word(line) else {
        return Demand::Bad;
    };
    let Some((state, rest)) = first_word(rest) else {
        return Demand::Bad;
    };
    if first_word(rest).is_some() {
        return Demand::Bad;
    }
    if word == b"watch".as_slice() {
        if state == b"on".as_slice() {
            Demand::Watch(true)
        } else if state == b"off".as_slice() {
            Demand::Watch(false)
        } else {
            Demand::Bad
        }
    } else {
        Demand::Bad
    }
}

/// The client that a word numbers.
fn client_in(word: &[u8]) -> Option<u32>
    ensures { result ≡ client_in word.now }
{
    let number = number_up_to(word, 1 << 32)?;
    if number < 1 << 32 {
        Some(number as u32)
    } else {
        None
    }
}

/// The number of a notice or of an order that a word says, or more than any has.
fn seq_in(word: &[u8]) -> Option<u64>
    ensures { result ≡ seq_in word.now }
{
    number_up_to(word, 1 << 58)
}

/// What a line asks whose first word is `session`, by the words after it.
fn session_asked(rest: &[u8]) -> Demand
    ensures { result ≡ session_asked (words_of rest.now) }
{
    let Some((client, rest)) = first_word(rest) else {
        return Demand::Bad;
    };
    if first_word(rest).is_some() {
        return Demand::Bad;
    }
    match client_in(client) {
        Some(client) => Demand::Session(client),
        None => Demand::Bad,
    }
}

/// What a line asks whose first word is `since`, by the words after it.
fn since_asked(rest: &[u8]) -> Demand
    ensures { result ≡ since_asked (words_of rest.now) }
{
    let Some((client, rest)) = first_word(rest) else {
        return Demand::Bad;
    };
    let Some((seq, rest)) = first_word(rest) else {
        return Demand::Bad;
    };
    if first_word(rest).is_some() {
        return Demand::Bad;
    }
    match (client_in(client), seq_in(seq)) {
        (Some(client), Some(seq)) => Demand::Since(client, seq),
        _ => Demand::Bad,
    }
}

/// What an event asks that counts only as the order of this number.
fn post_as(number: u64, event: Event) -> Demand
    ensures { result ≡ post_as number event }
{
    match event {
        Event::Post(client, order) => Demand::PostAs(Numbered {
            number,
            client,
            order,
        }),
        Event::Take(_) | Event::Tick | Event::Give(_) | Event::Collect(_) | Event::Shut(_) =>
            Demand::Bad,
    }
}

/// What an event line asks that counts only as the order of this number.
fn as_said(number: u64, line: &[u8]) -> Demand
    ensures { result ≡ as_said number (said_in (words_of line.now)) }
{
    match event_line(line) {
        EventLine::Events(more) => post_as(number, more.event),
        EventLine::Nothing | EventLine::Other => Demand::Bad,
    }
}

/// What a line asks whose first word is `as`, by the words after it: a number, and a post.
fn as_asked(rest: &[u8]) -> Demand
    ensures { result ≡ as_asked (words_of rest.now) }
{
    let Some((number, line)) = first_word(rest) else {
        return Demand::Bad;
    };
    match seq_in(number) {
        Some(number) => as_said(number, line),
        None => Demand::Bad,
    }
}

/// What a line asks that is one word.
fn lone_asked(rest: &[u8], asked: Demand) -> Demand
    ensures { result ≡ lone_asked (words_of rest.now) asked }
{
    if first_word(rest).is_some() {
        return Demand::Bad;
    }
    asked
}

/// What a line asks that asks nothing of a fleet that stands still.
fn other_asked(rights: Rights, line: &[u8]) -> Demand
    ensures { result ≡ other_asked rights (words_of line.now) }
{
    let Some((word, rest)) = first_word(line) else {
        return Demand::Bad;
    };
    if word == b"session".as_slice() {
        session_asked(rest)
    } else if word == b"since".as_slice() {
        since_asked(rest)
    } else if word == b"as".as_slice() {
        as_asked(rest)
    } else if word == b"hello".as_slice() {
        lone_asked(rest, Demand::Hello)
    } else if word == b"robots".as_slice() {
        lone_asked(rest, Demand::Robots)
    } else {
        where_granted(rights.is_operator, watch_asked(line))
    }
}

/// What a line asks.
pub fn demand_of(rights: Rights, line: Line<'_>) -> Demand
    ensures { result ≡ demand_of rights line.entry.asked line.entry.told.now }
{
    match line.asked {
        Asked::Nothing => Demand::Nothing,
        Asked::Events(more) => event_asked(rights, more.event, more.times),
        Asked::Look => Demand::Ask(Wanted::Look),
        Asked::Open(client) => Demand::Open(client),
        Asked::Chapter => where_granted(rights.is_operator, Demand::Ask(Wanted::Chapter)),
        Asked::Quit => where_granted(rights.is_operator, Demand::Quit),
        Asked::Other => other_asked(rights, line.told),
        Asked::Long => Demand::Bad,
        Asked::NoRoom(client) => Demand::NoRoom(client),
    }
}
