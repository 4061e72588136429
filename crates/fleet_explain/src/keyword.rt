//! The words that a script's lines begin with.

ghost use Rattle.std.specs.Prelude.{◌≡◌};
ghost use Rattle.fleet_explain.specs.Keywords.{header_named, event_named, keyword_named, is_event, name_of};

use fleet_book::Limit;

/// The word that a line of a script begins with.
#[derive(Clone, Copy, Debug, PartialEq, Eq)]
pub enum Keyword {
    Robots,
    Clients,
    Ties,
    Turns,
    Limit(Limit),
    Post,
    Take,
    Give,
    Collect,
    Tick,
    Shut,
}

/// The word that a header line begins with.
fn header_named(word: &[u8]) -> Option<Keyword>
    ensures { result ≡ header_named word.now }
{
    if word == b"robots".as_slice() {
        Some(Keyword::Robots)
    } else if word == b"clients".as_slice() {
        Some(Keyword::Clients)
    } else if word == b"ties".as_slice() {
        Some(Keyword::Ties)
    } else if word == b"turns".as_slice() {
        Some(Keyword::Turns)
    } else {
        match Limit::named(word) {
            Some(limit) => Some(Keyword::Limit(limit)),
            None => None,
        }
    }
}

/// The word that an event line begins with.
fn event_named(word: &[u8]) -> Option<Keyword>
    ensures { result ≡ event_named word.now }
{
    if word == b"post".as_slice() {
        Some(Keyword::Post)
    } else if word == b"take".as_slice() {
        Some(Keyword::Take)
    } else if word == b"give".as_slice() {
        Some(Keyword::Give)
    } else if word == b"collect".as_slice() {
        Some(Keyword::Collect)
    } else if word == b"tick".as_slice() {
        Some(Keyword::Tick)
    } else if word == b"shut".as_slice() {
        Some(Keyword::Shut)
    } else {
        None
    }
}

/// The keyword that the word is.
pub(crate) fn keyword_named(word: &[u8]) -> Option<Keyword>
    ensures { result ≡ keyword_named word.now }
{
    match header_named(word) {
        Some(keyword) => Some(keyword),
        None => event_named(word),
    }
}

impl Keyword {
    /// Whether its line is an event line.
    pub(crate) fn is_event(self) -> bool
        ensures { result ≡ is_event self }
    {
        match self {
            Keyword::Post
            | Keyword::Take
            | Keyword::Give
            | Keyword::Collect
            | Keyword::Tick
            | Keyword::Shut => true,
            _ => false,
        }
    }

    /// The word.
    pub(crate) fn name(self) -> &'static str
        ensures { result.now ≡ name_of self }
    {
        match self {
            Keyword::Robots => "robots",
            Keyword::Clients => "clients",
            Keyword::Ties => "ties",
            Keyword::Turns => "turns",
            Keyword::Limit(limit) => limit.name(),
            Keyword::Post => "post",
            Keyword::Take => "take",
            Keyword::Give => "give",
            Keyword::Collect => "collect",
            Keyword::Tick => "tick",
            Keyword::Shut => "shut",
        }
    }
}
