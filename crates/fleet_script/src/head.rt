//! The limits that a script's head gives.

ghost use Rattle.std.specs.Prelude.{◌≡◌, Some};
ghost use Rattle.std.specs.Option.{option_map};
ghost use Rattle.fleet_map.specs.Text.{words_of};
ghost use Rattle.fleet_script.specs.Script.{ties_in, turns_in, if_new, with_limit, limits_of, limits_over};

use crate::numbers::{one_number, one_small_number};
use fleet_book::{Limit, Limits};
use fleet_map::text::first_word;

/// The limits that header lines gave so far.
#[derive(Clone, Copy, Debug, PartialEq, Eq)]
pub struct GivenLimits {
    pub lane: Option<u32>,
    pub outlet: Option<u32>,
    pub queue: Option<u32>,
    pub mailbox: Option<u32>,
    pub life: Option<u64>,
    pub orders: Option<u64>,
    pub clock: Option<u64>,
    pub chapter: Option<u32>,
    pub chapters: Option<u32>,
}

/// Which closures rank the cells, by the words of a line: `true` for the southern ones.
pub(crate) fn is_south(words: &[u8]) -> Option<bool>
    ensures { result ≡ ties_in (words_of words.now) }
{
    let (word, rest) = first_word(words)?;
    if first_word(rest).is_some() {
        return None;
    }
    if word == b"plain".as_slice() {
        Some(false)
    } else if word == b"south".as_slice() {
        Some(true)
    } else {
        None
    }
}

/// How many turns each ticker makes in a serve, as the words say.
pub(crate) fn turn_count(words: &[u8]) -> Option<u32>
    ensures { result ≡ turns_in (words_of words.now) }
{
    match one_number(words, 1_000_000) {
        Some(count) if count >= 1 => Some(count as u32),
        _ => None,
    }
}

/// Takes what a header line says, unless an earlier line said it.
pub(crate) fn set_once<T: Drop>(place: &mut Option<T>, said: Option<T>) -> Option<()>
    ensures set { option_map (λ done. place.new) result ≡ option_map Some (if_new place.old said) }
    ensures kept { result ≡ None → place.new ≡ place.old }
{
    let said = said?;
    match place {
        Some(_) => None,
        None => {
            *place = Some(said);
            Some(())
        }
    }
}

impl GivenLimits {
    /// No limit is given.
    pub const NONE: GivenLimits = GivenLimits {
        lane: None,
        outlet: None,
        queue: None,
        mailbox: None,
        life: None,
        orders: None,
        clock: None,
        chapter: None,
        chapters: None,
    };

    /// Takes one more limit, which these words give.
    pub(crate) fn set(&mut self, limit: Limit, words: &[u8]) -> Option<()>
        ensures set { option_map (λ done. self.new) result ≡ with_limit self.old limit (words_of words.now) }
        ensures kept { result ≡ None → self.new ≡ self.old }
    {
        match limit {
            Limit::Lane => set_once(&mut self.lane, one_small_number(words)),
            Limit::Outlet => set_once(&mut self.outlet, one_small_number(words)),
            Limit::Queue => set_once(&mut self.queue, one_small_number(words)),
            Limit::Mailbox => set_once(&mut self.mailbox, one_small_number(words)),
            Limit::Life => set_once(&mut self.life, one_number(words, u64::MAX)),
            Limit::Orders => set_once(&mut self.orders, one_number(words, u64::MAX)),
            Limit::Clock => set_once(&mut self.clock, one_number(words, u64::MAX)),
            Limit::Chapter => set_once(&mut self.chapter, one_small_number(words)),
            Limit::Chapters => set_once(&mut self.chapters, one_small_number(words)),
        }
    }

    /// The given limits, and these for the others.
    pub fn limits_over(self, others: Limits) -> Limits
        ensures { result ≡ limits_over others self }
    {
        Limits {
            lane: self.lane.unwrap_or(others.lane),
            outlet: self.outlet.unwrap_or(others.outlet),
            queue: self.queue.unwrap_or(others.queue),
            mailbox: self.mailbox.unwrap_or(others.mailbox),
            life: self.life.unwrap_or(others.life),
            orders: self.orders.unwrap_or(others.orders),
            clock: self.clock.unwrap_or(others.clock),
            chapter: self.chapter.unwrap_or(others.chapter),
            chapters: self.chapters.unwrap_or(others.chapters),
        }
    }

    /// The given limits, and a script's defaults for the others.
    pub(crate) fn limits(self) -> Limits
        ensures { result ≡ limits_of self }
    {
        self.limits_over(Limits::DEFAULT)
    }
}
