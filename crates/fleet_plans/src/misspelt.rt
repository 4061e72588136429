//! Keys of a head that say nothing, and are like keys that say something.

ghost use Rattle.std.specs.Prelude.{◌≡◌, ◌≤◌, ◌-◌, [], Some, length, slice_index, slice_index_or};
ghost use Rattle.std.specs.Str.{str_eq_ignore_ascii_case};
ghost use Rattle.fleet_map.specs.Text.{lines_of, words_of};
ghost use Rattle.fleet_plans.specs.Head.{split_once};
ghost use Rattle.fleet_plans.specs.Reading.{head_by};
ghost use Rattle.fleet_plans.specs.Misspelt.{known_text, without_s, is_like, like_of, like_in, misspelt_of, misspelt_text};

use crate::form::TextForm;
use crate::head::split_once;
use crate::limit::MOST_PLAN_BYTES;
use crate::text::headed;
use fleet_map::text::{first_line, first_word};
use std::fmt;

/// A key of a head that says something.
#[derive(Clone, Copy, Debug, PartialEq, Eq)]
pub enum KnownKey {
    /// `starts`
    Starts,
    /// `goals`
    Goals,
    /// `form`
    Form,
    /// `agents`
    Agents,
    /// `makespan`
    Makespan,
    /// `soc`
    SumOfCosts,
    /// `solution`
    Solution,
}

/// A line of a head that says nothing, since its key is only like one that does.
#[derive(Clone, Copy, Debug, PartialEq, Eq)]
pub struct Misspelt {
    /// The line's number, from 1.
    pub line: u32,
    /// The key that its key is like.
    pub key: KnownKey,
}

impl KnownKey {
    /// The key as a head writes it.
    pub fn word(self) -> &'static str
        ensures { result.now ≡ known_text self }
    {
        match self {
            KnownKey::Starts => "starts",
            KnownKey::Goals => "goals",
            KnownKey::Form => "form",
            KnownKey::Agents => "agents",
            KnownKey::Makespan => "makespan",
            KnownKey::SumOfCosts => "soc",
            KnownKey::Solution => "solution",
        }
    }
}

impl fmt::Display for Misspelt {
    ghost output = { λ m. Some (misspelt_text m) };

    fn fmt<W: fmt::Write>(&self, f: &mut fmt::Formatter<W>) -> fmt::Result {
        let (line, key) = (self.line, self.key.word());
        write!(f, "line {line} is ignored, its key is like {key}")
    }
}

/// The word without an s at its end.
fn without_s(word: &[u8]) -> &[u8]
    ensures { result.now ≡ without_s word.now }
{
    match word.last() {
        Some(b's' | b'S') => &word[..word.len() - 1],
        _ => word,
    }
}

/// The first word of a text; empty if it has none.
pub(crate) fn word_of(text: &[u8]) -> &[u8]
    ensures { result.now ≡ slice_index_or (words_of text.now) 0 [] }
{
    match first_word(text) {
        Some((word, _)) => word,
        None => &[],
    }
}

/// Whether two words are the same but for small and capital letters.
fn is_same(first: &[u8], second: &[u8]) -> bool
    ensures { result ≡ str_eq_ignore_ascii_case first.now second.now }
{
    first.eq_ignore_ascii_case(second)
}

/// Whether a key is another than this one, and its first word is like it.
fn is_like(known: KnownKey, key: &[u8]) -> bool
    ensures { result ≡ is_like known key.now }
{
    let text = known.word().as_bytes();
    key != text && is_same(without_s(word_of(key)), without_s(text))
}

/// The first key that this one is like.
fn like_of(key: &[u8]) -> Option<KnownKey>
    ensures { result ≡ like_of key.now }
{
    if is_like(KnownKey::Starts, key) {
        Some(KnownKey::Starts)
    } else if is_like(KnownKey::Goals, key) {
        Some(KnownKey::Goals)
    } else if is_like(KnownKey::Form, key) {
        Some(KnownKey::Form)
    } else if is_like(KnownKey::Agents, key) {
        Some(KnownKey::Agents)
    } else if is_like(KnownKey::Makespan, key) {
        Some(KnownKey::Makespan)
    } else if is_like(KnownKey::SumOfCosts, key) {
        Some(KnownKey::SumOfCosts)
    } else if is_like(KnownKey::Solution, key) {
        Some(KnownKey::Solution)
    } else {
        None
    }
}

/// What is to be said of a line, which has this number.
fn like_in(number: u32, line: &[u8]) -> Option<Misspelt>
    ensures { result ≡ like_in number (split_once 61 line.now) }
{
    let (key, _) = split_once(line, b'=')?;
    let key = like_of(key)?;
    Some(Misspelt { line: number, key })
}

/// The first line of the head of a plan in this form that says nothing, and whose key is like one that says something.
#[tactic(auto, unfolding(crate::specs::Misspelt::misspelt_of))]
pub fn first_misspelt(form: TextForm, text: &[u8]) -> Option<Misspelt>
    requires { length text.now ≤ MOST_PLAN_BYTES }
    ensures { result ≡ misspelt_of 1 (head_by form text.now) }
{
    let mut number = 1;
    let mut rest = headed(form, text);
    while let Some((line, after)) = first_line(rest) {
        if line == b"solution=".as_slice() {
            return None;
        }
        if let Some(found) = like_in(number, line) {
            return Some(found);
        }
        number += 1;
        rest = after;
    }
    None
}
