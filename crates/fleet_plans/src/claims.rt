//! What the head of a plan's text says of the plan.

ghost use Rattle.std.specs.Prelude.{◌≡◌, ◌≤◌, Some, length};
ghost use Rattle.fleet_map.specs.Text.{lines_of};
ghost use Rattle.fleet_plans.specs.Head.{split_once};
ghost use Rattle.fleet_plans.specs.Claims.{key_text, head_text, number_at, said, differs, exceeds, is_unlike_makespan, unmet};

use crate::head::split_once;
use crate::limit::MOST_PLAN_BYTES;
use crate::report::PlanReport;
use fleet_map::text::{first_line, number_up_to};
use std::fmt;

/// A number from which on numbers in a head are alike: no text has a plan with such a figure.
const MOST: u64 = 1 << 59;

/// A key of a head whose number is compared with the plan.
#[derive(Clone, Copy, Debug, PartialEq, Eq)]
pub enum HeadKey {
    /// `agents`: the number of robots.
    Agents,
    /// `makespan`: the number of steps, or the greatest cost.
    Makespan,
    /// `soc`: the sum of the costs.
    SumOfCosts,
}

/// What the head of a text says and is not so.
#[derive(Clone, Copy, Debug, PartialEq, Eq)]
pub enum HeadFault {
    /// The number under this key is another one.
    Unlike(HeadKey),
    /// The plan ends before its makespan. This is the number of the line after the last.
    Cut(u32),
}

impl HeadKey {
    /// The key as a head writes it.
    pub fn word(self) -> &'static str
        ensures { result.now ≡ key_text self }
    {
        match self {
            HeadKey::Agents => "agents",
            HeadKey::Makespan => "makespan",
            HeadKey::SumOfCosts => "soc",
        }
    }
}

impl fmt::Display for HeadFault {
    ghost output = { λ f. Some (head_text f) };

    fn fmt<W: fmt::Write>(&self, f: &mut fmt::Formatter<W>) -> fmt::Result {
        match self {
            HeadFault::Unlike(key) => f.write_str(key.word()),
            HeadFault::Cut(line) => write!(f, "{line} cut"),
        }
    }
}

/// The number of a line KEY=NUMBER.
fn number_at(key: HeadKey, line: &[u8]) -> Option<u64>
    ensures { result ≡ number_at key (split_once 61 line.now) }
{
    let (name, value) = split_once(line, b'=')?;
    if name == key.word().as_bytes() {
        number_up_to(value, MOST)
    } else {
        None
    }
}

/// The number of the first line KEY=NUMBER of a head.
#[tactic(auto, unfolding(crate::specs::Claims::said))]
fn said(key: HeadKey, text: &[u8]) -> Option<u64>
    ensures { result ≡ said key (lines_of text.now) }
{
    let mut rest = text;
    while let Some((line, after)) = first_line(rest) {
        if line == b"solution=".as_slice() {
            return None;
        }
        if let Some(number) = number_at(key, line) {
            return Some(number);
        }
        rest = after;
    }
    None
}

/// Whether another number is said.
fn differs(said: Option<u64>, number: u64) -> bool
    ensures { result ≡ differs said number }
{
    match said {
        Some(found) => found != number,
        None => false,
    }
}

/// Whether a greater number is said.
fn exceeds(said: Option<u64>, number: u64) -> bool
    ensures { result ≡ exceeds said number }
{
    match said {
        Some(found) => found > number,
        None => false,
    }
}

/// Whether a makespan is said that is neither the number of steps nor the greatest cost.
fn is_unlike_makespan(said: Option<u64>, report: PlanReport) -> bool
    ensures { result ≡ is_unlike_makespan said report }
{
    differs(said, u64::from(report.steps)) && differs(said, u64::from(report.makespan))
}

/// The number of lines of a text.
pub(crate) fn line_count(text: &[u8]) -> u32
    requires { length text.now ≤ MOST_PLAN_BYTES }
    ensures exact { result ≡ length (lines_of text.now) }
    ensures few { result ≤ MOST_PLAN_BYTES }
{
    let mut count = 0;
    let mut rest = text;
    while let Some((_line, after)) = first_line(rest) {
        count += 1;
        rest = after;
    }
    count
}

/// The first that the head of a text says and that is not so of a plan with these figures.
pub(crate) fn unmet(text: &[u8], report: PlanReport) -> Option<HeadFault>
    requires { length text.now ≤ MOST_PLAN_BYTES }
    ensures { result ≡ unmet (lines_of text.now) report }
{
    let makespan = said(HeadKey::Makespan, text);
    if differs(said(HeadKey::Agents, text), u64::from(report.robots)) {
        return Some(HeadFault::Unlike(HeadKey::Agents));
    }
    if exceeds(makespan, u64::from(report.steps)) {
        return Some(HeadFault::Cut(line_count(text) + 1));
    }
    if is_unlike_makespan(makespan, report) {
        return Some(HeadFault::Unlike(HeadKey::Makespan));
    }
    if differs(said(HeadKey::SumOfCosts, text), report.sum_of_costs) {
        return Some(HeadFault::Unlike(HeadKey::SumOfCosts));
    }
    None
}
