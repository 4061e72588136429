//! Whether what a row does was refused memory, and had no effect then.

use crate::refusals::stage::Stage;
use std::alloc::{AllocError, Global};
use std::fmt::Write;

/// Whether something was refused memory, and always had no effect then.
#[derive(Clone, Copy)]
pub(crate) struct Tally {
    refused: bool,
    same: bool,
}

impl Tally {
    /// Not refused yet.
    pub(crate) const NONE: Tally = Tally {
        refused: false,
        same: true,
    };

    /// Notes a refusal.
    pub(crate) fn note(&mut self, same: bool) {
        self.refused = true;
        self.same &= same;
    }

    /// A line of what was answered in the end, with this tally.
    pub(crate) fn tell(&self, told: &mut String, answer: &str) -> Result<(), AllocError> {
        let end = match (self.refused, self.same) {
            (_, false) => "DIFFERS",
            (false, true) if takes_memory(answer) => "NEVER REFUSED",
            (_, true) => "same",
        };
        writeln!(told, "{answer}; {end}")
    }
}

/// Whether what answered this takes memory in any case: what stands before the calls is made of lists, a tick's entry
/// has a list of cells, the next chapter has a list of robots, and the judge keeps where they are.
fn takes_memory(answer: &str) -> bool {
    MAKERS.iter().any(|maker| answer.starts_with(maker))
}

/// How the lines begin of what takes memory in any case.
const MAKERS: [&str; 9] = [
    "read the map",
    "make the grid",
    "read the script",
    "list the closures",
    "open",
    "tick: TickReport",
    "Ticked(",
    "next chapter: {",
    "judge",
];

/// The tallies of a row: of what stands before its calls, of each call, and of the judge of a run.
#[derive(Drop)]
pub(crate) struct Sheet {
    /// By stage.
    stages: [Tally; 5],
    /// By call.
    calls: Vec<Tally>,
    pub(crate) judge: Tally,
    /// How many refused allocations were noted.
    noted: u64,
}

impl Sheet {
    /// A sheet of this many calls.
    pub(crate) fn new(alloc: Global, calls: usize) -> Result<Sheet, AllocError> {
        Ok(Sheet {
            stages: [Tally::NONE; 5],
            calls: vec![in alloc; Tally::NONE; calls]?,
            judge: Tally::NONE,
            noted: 0,
        })
    }

    /// Notes a refusal that was made up for.
    pub(crate) fn count(&mut self) {
        self.noted = self.noted.saturating_add(1);
    }

    /// Whether a refusal was noted for each of the allocations that a play without one asks for, of which the last
    /// comes after its calls.
    pub(crate) fn has_all(&self, asked: u64) -> bool {
        self.noted.saturating_add(1) == asked
    }

    /// Notes a refusal before the first call.
    pub(crate) fn note_stage(&mut self, stage: Stage) {
        self.count();
        for (tally, other) in self.stages.iter_mut().zip(Stage::ALL.iter()) {
            if *other == stage {
                tally.note(true);
            }
        }
    }

    /// Notes a refusal of the call of this number, from 0.
    pub(crate) fn note(&mut self, call: usize, same: bool) {
        self.count();
        if let Some(tally) = self.calls.get_mut(call) {
            tally.note(same);
        }
    }

    /// Notes a refusal of the judge.
    pub(crate) fn note_judge(&mut self, same: bool) {
        self.count();
        self.judge.note(same);
    }

    /// A line for each stage and each call with its answer.
    pub(crate) fn tell(&self, told: &mut String, answers: &str) -> Result<(), AllocError> {
        for (tally, stage) in self.stages.iter().zip(Stage::ALL.iter()) {
            tally.tell(told, stage.name())?;
        }
        for (tally, answer) in self.calls.iter().zip(answers.lines()) {
            tally.tell(told, answer)?;
        }
        Ok(())
    }
}

/// Writes the last line of a test case: whether a play was reached in which no allocation was refused, and each before
/// it was noted.
pub(crate) fn tell_end(told: &mut String, ended: bool) -> Result<(), AllocError> {
    let end = if ended {
        "no more growths"
    } else {
        "NOT ENDED"
    };
    writeln!(told, "{end}")
}
