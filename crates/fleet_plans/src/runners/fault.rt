//! Why a text is not a plan in JSON.

ghost use Rattle.std.specs.Prelude.{◌≡◌, Some};
ghost use Rattle.fleet_plans.specs.declared.runners.fault.RunnersFault.TheVariants.{NoMemory};
ghost use Rattle.fleet_plans.specs.Told.{key_text, told_text};

use std::alloc::{AllocError, AllocFailed};
use std::fmt;

/// A key of a plan in JSON.
#[derive(Clone, Copy, Debug, PartialEq, Eq)]
pub enum RunnersKey {
    /// `actionModel`
    ActionModel,
    /// `start`
    Start,
    /// `teamSize`
    TeamSize,
    /// `actualPaths`
    ActualPaths,
    /// `plannerPaths`
    PlannerPaths,
}

/// Why a text is not a plan in JSON. The keys are checked in the order of `RunnersKey`.
#[derive(Clone, Copy, Debug, PartialEq, Eq)]
pub enum RunnersFault {
    /// It is not UTF-8, or not JSON, or nested deeper than 127.
    NotJson,
    /// The key is missing, or its value is not in the right form.
    Key(RunnersKey),
    /// In the list under the key, the item of this robot is not in the right form.
    Item(RunnersKey, u32),
    /// Memory ran out; this says nothing about the text.
    NoMemory,
}

impl From<AllocError> for RunnersFault {
    ghost from_gives = { λ _ e. e ≡ NoMemory };

    fn from(_error: AllocError) -> RunnersFault {
        RunnersFault::NoMemory
    }
}

impl<T: Drop> From<AllocFailed<T>> for RunnersFault {
    ghost from_gives = { λ _ e. e ≡ NoMemory };

    fn from(_error: AllocFailed<T>) -> RunnersFault {
        RunnersFault::NoMemory
    }
}

impl RunnersKey {
    /// The key as a plan writes it.
    pub fn word(self) -> &'static str
        ensures { result.now ≡ key_text self }
    {
        match self {
            RunnersKey::ActionModel => "actionModel",
            RunnersKey::Start => "start",
            RunnersKey::TeamSize => "teamSize",
            RunnersKey::ActualPaths => "actualPaths",
            RunnersKey::PlannerPaths => "plannerPaths",
        }
    }
}

impl fmt::Display for RunnersFault {
    ghost output = { λ f. Some (told_text f) };

    fn fmt<W: fmt::Write>(&self, f: &mut fmt::Formatter<W>) -> fmt::Result {
        match self {
            RunnersFault::NotJson => f.write_str("json"),
            RunnersFault::Key(key) => f.write_str(key.word()),
            RunnersFault::Item(key, robot) => {
                let word = key.word();
                write!(f, "{word} {robot}")
            }
            RunnersFault::NoMemory => f.write_str("no-memory"),
        }
    }
}
