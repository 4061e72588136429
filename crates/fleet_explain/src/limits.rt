//! The limits of a script that are out of their ranges.

ghost use Rattle.std.specs.Prelude.{◌≡◌};
ghost use Rattle.fleet_core.specs.Opening.{AreInRange};
ghost use Rattle.fleet_explain.specs.Limits.{least_of, most_of, value_of, name_of, IsFirstOut};

use fleet_book::{Limit, Limits};

/// A limit, or the number of clients.
#[derive(Clone, Copy, Debug, PartialEq, Eq)]
pub enum LimitKind {
    Fleet(Limit),
    Clients,
}

/// A limit that is out of its range.
#[derive(Clone, Copy, Debug, PartialEq, Eq)]
pub struct LimitFault {
    pub kind: LimitKind,
    pub value: u64,
}

impl LimitKind {
    /// The least that it may be.
    pub(crate) fn least(self) -> u64
        ensures { result ≡ least_of self }
    {
        match self {
            LimitKind::Fleet(limit) => limit.least(),
            LimitKind::Clients => 1,
        }
    }

    /// The most that it may be.
    pub(crate) fn most(self) -> u64
        ensures { result ≡ most_of self }
    {
        match self {
            LimitKind::Fleet(limit) => limit.most(),
            LimitKind::Clients => 64,
        }
    }

    /// The word of its line.
    pub(crate) fn name(self) -> &'static str
        ensures { result.now ≡ name_of self }
    {
        match self {
            LimitKind::Fleet(limit) => limit.name(),
            LimitKind::Clients => "clients",
        }
    }
}

/// The first limit that is out of its range, and its value, if not all are within; the number of clients comes last.
pub(crate) fn limit_fault(limits: &Limits, clients: u32) -> LimitFault
    requires { AreInRange clients limits.now → ⊥ }
    ensures out { IsFirstOut limits.now clients result.kind }
    ensures value { result.value ≡ value_of limits.now clients result.kind }
{
    match limits.first_out() {
        Some(limit) => LimitFault {
            kind: LimitKind::Fleet(limit),
            value: limits.value(limit),
        },
        None => LimitFault {
            kind: LimitKind::Clients,
            value: u64::from(clients),
        },
    }
}
