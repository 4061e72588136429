//! Which allocation is refused.

use crate::rows::meter::Meter;
use std::alloc::Global;

/// A call of a case.
#[derive(Clone, Copy, PartialEq, Eq)]
pub(crate) enum Call {
    /// None.
    None,
    Desk,
    Open,
    /// The step of this number, from 0.
    Step(usize),
}

/// The call that meets a refused allocation, and how many allocations come before that one in it.
#[derive(Clone, Copy)]
pub(crate) struct Plan<'a> {
    pub(crate) meter: &'a Meter<Global>,
    pub(crate) call: Call,
    pub(crate) before: u64,
}

impl<'a> Plan<'a> {
    /// No allocation is refused.
    pub(crate) fn none(meter: &'a Meter<Global>) -> Plan<'a> {
        Plan {
            meter,
            call: Call::None,
            before: 0,
        }
    }

    /// Before a call: refuses its allocation where it is the one.
    pub(crate) fn begin(&self, call: Call) {
        if self.call == call {
            self.meter.refuse(self.before);
        }
    }

    /// After a call.
    pub(crate) fn end(&self) {
        self.meter.rest();
    }
}
