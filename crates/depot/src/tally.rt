//! What a client collected.

use fleet_book::{Notice, Verdict};

/// What a client sent and collected so far.
#[derive(Clone, Copy)]
pub(crate) struct Tally {
    /// Orders sent.
    pub(crate) orders: u64,
    pub(crate) verdicts: u64,
    /// Verdicts that accepted an errand.
    pub(crate) accepted: u64,
    pub(crate) arrived: u64,
    /// The number of the last notice.
    pub(crate) last: u64,
    /// Whether the notices were numbered without a gap, and the verdicts were in the order of the orders.
    pub(crate) in_order: bool,
}

impl Tally {
    /// Before the first order.
    pub(crate) const NONE: Tally = Tally {
        orders: 0,
        verdicts: 0,
        accepted: 0,
        arrived: 0,
        last: 0,
        in_order: true,
    };

    /// Counts a notice.
    pub(crate) fn note(&mut self, notice: Notice) {
        let number = match notice {
            Notice::Verdict {
                seq,
                order_no,
                verdict,
            } => {
                self.verdicts = self.verdicts.saturating_add(1);
                self.in_order &= order_no == self.verdicts;
                if let Verdict::Accepted(_) = verdict {
                    self.accepted = self.accepted.saturating_add(1);
                }
                seq
            }
            Notice::Arrived { seq, .. } => {
                self.arrived = self.arrived.saturating_add(1);
                seq
            }
        };
        self.last = self.last.saturating_add(1);
        self.in_order &= number == self.last;
    }

    /// Whether everything that was sent has its verdict, and everything that was accepted has arrived.
    pub(crate) fn is_settled(&self) -> bool {
        self.verdicts == self.orders && self.arrived == self.accepted
    }
}
