//! What the keeper counts, for a line each minute.

ghost use Rattle.std.specs.Prelude.{◌≡◌, IfOk, string_bytes};
ghost use Rattle.live_parts.specs.Counts.{counts_line, counts_text, wait_text, with_lateness, with_orders, with_tick};

use crate::waits::WaitReport;
use std::alloc::{AllocError, Global};

/// What happened since the last line.
#[derive(Clone, Copy, Debug, PartialEq, Eq)]
pub struct Tally {
    pub ticks: u64,
    pub orders: u64,
    /// How many turns began after the deadline that follows theirs.
    pub late: u64,
    /// How many microseconds after its deadline a turn began at most.
    pub latest: u64,
}

/// The longest wait, and the limit of all waits, if there is one.
fn wait_text(alloc: Global, wait: u64, limit: Option<u64>) -> Result<String, AllocError>
    ensures { IfOk result (λ text. string_bytes text ≡ wait_text wait limit) }
{
    match limit {
        Some(most) => format!(in alloc; " wait {wait} below {most}\n"),
        None => format!(in alloc; " wait {wait}\n"),
    }
}

impl Tally {
    pub const NONE: Tally = Tally {
        ticks: 0,
        orders: 0,
        late: 0,
        latest: 0,
    };

    /// Counts a tick.
    pub fn count_tick(&mut self)
        ensures { self.new ≡ with_tick self.old }
    {
        self.ticks = self.ticks.saturating_add(1);
    }

    /// Counts orders.
    pub fn count_orders(&mut self, orders: u32)
        ensures { self.new ≡ with_orders self.old orders }
    {
        self.orders = self.orders.saturating_add(u64::from(orders));
    }

    /// Notes how many microseconds after its deadline a turn begins.
    pub fn note_lateness(&mut self, micros: u64, period: u64)
        ensures { self.new ≡ with_lateness self.old micros period }
    {
        if micros >= period {
            self.late = self.late.saturating_add(1);
        }
        self.latest = self.latest.max(micros);
    }

    /// The counts, over this many seconds.
    fn text(&self, alloc: Global, seconds: u64) -> Result<String, AllocError>
        ensures { IfOk result (λ text. string_bytes text ≡ counts_text seconds self.now) }
    {
        let (ticks, orders) = (self.ticks, self.orders);
        let (late, latest) = (self.late, self.latest);
        format!(in alloc;
            "seconds {seconds} ticks {ticks} orders {orders} late {late} latest {latest}us"
        )
    }

    /// The line of the counts, over this many seconds, with how long robots wait at their end.
    pub fn line(&self, alloc: Global, seconds: u64, waits: WaitReport) -> Result<String, AllocError>
        ensures { IfOk result (λ text. string_bytes text ≡ counts_line seconds self.now waits) }
    {
        let mut line = self.text(alloc, seconds)?;
        let waits = wait_text(alloc, waits.longest.unwrap_or(0), waits.limit)?;
        line.push_str(waits.as_str())?;
        Ok(line)
    }
}
