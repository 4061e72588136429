//! A case: an office, and what is done with it, call by call.

use fleet_book::{Limits, Order};

/// A call on an office, or on one of its clients or tickers.
#[derive(Clone, Copy, Debug)]
pub(crate) enum Step {
    /// A client posts an order.
    Post(usize, Order),
    /// A client closes.
    Close(usize),
    /// A client collects a notice.
    Collect(usize),
    /// A turn with this ticker.
    Turn(usize),
    /// A turn with this ticker, whose tick is shown.
    TurnInto(usize),
    /// A turn without its tick.
    Settle,
    /// A look with this ticker.
    Look(usize),
    /// How long the robots wait.
    Waits,
    /// A ticker gives one part to a new one.
    Split(usize),
    /// A robot takes no further errands.
    Shut(u32),
    NextChapter,
    /// The next chapter where this one has at least this many entries.
    TurnPage(u32),
    /// Fields without a robot are kept up to this many bytes.
    Keep(usize),
    /// The fields of the next errands are searched.
    SearchAhead,
    /// The end, with the first n clients and tickers handed in.
    Conclude(usize, usize),
}

/// A call on a hall, with its first client.
#[derive(Clone, Copy, Debug)]
pub(crate) enum HallStep {
    /// The client posts an order.
    Post(Order),
    /// One order is taken out of its lane.
    Take,
    /// One tick.
    Tick,
    /// All notices that its outlet has room for are given.
    Give,
    /// The client collects a notice.
    Collect,
}

/// A case: a floor whose letters fill it, where its robots start, how many clients there are, and what is done: some
/// calls over and over, then others once.
#[derive(Clone, Copy)]
pub(crate) struct Case<'a> {
    pub(crate) name: &'a str,
    pub(crate) sides: (u32, u32),
    pub(crate) letters: &'a [u8],
    pub(crate) starts: &'a [u32],
    pub(crate) clients: u32,
    pub(crate) limits: Limits,
    /// How often the calls of a round are made.
    pub(crate) rounds: u32,
    pub(crate) round: &'a [Step],
    pub(crate) steps: &'a [Step],
    /// What is done with a hall in the place of an office, where there is anything.
    pub(crate) hall: &'a [HallStep],
}

impl Step {
    /// Whether the call may change what an office shows.
    pub(crate) fn is_seen(&self) -> bool {
        matches!(
            self,
            Step::Turn(_)
                | Step::TurnInto(_)
                | Step::Settle
                | Step::Shut(_)
                | Step::NextChapter
                | Step::TurnPage(_)
        )
    }

    /// Whether the call may want memory.
    pub(crate) fn grows(&self) -> bool {
        self.is_seen()
            || matches!(
                self,
                Step::Look(_) | Step::SearchAhead | Step::Conclude(_, _)
            )
    }
}
