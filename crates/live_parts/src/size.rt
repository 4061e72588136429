//! About how long the text of the chapter is that is being filled.

ghost use Rattle.std.specs.Prelude.{◌≡◌, ◌≤◌, ◌↔◌, IfOk, IsTrue};
ghost use Rattle.live_parts.specs.Size.{begun, opening_bytes, tick_bytes, with_orders, with_tick};

use std::alloc::{AllocError, Global};

/// The bytes that an order, an errand that is done with its robot's farewell, a robot, an errand in a queue, and a
/// client take at most.
const ORDER: u64 = 96;

const ARRIVAL: u64 = 104;

const ROBOT: u64 = 136;

const ERRAND: u64 = 48;

const CLIENT: u64 = 80;

/// What else a chapter takes, and what else a tick does.
const FRAME: u64 = 128;

/// No less than the bytes of the text that the chapter has which is being filled: its opening, and the entries since.
#[derive(Clone, Copy, Debug, PartialEq, Eq)]
pub struct ChapterSize {
    pub bytes: u64,
    /// The bytes of a tick in which no robot arrives.
    pub tick: u64,
    /// The bytes of an opening with empty queues.
    pub least: u64,
}

impl ChapterSize {
    /// Of a chapter of nothing, on a map of this many cells.
    pub fn new(
        alloc: Global,
        robots: u32,
        clients: u32,
        cells: u32,
    ) -> Result<ChapterSize, AllocError>
        ensures tick { IfOk result (λ s. s.tick ≡ tick_bytes robots cells) }
        ensures least { IfOk result (λ s. s.least ≡ opening_bytes robots clients) }
        ensures bytes { IfOk result (λ s. s.bytes ≡ s.least) }
    {
        let number = format!(in alloc; "{cells}")?;
        let cell = number.len() as u64 + 1;
        let least = FRAME
            .saturating_add(u64::from(robots) * ROBOT)
            .saturating_add(u64::from(clients) * CLIENT);
        Ok(ChapterSize {
            bytes: least,
            tick: FRAME.saturating_add(u64::from(robots).saturating_mul(cell)),
            least,
        })
    }

    /// A chapter begins, with this many errands in the queues.
    pub fn begin(&mut self, errands: u64)
        ensures { self.new ≡ begun self.old errands }
    {
        self.bytes = self.least.saturating_add(errands.saturating_mul(ERRAND));
    }

    /// A tick is added, in which this many errands were done.
    pub fn add_tick(&mut self, arrived: u32)
        ensures { self.new ≡ with_tick self.old arrived }
    {
        let arrivals = u64::from(arrived) * ARRIVAL;
        self.bytes = self
            .bytes
            .saturating_add(self.tick)
            .saturating_add(arrivals);
    }

    /// Orders are added.
    pub fn add_orders(&mut self, orders: u32)
        ensures { self.new ≡ with_orders self.old orders }
    {
        self.bytes = self.bytes.saturating_add(u64::from(orders) * ORDER);
    }

    /// Whether it has this many bytes.
    pub fn is_full(&self, most: u64) -> bool
        ensures { IsTrue result ↔ (most ≤ self.now.bytes) }
    {
        self.bytes >= most
    }
}
