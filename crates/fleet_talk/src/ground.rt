//! What a conversation begins with.

use fleet_book::Limits;
use fleet_grid::Grid;
use fleet_script::Head;
use fleet_text::HookKit;

/// The longest line, its line feed not counted: 8,192 bytes. A `robots` line of 512 robots on the largest map has about
/// half as many.
pub const MOST_LINE: usize = 8192;

/// How many robots a conversation's fleet has at most.
pub const MOST_ROBOTS: usize = 512;

/// The limits of a conversation whose head does not name them: a fleet that is talked to may go on for years.
pub const TALK_LIMITS: Limits = Limits {
    lane: 64,
    outlet: 64,
    queue: 16,
    mailbox: 64,
    life: 1 << 40,
    orders: 1 << 62,
    clock: 1 << 48,
    chapter: 65_536,
    chapters: u32::MAX,
};

/// The map, the closures that the head chooses from, and the head as far as a file gave it.
#[derive(Drop)]
pub struct Ground {
    pub grid: Grid,
    pub kit: HookKit,
    pub head: Head,
}
