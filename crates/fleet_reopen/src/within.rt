//! Whether a chapter and limits go together.

ghost use Rattle.std.specs.Prelude.{◌↔◌, ◌+◌, ◌<◌, ◌≤◌, ℕ, IsTrue, length, slice_index_or};
ghost use Rattle.fleet_core.specs.Resuming.{AreLimitsAt};
ghost use Rattle.fleet_book.specs.Limits.{AreValid};
ghost use Rattle.fleet_history.specs.History.{history_of, unknown_client};
ghost use Rattle.fleet_history.specs.Next.{IsWithinChapters};
ghost use Rattle.fleet_reopen.specs.inside.Followed.{IsCounted};

use fleet_book::Limits;
use fleet_history::{Chapter, ClientState, Opening};
use std::alloc::Allocator;

/// Whether queues and lives are those of the limits.
pub(crate) fn are_limits_at<A: Allocator + Copy>(opening: &Opening<A>, limits: Limits) -> bool
    ensures { IsTrue result ↔ AreLimitsAt opening.now limits }
{
    opening.queue == limits.queue && opening.life == limits.life
}

/// Whether at most this many orders were taken of each client.
fn are_few(clients: &[ClientState], most: u64) -> bool
    ensures { IsTrue result ↔ ((c : ℕ) → c < length clients.now → (slice_index_or clients.now c unknown_client).taken ≤ most) }
{
    for c in 0..clients.len() {
        if clients[c].taken > most {
            return false;
        }
    }
    true
}

/// Whether another chapter follows within the limits, as far as the entries, the number and the orders go, and the
/// ticks before the chapter.
pub(crate) fn is_counted<A: Allocator + Copy>(chapter: &Chapter<A>, limits: Limits) -> bool
    requires { AreValid limits }
    ensures { IsTrue result ↔ IsCounted limits chapter.now.number (history_of chapter.now) }
{
    let number = u64::from(chapter.number);
    if chapter.opening.tick > limits.clock || number + 1 >= u64::from(limits.chapters) {
        return false;
    }
    if chapter.entries.len() as u64 > u64::from(limits.chapter) {
        return false;
    }
    are_few(
        chapter.opening.clients.as_slice(),
        number * u64::from(limits.chapter),
    )
}
