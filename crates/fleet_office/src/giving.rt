//! Notices from a mailbox to an outlet.

ghost use Rattle.std.specs.Prelude.{◌≡◌, ◌<◌, ◌⊎◌, [], length};
ghost use Rattle.fleet_history.specs.History.{clients};
ghost use Rattle.fleet_core.specs.Core.{pending};
ghost use Rattle.fleet_office.specs.Hall.{Gives};

use fleet_core::Core;
use fleet_lanes::HallEnd;
use std::alloc::Allocator;

/// Gives until the mailbox is empty or the outlet is full.
pub(crate) fn give_from<A: Allocator + Copy>(
    core: &mut Core<A>,
    end: &mut HallEnd<A>,
    client: u32,
) -> u64
    requires known { client < clients core.old.history }
    requires there { client < length core.old.mailboxes }
    ensures gives { Gives core.old core.new end.old end.new client result }
    ensures until { ((pending core.new client).notices ≡ []) ⊎ (end.new.free ≡ 0) }
{
    // States that the notices are few enough to be counted.
    let _most = core.pending_count(client);
    let mut count = 0u64;
    while let Some(notice) = core.next_notice(client) {
        if let Err(_) = end.give(notice) {
            return count;
        }
        core.give(client);
        count += 1;
    }
    count
}
