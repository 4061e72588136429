//! After how many ticks a fleet is idle.

ghost use Rattle.std.specs.Prelude.{◌≡◌, ◌≤◌, map};
ghost use Rattle.fleet_bound.specs.Idle.{longest_queue, idle_ticks, idle_within};

use fleet_queue::ErrandQueue;
use std::alloc::Allocator;

/// The length of the longest of these queues, 0 where there is none.
pub fn longest_queue<A: Allocator + Copy>(queues: &[ErrandQueue<A>]) -> usize
    ensures { result ≡ longest_queue (map (λ q. q.items) queues.now) }
{
    queues
        .iter()
        .fold(0, |longest, queue| queue.len().max(longest))
}

/// The number of ticks after which a fleet without new orders is idle if each tick advances, from the length of its longest
/// queue (at most 65,536), the number of its robots (at most 512) and the number of the map's floor cells.
pub fn idle_ticks(longest: usize, robots: usize, floor_count: u32) -> u64
    requires queued { longest ≤ 65536 }
    requires few { robots ≤ 512 }
    ensures { result ≡ idle_ticks longest robots floor_count }
{
    let farthest = floor_count.saturating_sub(1).max(1);
    longest as u64 * robots as u64 * farthest as u64
}

/// The number of ticks after which a fleet without new orders is idle, from the length of its longest queue (at most
/// 65,536), the number of its robots (at most 512) and the number of the map's floor cells. `None` on a map with a
/// bridge.
pub fn idle_within(longest: usize, robots: usize, floor_count: u32, bridgeless: bool) -> Option<u64>
    requires queued { longest ≤ 65536 }
    requires few { robots ≤ 512 }
    ensures { result ≡ idle_within bridgeless longest robots floor_count }
{
    if !bridgeless {
        return None;
    }
    Some(idle_ticks(longest, robots, floor_count))
}
