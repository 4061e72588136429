//! How long the robots' queues are.

ghost use Rattle.std.specs.Prelude.{◌≡◌, ◌<◌, ◌^◌, length};
ghost use Rattle.std.specs.List.{sum_by};
ghost use Rattle.fleet_bound.specs.Idle.{longest_after};
ghost use Rattle.fleet_core.specs.OpenErrands.{queued};

use crate::kernel::Core;
use fleet_bound::longest_queue;
use fleet_queue::ErrandQueue;
use std::alloc::Allocator;

/// How long the robots' queues are.
#[derive(Clone, Copy, Debug, PartialEq, Eq)]
pub struct QueueReport {
    /// The sum of their lengths.
    pub total: u64,
    /// The greatest of their lengths.
    pub longest: u64,
}

/// The sum of the queues' lengths.
fn sum_of<A: Allocator + Copy>(queues: &[ErrandQueue<A>]) -> u64
    requires { sum_by (λ q. length q.items) queues.now < 2 ^ 64 }
    ensures { result ≡ sum_by (λ q. length q.items) queues.now }
{
    let mut sum = 0u64;
    for queue in queues {
        sum += queue.len() as u64;
    }
    sum
}

impl<A: Allocator + Copy> Core<A> {
    /// How long the robots' queues are.
    pub fn queues(&self) -> QueueReport
        ensures total { result.total ≡ queued self.now.history }
        ensures longest { result.longest ≡ longest_after self.now.history }
    {
        let queues = self.state.queues();
        QueueReport {
            total: sum_of(queues),
            longest: longest_queue(queues) as u64,
        }
    }
}
