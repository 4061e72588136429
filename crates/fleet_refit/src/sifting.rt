//! Errands that stay, and errands that are dropped.

ghost use Rattle.std.specs.Prelude.{◌≡◌, ◌++◌, ◌↔◌, map, IsTrue, IfOk, OnOk};
ghost use Rattle.fleet_queue.specs.declared.errand.Errand.{Errand};
ghost use Rattle.fleet_refit.specs.Sifting.{Sifts, dropped_of, cut_wait};

use crate::change::Dropped;
use fleet_queue::Errand;
use std::alloc::{AllocError, Allocator};

/// Which errands stay.
pub(crate) trait Stays {
    ghost stays: { Self → Errand → Type 0 };

    /// Whether the errand stays.
    fn stays(&self, errand: &Errand) -> bool
        ensures { IsTrue result ↔ stays self.now errand.now };
}

/// The errand, as one that the robot does not have any more.
pub(crate) fn dropped_of(robot: u32, errand: Errand) -> Dropped
    ensures { result ≡ dropped_of robot errand }
{
    Dropped {
        robot,
        client: errand.client,
        number: errand.number,
        cell: errand.cell,
    }
}

/// The errands that stay. Those that do not are listed as the robot's.
pub(crate) fn sifted<S: Stays, A: Allocator + Copy>(
    alloc: A,
    errands: &[Errand],
    robot: u32,
    which: &S,
    dropped: &mut Vec<Dropped, A>,
) -> Result<Vec<Errand, A>, AllocError>
    ensures { IfOk result (λ kept. (gone : _) × Sifts (S.stays which.now) errands.now kept.items gone × (dropped.new.items ≡ dropped.old.items ++ map (dropped_of robot) gone)) }
{
    let mut kept = Vec::new(alloc);
    for place in 0..errands.len() {
        let errand = errands[place];
        if which.stays(&errand) {
            kept.push(errand)?;
        } else {
            dropped.push(dropped_of(robot, errand))?;
        }
    }
    Ok(kept)
}

/// How long a robot has waited, once some of its errands are gone: for a new front it begins to wait.
pub(crate) fn cut_wait(errands: &[Errand], kept: &[Errand], wait: Option<u64>) -> Option<u64>
    ensures { result ≡ cut_wait errands.now kept.now wait }
{
    match (errands.first(), kept.first()) {
        (_, None) => None,
        (Some(old), Some(new)) if old == new => wait,
        (_, Some(_)) => Some(0),
    }
}
