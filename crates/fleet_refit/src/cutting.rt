//! Robots of which some errands stay.

ghost use Rattle.std.specs.Prelude.{◌≡◌, ◌++◌, ◌↔◌, IsTrue, OnOk};
ghost use Rattle.fleet_refit.specs.Changed.{Cuts, IsOther};

use crate::change::Dropped;
use crate::changing::is_of;
use crate::sifting::{Stays, cut_wait, sifted};
use fleet_history::{RobotState, Row};
use fleet_queue::Errand;
use std::alloc::{AllocError, Allocator};

/// All errands but this one stay.
#[derive(Clone, Copy)]
pub(crate) struct Other {
    pub(crate) client: u32,
    pub(crate) number: u64,
}

impl Stays for Other {
    ghost stays = { λ o. IsOther o.client o.number };

    fn stays(&self, errand: &Errand) -> bool {
        !is_of(self.client, self.number, errand)
    }
}

/// Drops the robot's errands that do not stay. Where memory is refused the robot is as it was.
pub(crate) fn cut<S: Stays, A: Allocator + Copy>(
    alloc: A,
    robot: &mut RobotState<A>,
    number: u32,
    which: &S,
    dropped: &mut Vec<Dropped, A>,
) -> Result<(), AllocError>
    ensures { OnOk result ((more : _) × Cuts (S.stays which.now) number robot.old robot.new more × (dropped.new.items ≡ dropped.old.items ++ more)) }
{
    let kept = sifted(alloc, robot.errands.as_slice(), number, which, dropped)?;
    robot.wait = cut_wait(robot.errands.as_slice(), &kept, robot.wait);
    robot.errands = Row::from_vec(kept);
    Ok(())
}
