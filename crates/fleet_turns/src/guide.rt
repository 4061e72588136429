//! The robots' goals while a turn may be lent.

ghost use Rattle.std.specs.Prelude.{◌≡◌, ℕ, Some, true, false, slice_index};
ghost use Rattle.fleet_planner.specs.Courses.{AreStill};
ghost use Rattle.fleet_turns.specs.inside.Lent.{goal_lent, way_lent, AreLent};
ghost use Rattle.std.proofs.Common.{refl, ◌∙◌};

use crate::to_core::{ToCore, read};
use fleet_grid::{Grid, Outlook};
use fleet_pibt::{Goals, Guide};
use fleet_planner::Courses;
use std::alloc::{AllocError, Allocator, Global};

/// What the robots of a fleet are under way to, but for one that may be lent a turn and go to the core of its part.
#[derive(Drop)]
pub(crate) struct TurnGuide<A: Allocator + Copy = Global> {
    pub(crate) courses: Courses<A>,
    /// By each cell the core of its part.
    pub(crate) core: Vec<u32, A>,
    /// By each cell its distance from the core.
    pub(crate) away: Vec<u32, A>,
    /// The robot that is lent a turn.
    pub(crate) lender: Option<u32>,
    /// The core to which it goes.
    pub(crate) goal: u32,
}

impl<A: Allocator + Copy> TurnGuide<A> {
    /// The way to the core of the lender.
    fn to_core(&self) -> ToCore<'_>
        ensures core { result.core.now ≡ self.now.core.items }
        ensures away { result.away.now ≡ self.now.away.items }
        ensures goal { result.goal ≡ self.now.goal }
    {
        ToCore {
            core: &self.core,
            away: &self.away,
            goal: self.goal,
        }
    }

    /// Whether this robot is lent a turn.
    fn is_lender(&self, robot: u32) -> bool
        ensures is { result ≡ true → self.now.lender ≡ Some robot }
        ensures other { result ≡ false → self.now.lender ≡ Some robot → ⊥ }
    {
        match self.lender {
            Some(lender) => lender == robot,
            None => false,
        }
    }

    /// Lends a turn to a robot on one of these cells, or to none.
    pub(crate) fn lend_to(&mut self, lender: Option<u32>, cells: &[u32])
        ensures lender { self.new.lender ≡ lender }
        ensures goal { (x : ℕ) → lender ≡ Some x → self.new.goal ≡ slice_index self.old.core.items (slice_index cells.now x) }
        ensures courses { self.new.courses ≡ self.old.courses }
        ensures core { self.new.core.items ≡ self.old.core.items }
        ensures away { self.new.away.items ≡ self.old.away.items }
    {
        self.lender = lender;
        if let Some(robot) = lender {
            self.goal = read(&self.core, read(cells, robot));
        }
    }
}

impl<A: Allocator + Copy> Guide for TurnGuide<A> {
    type Fault = AllocError;

    ghost goal_of = { λ s. goal_lent s.lender s.goal s.courses };

    ghost distance = { λ s. way_lent s.lender s.goal s.courses };

    ghost shows = { λ s m. AreLent m s.core.items s.away.items s.lender s.goal s.courses };

    ghost stays = { λ a b. AreStill a.courses b.courses × (b.core.items ≡ a.core.items) × (b.away.items ≡ a.away.items) };

    ghost stays_same = { λ s. (record { shared = refl; own = refl }, refl, refl) };

    ghost stays_on = { λ a b c p q. (record { shared = q.0.shared ∙ p.0.shared; own = q.0.own ∙ p.0.own }, q.1 ∙ p.1, q.2 ∙ p.2) };

    fn outlook<B: Allocator + Copy>(
        &mut self,
        grid: &Grid<B>,
        robot: u32,
        cell: u32,
    ) -> Result<Outlook, AllocError> {
        if !self.is_lender(robot) {
            return self.courses.outlook(grid, robot, cell);
        }
        let to_core = self.to_core();
        Ok(Outlook {
            nearer: to_core.ways(grid, robot, cell),
            exits: grid.exits(cell),
        })
    }
}
