//! A site after changes, and what its fleet goes on with.

ghost use Rattle.std.specs.Prelude.{◌≡◌, ◌++◌, IfErr, IfOk, OnOk};
ghost use Rattle.fleet_history.specs.Legal.{IsInOrder};
ghost use Rattle.fleet_refit.specs.Account.{AreAccounted};
ghost use Rattle.fleet_refit.specs.Changed.{AreMade};
ghost use Rattle.fleet_refit.specs.InOrder.{IsSiteInOrder};
ghost use Rattle.fleet_refit.specs.Map.{plan_map};
ghost use Rattle.fleet_refit.specs.Refit.{AreRefused, IsHanded, IsRefit, IsUnopened};
ghost use Rattle.fleet_refit.specs.Settled.{AreSettled};
ghost use Rattle.fleet_refit.specs.Site.{with_seats};

use crate::change::{Change, ChangeFault, Dropped};
use crate::reached::settle_all;
use crate::site::Site;
use fleet_grid::Grid;
use fleet_history::Opening;
use std::alloc::{AllocError, Allocator, Global};

/// A site after changes, and what its fleet goes on with.
#[derive(Drop)]
pub struct Refit<A: Allocator + Copy = Global> {
    pub site: Site<A>,
    /// The map on which the robots move: a robot that is held is a wall.
    pub grid: Grid<A>,
    /// The opening of the next chapter, of the robots that move.
    pub opening: Opening<A>,
    /// The number of each of these robots.
    pub numbers: Vec<u32, A>,
    /// The errands that are not in the opening and will not arrive: those that changes dropped, in the order of the changes,
    /// and then those to cells that their robots cannot reach.
    pub dropped: Vec<Dropped, A>,
}

/// Why changes were not made.
#[derive(Clone, Copy, Debug, PartialEq, Eq)]
pub enum RefitFault {
    /// The change at this place, from 0, cannot be made once those before it are.
    Change { place: usize, fault: ChangeFault },
    /// No robot moves after the changes.
    NoRobot,
    /// Memory was refused.
    NoMemory,
}

impl<A: Allocator + Copy> Site<A> {
    /// Makes the changes one after the other. Where one cannot be made the site is left as the ones before it made it.
    fn make_all(
        &mut self,
        alloc: A,
        changes: &[Change],
        dropped: &mut Vec<Dropped, A>,
    ) -> Result<(), RefitFault>
        ensures made { OnOk result ((gone : _) × AreMade self.old changes.now self.new gone × (dropped.new.items ≡ dropped.old.items ++ gone)) }
        ensures refused { IfErr result (AreRefused self.old changes.now) }
    {
        for place in 0..changes.len() {
            match self.change(alloc, changes[place], dropped) {
                Ok(()) => {}
                Err(ChangeFault::NoMemory) => return Err(RefitFault::NoMemory),
                Err(fault) => return Err(RefitFault::Change { place, fault }),
            }
        }
        Ok(())
    }
}

impl<A: Allocator + Copy> Site<A> {
    /// Drops the errands that cannot arrive on that map.
    fn settle(
        &mut self,
        alloc: A,
        grid: &Grid<A>,
        dropped: &mut Vec<Dropped, A>,
    ) -> Result<(), AllocError>
        ensures { OnOk result ((seats : _) × (more : _) × AreSettled grid.now self.old.seats seats more × (self.new ≡ with_seats self.old seats) × (dropped.new.items ≡ dropped.old.items ++ more)) }
    {
        settle_all(alloc, grid, &mut self.seats, dropped)
    }

    /// A copy of the site with the changes made.
    fn changed(
        &self,
        alloc: A,
        changes: &[Change],
        dropped: &mut Vec<Dropped, A>,
    ) -> Result<Site<A>, RefitFault>
        ensures made { IfOk result (λ site. (gone : _) × AreMade self.now changes.now site gone × (dropped.new.items ≡ dropped.old.items ++ gone)) }
        ensures refused { IfErr result (AreRefused self.now changes.now) }
    {
        let Ok(mut site) = self.copied(alloc) else {
            return Err(RefitFault::NoMemory);
        };
        match site.make_all(alloc, changes, dropped) {
            Ok(()) => Ok(site),
            Err(fault) => Err(fault),
        }
    }

    /// Drops the errands that cannot arrive. Returns the map on which the fleet moves.
    fn settled(&mut self, alloc: A, dropped: &mut Vec<Dropped, A>) -> Result<Grid<A>, AllocError>
        ensures grid { IfOk result (λ grid. grid ≡ plan_map self.old) }
        ensures settled { IfOk result (λ grid. (seats : _) × (more : _) × AreSettled grid self.old.seats seats more × (self.new ≡ with_seats self.old seats) × (dropped.new.items ≡ dropped.old.items ++ more)) }
    {
        let grid = self.grid(alloc)?;
        match self.settle(alloc, &grid, dropped) {
            Ok(()) => Ok(grid),
            Err(AllocError) => Err(AllocError),
        }
    }

    /// What the site is after these changes, and what its fleet goes on with. The site itself stays as it is: a change that
    /// cannot be made leaves nothing done.
    pub fn refit(&self, alloc: A, changes: &[Change]) -> Result<Refit<A>, RefitFault>
        ensures done { IfOk result (IsRefit self.now changes.now) }
        ensures accounted { IfOk result (λ refit. AreAccounted self.now refit.site refit.dropped.items) }
        ensures in_order { IfOk result (λ refit. IsSiteInOrder self.now → IsSiteInOrder refit.site) }
        ensures opening { IfOk result (λ refit. IsSiteInOrder self.now → IsInOrder refit.grid refit.opening) }
        ensures refused { IfErr result (AreRefused self.now changes.now) }
    {
        let mut dropped = Vec::new(alloc);
        let mut site = self.changed(alloc, changes, &mut dropped)?;
        let Ok(grid) = site.settled(alloc, &mut dropped) else {
            return Err(RefitFault::NoMemory);
        };
        handed(alloc, site, grid, dropped)
    }
}

/// What the fleet of a site goes on with.
fn handed<A: Allocator + Copy>(
    alloc: A,
    site: Site<A>,
    grid: Grid<A>,
    dropped: Vec<Dropped, A>,
) -> Result<Refit<A>, RefitFault>
    ensures handed { IfOk result (IsHanded site grid dropped.items) }
    ensures refused { IfErr result (IsUnopened site.seats) }
{
    let Ok(numbers) = site.numbers(alloc) else {
        return Err(RefitFault::NoMemory);
    };
    if numbers.len() == 0 {
        return Err(RefitFault::NoRobot);
    }
    let Ok(opening) = site.opening(alloc) else {
        return Err(RefitFault::NoMemory);
    };
    Ok(Refit {
        site,
        grid,
        opening,
        numbers,
        dropped,
    })
}
