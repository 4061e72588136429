//! The check of steps.

ghost use Rattle.std.specs.Prelude.{◌≡◌, ◌≢◌, ◌⊎◌, OnOk, IfErr};
ghost use Rattle.fleet_grid.specs.Step.{IsPlacement, IsConflictFree};
ghost use Rattle.fleet_check.specs.Fault.{IsFirstFault, AreMoves};
ghost use Rattle.fleet_check.specs.declared.fault.StepFault.TheVariants.{NoMemory};

use crate::check::first_fault;
use crate::fault::StepFault;
use crate::free::is_free;
use crate::slots::{EMPTY, REACH};
use fleet_grid::Grid;
use std::alloc::{AllocError, Allocator, Global};

/// Checks steps one after the other, with a table that is made once for all of them.
#[derive(Drop)]
pub struct StepChecker<A: Allocator + Copy = Global> {
    alloc: A,
    slots: Vec<u32, A>,
}

/// A table with four slots for each robot.
fn empty_slots<A: Allocator + Copy>(alloc: A, robots: usize) -> Result<Vec<u32, A>, AllocError> {
    let count = robots.saturating_mul(4).saturating_add(REACH);
    let mut slots = Vec::with_capacity(alloc, count)?;
    slots.resize(count, EMPTY)?;
    Ok(slots)
}

impl<A: Allocator + Copy> StepChecker<A> {
    /// A checker for steps of that number of robots. Other steps are checked too, but more slowly; so are all, if there
    /// is no memory for the table, which takes 16 bytes for each robot.
    pub fn new(alloc: A, robots: usize) -> StepChecker<A> {
        let slots = match empty_slots(alloc, robots) {
            Ok(slots) => slots,
            Err(AllocError) => Vec::new(alloc),
        };
        StepChecker { alloc, slots }
    }

    /// Whether a step is free of conflicts, as `check_step` says it. Only a step that is not asks for memory, or one
    /// for which the table is too small.
    pub fn check<B: Allocator + Copy>(
        &mut self,
        grid: &Grid<B>,
        from: &[u32],
        to: &[u32],
    ) -> Result<(), StepFault>
        requires { IsPlacement grid.now from.now }
        ensures ok { OnOk result (IsConflictFree grid.now from.now to.now) }
        ensures fault { IfErr result (λ fault. fault ≢ NoMemory → IsFirstFault grid.now from.now to.now fault) }
        ensures memory { IfErr result (λ fault. fault ≡ NoMemory → AreMoves grid.now from.now to.now) }
        ensures lawful { IsConflictFree grid.now from.now to.now → (result ≡ Ok record {}) ⊎ (result ≡ Err NoMemory) }
    {
        if is_free(grid, self.slots.as_mut_slice(), from, to) {
            return Ok(());
        }
        first_fault(self.alloc, grid, from, to)
    }
}

/// Whether a step is free of conflicts (Stern et al., SoCS 2019): each robot stays or crosses an edge, no two come to
/// one cell, and no two exchange their cells. Item r of `from` and of `to` is the cell of robot r before and after.
///
/// Otherwise it returns the first fault, in the order of `StepFault`. It is `NoMemory` if memory for the search for a
/// conflict runs out; then `to` has a cell for each robot, and each robot stays or crosses an edge.
pub fn check_step<A: Allocator + Copy, B: Allocator + Copy>(
    alloc: A,
    grid: &Grid<B>,
    from: &[u32],
    to: &[u32],
) -> Result<(), StepFault>
    requires { IsPlacement grid.now from.now }
    ensures ok { OnOk result (IsConflictFree grid.now from.now to.now) }
    ensures fault { IfErr result (λ fault. fault ≢ NoMemory → IsFirstFault grid.now from.now to.now fault) }
    ensures memory { IfErr result (λ fault. fault ≡ NoMemory → AreMoves grid.now from.now to.now) }
    ensures lawful { IsConflictFree grid.now from.now to.now → (result ≡ Ok record {}) ⊎ (result ≡ Err NoMemory) }
{
    StepChecker::new(alloc, to.len()).check(grid, from, to)
}
