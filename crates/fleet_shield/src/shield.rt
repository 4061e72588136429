//! One step of all robots.

ghost use Rattle.std.specs.Prelude.{◌≡◌, ◌<◌, length, slice_index, IfOk, IsOk, OnOk, OnErr, IfErr};
ghost use Rattle.fleet_grid.specs.Floor.{HasForm};
ghost use Rattle.fleet_grid.specs.Step.{IsConflictFree};
ghost use Rattle.fleet_shield.specs.Wishes.{wishes, AreSound};
ghost use Rattle.fleet_shield.specs.Fault.{Fits, IsRefusal};
ghost use Rattle.fleet_shield.specs.Shielded.{KeepToPreferences, GetBestLeft, GetsFirst};

use crate::checks::check;
use crate::plan::plan_all;
use crate::preferences::Preferences;
use crate::refusal::Refusal;
use crate::scene::Scene;
use fleet_grid::Grid;
use std::alloc::{AllocError, Allocator, Global};
use std::marker::Model;

/// The tables of a step, made once for a number of cells and robots. Contracts see these two numbers.
#[derive(Drop)]
pub struct Shield<A: Allocator + Copy = Global> {
    cells: u32,
    robots: u32,
    /// The robot on each cell, and the one that has reserved it, where there is one. What is there else does not matter.
    standing: Vec<u32, A>,
    holder: Vec<u32, A>,
    /// How many of its preferences each robot has tried.
    tried: Vec<u32, A>,
}

impl<A: Allocator + Copy> Model for Shield<A> {
    ghost use Rattle.std.specs.Prelude.{◌≡◌, vec_len};
    ghost use Rattle.fleet_shield.specs.Size.{Size};

    ghost Value = { Size };

    ghost view = { λ s. record { cells = s.cells; robots = s.robots } };

    ghost invariant = { λ s. (vec_len s.standing ≡ s.cells) × (vec_len s.holder ≡ s.cells) × (vec_len s.tried ≡ s.robots) };
}

impl<A: Allocator + Copy> Shield<A> {
    /// The tables for this many cells and robots.
    pub fn new(alloc: A, cells: u32, robots: u32) -> Result<Shield<A>, AllocError>
        ensures { IfOk result (λ s. s ≡ record { cells = cells; robots = robots }) }
    {
        let standing = vec![in alloc; 0; cells as usize]?;
        let holder = vec![in alloc; 0; cells as usize]?;
        let tried = vec![in alloc; 0; robots as usize]?;
        Ok(Shield {
            cells,
            robots,
            standing,
            holder,
            tried,
        })
    }

    /// Whether there is no fault of lengths.
    fn check_lengths(
        &self,
        grid: &Grid<A>,
        from: &[u32],
        order: &[u32],
        preferences: &Preferences,
        news: usize,
    ) -> Result<(), Refusal>
        ensures fits { OnOk result (Fits grid.now order.now (wishes from.now preferences.now) news self.now) }
        ensures refused { IfErr result (λ why. IsRefusal grid.now order.now (wishes from.now preferences.now) news self.now why) }
        ensures form { HasForm grid.now }
    {
        if grid.cell_count() != self.cells {
            return Err(Refusal::Map);
        }
        let robots = self.robots as usize;
        if from.len() != robots || order.len() != robots || news != robots {
            return Err(Refusal::Length);
        }
        if preferences.cells.len() != robots * usize::from(preferences.each) {
            return Err(Refusal::Length);
        }
        Ok(())
    }

    /// Writes to `to` where each robot goes from its cell in `from`. The robots are planned in the order given, each by
    /// its preferences, and one that wants another's cell hands its priority on (PIBT). Each robot tries its own cell
    /// last. The first fault of what is asked is named, and then nothing is changed. Allocates nothing.
    pub fn step(
        &mut self,
        grid: &Grid<A>,
        from: &[u32],
        order: &[u32],
        preferences: &Preferences,
        to: &mut [u32],
    ) -> Result<(), Refusal>
        ensures made { self.new ≡ self.old }
        ensures fits { OnOk result (Fits grid.now order.now (wishes from.now preferences.now) (length to.old) self.old) }
        ensures sound { OnOk result (AreSound grid.now order.now (wishes from.now preferences.now)) }
        ensures moved { Fits grid.now order.now (wishes from.now preferences.now) (length to.old) self.old
            → AreSound grid.now order.now (wishes from.now preferences.now) → IsOk result }
        ensures refused { IfErr result (λ why. IsRefusal grid.now order.now (wishes from.now preferences.now) (length to.old) self.old why) }
        ensures unchanged { OnErr result (to.new ≡ to.old) }
        ensures conflict_free { OnOk result (IsConflictFree grid.now from.now to.new) }
        ensures preferred { OnOk result (KeepToPreferences (wishes from.now preferences.now) to.new) }
        ensures first { OnOk result (0 < length from.now → GetsFirst grid.now (wishes from.now preferences.now) to.new (slice_index order.now 0)) }
        ensures best_left { OnOk result (GetBestLeft (wishes from.now preferences.now) to.new) }
    {
        self.check_lengths(grid, from, order, preferences, to.len())?;
        check(
            grid,
            from,
            order,
            preferences,
            &mut self.standing,
            &mut self.tried,
        )?;
        let scene = Scene {
            from,
            standing: &self.standing,
            preferences: *preferences,
        };
        plan_all(&scene, order, &mut self.holder, to, &mut self.tried);
        Ok(())
    }
}
