//! A judge of plans that is given one placement after the other.

mod part;

ghost use Rattle.std.specs.Prelude.{◌≡◌, ◌≤◌, ◌<◌, ◌+◌, ◌++◌, ◌∷◌, ◌^◌, ℕ, List, [], length, slice_index, Some, None, MatchOption, OnOk, IfOk, IfErr, IsOk, IsSome, IsTrue, option_map};
ghost use Rattle.fleet_grid.specs.Floor.{Floor};
ghost use Rattle.fleet_grid.specs.Step.{IsPlacement};
ghost use Rattle.fleet_plans.specs.declared.judging.PlanFault.{PlanFault};
ghost use Rattle.fleet_plans.specs.Valid.{IsValidPlan, IsPlanFault, HasCells, place_at, last_of};
ghost use Rattle.fleet_plans.specs.Report.{IsReportOf};
ghost use Rattle.fleet_plans.specs.Costs.{IsNoted};
ghost use Rattle.fleet_plans.specs.Judge.{AreKept, HasJudged};
ghost use Rattle.fleet_plans.specs.Shown.{goals_in};

use crate::costs::{note_moves, zeros};
use crate::judging::{PlanFault, fault_between, first_fault, step_fault};
use crate::placements::Placements;
use crate::report::{PlanReport, report_of};
use fleet_check::StepChecker;
use fleet_grid::Grid;
use std::alloc::{AllocError, Allocator, Global};
use std::marker::Model;

/// A judge of one plan. It is given the robots' cells at one time after the other, from time 0 on, and keeps only the
/// last of these placements, each robot's cost, and the first fault; if it is asked to, all placements. Contracts see
/// what it keeps as a `Judged`, and `HasJudged m places judge` says that it was given exactly these placements on the
/// map m.
#[derive(Drop)]
pub struct PlanJudge<'a, A: Allocator + Copy = Global, B: Allocator + Copy = Global> {
    alloc: A,
    grid: &'a Grid<B>,
    checker: StepChecker<A>,
    count: usize,
    first: Vec<u32, A>,
    last: Vec<u32, A>,
    costs: Vec<u32, A>,
    fault: Option<PlanFault>,
    kept: Option<Placements<A>>,
}

impl<'a, A: Allocator + Copy, B: Allocator + Copy> Model for PlanJudge<'a, A, B> {
    ghost use Rattle.fleet_plans.specs.Judge.{Judged};
    ghost use Rattle.fleet_plans.specs.inside.Kept.{IsKept};

    ghost Value = { Judged };

    ghost view = { λ j. record { floor = j.grid.now; count = j.count; first = j.first.items; last = j.last.items; costs = j.costs.items; fault = j.fault; kept = j.kept } };

    ghost invariant = { λ j. IsKept j.grid.now j.count j.first.items j.last.items j.costs.items };
}

/// Adds the placement to those that are kept, if any are. If memory runs out, nothing changes.
fn keep<A: Allocator + Copy>(
    kept: &mut Option<Placements<A>>,
    place: &[u32],
) -> Result<(), AllocError>
    ensures added { OnOk result (kept.new ≡ option_map (λ places. places ++ place.now ∷ []) kept.old) }
    ensures same { IfErr result (λ _. kept.new ≡ kept.old) }
    ensures none { kept.old ≡ None → IsOk result }
{
    match kept {
        Some(places) => places.push(place),
        None => Ok(()),
    }
}

/// Writes the placement over the last one, and this time at the robots that moved to it.
fn step<A: Allocator + Copy>(
    last: &mut Vec<u32, A>,
    costs: &mut Vec<u32, A>,
    place: &[u32],
    time: u32,
)
    requires same_length { length place.now ≡ length last.old.items }
    requires each_one { length costs.old.items ≡ length last.old.items }
    ensures last { last.new.items ≡ place.now }
    ensures count { length costs.new.items ≡ length costs.old.items }
    ensures costs { (r : ℕ) → r < length costs.old.items → IsNoted last.old.items place.now time r (slice_index costs.old.items r) (slice_index costs.new.items r) }
{
    note_moves(costs.as_mut_slice(), last.as_slice(), place, time);
    last.as_mut_slice().copy_from_slice(place);
}

impl<'a, A: Allocator + Copy, B: Allocator + Copy> PlanJudge<'a, A, B> {
    /// A judge that was given no placement yet, and adds to these placements, which are none, if it has them.
    fn with_kept(alloc: A, grid: &'a Grid<B>, kept: Option<Placements<A>>) -> PlanJudge<'a, A, B>
        requires { AreKept kept [] }
        ensures judged { HasJudged grid.now [] result }
        ensures kept { result.kept ≡ kept }
    {
        PlanJudge {
            alloc,
            grid,
            checker: StepChecker::new(alloc, 0),
            count: 0,
            first: Vec::new(alloc),
            last: Vec::new(alloc),
            costs: Vec::new(alloc),
            fault: None,
            kept,
        }
    }

    /// A judge that was given no placement yet. It takes no memory, and keeps no placement but the first and the last.
    pub fn new(alloc: A, grid: &'a Grid<B>) -> PlanJudge<'a, A, B>
        ensures judged { HasJudged grid.now [] result }
        ensures kept { result.kept ≡ None }
    {
        PlanJudge::with_kept(alloc, grid, None)
    }

    /// A judge that was given no placement yet, and keeps all that it is given.
    pub(crate) fn keeping(alloc: A, grid: &'a Grid<B>) -> PlanJudge<'a, A, B>
        ensures judged { HasJudged grid.now [] result }
        ensures kept { result.kept ≡ Some [] }
    {
        PlanJudge::with_kept(alloc, grid, Some(Placements::new(alloc)))
    }

    /// Gives out the placements that were kept. From then on none are.
    pub(crate) fn take_kept(&mut self) -> Option<Placements<A>>
        ensures { result ≡ self.old.kept }
    {
        self.kept.take()
    }

    /// Takes the robots' cells at the next time; item r is the cell of robot r. After the first fault placements are
    /// counted, and kept if they are to be, and not looked at.
    ///
    /// An error means that memory ran out. Then the judge has not taken the placement, and nothing changes.
    pub fn take(&mut self, place: &[u32]) -> Result<(), AllocError>
        requires times { self.old.count < 2 ^ 32 }
        requires robots { length place.now < 2 ^ 32 }
        ensures taken { (m : Floor) (places : List (List ℕ)) → HasJudged m places self.old → OnOk result (HasJudged m (places ++ place.now ∷ []) self.new) }
        ensures counted { OnOk result (self.new.count ≡ self.old.count + 1) }
        ensures kept { IfErr result (λ _. self.new ≡ self.old) }
        ensures grown { OnOk result (self.new.kept ≡ option_map (λ places. places ++ place.now ∷ []) self.old.kept) }
        // After the first fault no memory is asked for, unless placements are kept.
        ensures faulty { IsSome self.old.fault → self.old.kept ≡ None → IsOk result }
    {
        if self.fault.is_some() {
            keep(&mut self.kept, place)?;
            self.count += 1;
            return Ok(());
        }
        if self.count == 0 {
            self.take_first(place)
        } else {
            self.take_next(place)
        }
    }

    /// Whether what is still to come cannot matter: there is a fault, and no placement is kept.
    pub(crate) fn is_over(&self) -> bool
        ensures faulty { IsTrue result → IsSome self.now.fault }
        ensures unkept { IsTrue result → self.now.kept ≡ None }
    {
        self.fault.is_some() && self.kept.is_none()
    }

    /// Whether no placement taken is at fault.
    pub(crate) fn is_faultless(&self) -> bool
        ensures { IsTrue result → self.now.fault ≡ None }
    {
        self.fault.is_none()
    }

    /// Counts n more placements, whatever they are, after the first fault. None is kept.
    pub(crate) fn pass_over(&mut self, n: usize)
        requires times { self.old.count + n ≤ 2 ^ 32 }
        requires faulty { IsSome self.old.fault }
        requires unkept { self.old.kept ≡ None }
        ensures { (m : Floor) (places more : List (List ℕ)) → length more ≡ n → HasJudged m places self.old → HasJudged m (places ++ more) self.new }
    {
        self.count += n;
    }

    /// Takes the first placement.
    fn take_first(&mut self, place: &[u32]) -> Result<(), AllocError>
        requires first { self.old.count ≡ 0 }
        requires faultless { self.old.fault ≡ None }
        requires robots { length place.now < 2 ^ 32 }
        ensures taken { (m : Floor) (places : List (List ℕ)) → HasJudged m places self.old → OnOk result (HasJudged m (places ++ place.now ∷ []) self.new) }
        ensures counted { OnOk result (self.new.count ≡ self.old.count + 1) }
        ensures kept { IfErr result (λ _. self.new ≡ self.old) }
        ensures grown { OnOk result (self.new.kept ≡ option_map (λ places. places ++ place.now ∷ []) self.old.kept) }
    {
        match first_fault(self.alloc, self.grid, place)? {
            Some(fault) => {
                keep(&mut self.kept, place)?;
                self.fault = Some(fault_between(0, fault, place, place));
            }
            None => {
                let first = Vec::from_slice(self.alloc, place)?;
                let last = Vec::from_slice(self.alloc, place)?;
                let costs = zeros(self.alloc, place.len())?;
                keep(&mut self.kept, place)?;
                self.costs = costs;
                self.checker = StepChecker::new(self.alloc, place.len());
                self.first = first;
                self.last = last;
            }
        }
        self.count = 1;
        Ok(())
    }

    /// Takes a placement after the first.
    fn take_next(&mut self, place: &[u32]) -> Result<(), AllocError>
        requires later { 1 ≤ self.old.count }
        requires times { self.old.count < 2 ^ 32 }
        requires faultless { self.old.fault ≡ None }
        ensures taken { (m : Floor) (places : List (List ℕ)) → HasJudged m places self.old → OnOk result (HasJudged m (places ++ place.now ∷ []) self.new) }
        ensures counted { OnOk result (self.new.count ≡ self.old.count + 1) }
        ensures kept { IfErr result (λ _. self.new ≡ self.old) }
        ensures grown { OnOk result (self.new.kept ≡ option_map (λ places. places ++ place.now ∷ []) self.old.kept) }
    {
        let time = self.count as u32;
        let found = step_fault(&mut self.checker, self.grid, &self.last, place)?;
        keep(&mut self.kept, place)?;
        if let Some(fault) = found {
            self.fault = Some(fault_between(time, fault, &self.last, place));
            self.count += 1;
            return Ok(());
        }
        step(&mut self.last, &mut self.costs, place, time);
        self.count += 1;
        Ok(())
    }

    /// The number of placements taken.
    pub fn count(&self) -> usize
        ensures { result ≡ self.now.count }
    {
        self.count
    }

    /// The first fault of the placements taken; `None` if they are a valid plan.
    pub fn fault(&self) -> Option<PlanFault>
        ensures first { (m : Floor) (places : List (List ℕ)) → HasJudged m places self.now → MatchOption result (IsValidPlan m places) (λ f. IsPlanFault m places f.time f.fault) }
        ensures cells { (m : Floor) (places : List (List ℕ)) (f : PlanFault) → HasJudged m places self.now → result ≡ Some f → HasCells places f }
        ensures lawful { (m : Floor) (places : List (List ℕ)) → HasJudged m places self.now → IsValidPlan m places → result ≡ None }
    {
        self.fault
    }

    /// The first placement, unless it is at fault.
    pub(crate) fn first(&self) -> &[u32]
        ensures exact { result.now ≡ self.now.first }
        ensures few { length result.now < 2 ^ 32 }
    {
        self.first.as_slice()
    }

    /// The map on which the robots are.
    pub(crate) fn grid(&self) -> &'a Grid<B>
        ensures { result.now ≡ self.now.floor }
    {
        self.grid
    }

    /// The last placement before the first fault.
    pub(crate) fn last(&self) -> &[u32]
        ensures exact { result.now ≡ self.now.last }
        ensures placed { IsPlacement self.now.floor result.now }
        ensures few { length result.now < 2 ^ 32 }
    {
        self.last.as_slice()
    }

    /// The report on the plan of all placements taken, with the number of robots that end on these goals; or the first
    /// placement at fault. Without goals it says nothing of them.
    pub fn verdict(&self, goals: Option<&[u32]>) -> Result<PlanReport, PlanFault>
        requires { 1 ≤ self.now.count }
        ensures valid { (m : Floor) (places : List (List ℕ)) → HasJudged m places self.now → OnOk result (IsValidPlan m places) }
        ensures report { (m : Floor) (places : List (List ℕ)) → HasJudged m places self.now → IfOk result (λ report. IsReportOf (goals_in goals.entry) places report) }
        ensures fault { (m : Floor) (places : List (List ℕ)) → HasJudged m places self.now → IfErr result (λ f. IsPlanFault m places f.time f.fault) }
        ensures cells { (m : Floor) (places : List (List ℕ)) → HasJudged m places self.now → IfErr result (λ f. HasCells places f) }
        ensures lawful { (m : Floor) (places : List (List ℕ)) → HasJudged m places self.now → IsValidPlan m places → IsOk result }
        // The judge has the first and the last placement of a valid plan.
        ensures first { (m : Floor) (places : List (List ℕ)) → HasJudged m places self.now → OnOk result (self.now.first ≡ place_at places 0) }
        ensures last { (m : Floor) (places : List (List ℕ)) → HasJudged m places self.now → OnOk result (self.now.last ≡ last_of places) }
    {
        match self.fault {
            Some(fault) => Err(fault),
            None => Ok(report_of(
                self.count - 1,
                goals,
                self.last.as_slice(),
                self.costs.as_slice(),
            )),
        }
    }
}
