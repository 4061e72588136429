//! What an execution keeps.

mod asking;
mod beginning;
mod checking;
mod planning;
mod reporting;
mod standing;

ghost use Rattle.std.specs.Prelude.{◌≡◌, ℕ, ◌%◌, ◌<◌, ◌≤◌, length, slice_index, slice_index_or, IfOk};
ghost use Rattle.fleet_execution.specs.Course.{course_at};
ghost use Rattle.fleet_execution.specs.Executes.{Executes};
ghost use Rattle.fleet_execution.specs.Checked.{IsPlacement};
ghost use Rattle.fleet_execution.specs.State.{desk_of, slot_of, nobody, standing_on, IsSized};

use crate::queue::Queue;
use crate::robot::{Leave, Planned, Robot, Turning};
use crate::table::Table;
use execution_law::Clearance;
use std::alloc::{AllocError, Allocator, Global};

/// How far robots have come with a plan, and the steps of the plan that are not reached.
#[derive(Drop)]
pub(crate) struct State<A: Allocator = Global> {
    pub(crate) clearance: Clearance,
    /// How many robots there are.
    pub(crate) count: u32,
    /// How many steps the window has.
    pub(crate) ahead: u32,
    /// How many steps were planned.
    pub(crate) steps: u64,
    pub(crate) robots: Table<Robot, A>,
    /// By (step modulo ahead) * count + robot.
    pub(crate) window: Table<Planned, A>,
    /// By step modulo ahead: how many of its moves are not reached.
    pub(crate) unreached: Table<u32, A>,
    /// By cell: who left it last in the plan.
    pub(crate) leaves: Table<Option<Leave>, A>,
    /// By cell: a robot that came to it in a step that was looked at, or any number.
    pub(crate) marks: Table<u32, A>,
    /// Each robot whose next move may begin, or one of its cycle, and maybe more.
    pub(crate) ready: Queue<A>,
    pub(crate) turning: Option<Turning>,
}

impl<A: Allocator + Copy> State<A> {
    pub(crate) fn new(
        alloc: A,
        cells: u32,
        placement: &[u32],
        clearance: Clearance,
        ahead: u32,
    ) -> Result<Self, AllocError>
        requires some { 0 < ahead }
        requires placement { IsPlacement cells placement.now }
        ensures sized { IfOk result (λ s. IsSized s) }
        ensures opened { IfOk result (λ s. Executes (desk_of s) (course_at clearance placement.now)) }
        ensures cells { IfOk result (λ s. length s.leaves ≡ cells) }
        ensures ahead { IfOk result (λ s. s.ahead ≡ ahead) }
    {
        let count = placement.len() as u32;
        let robots = on_cells(alloc, placement)?;
        let blank = Planned {
            to: 0,
            after: None,
            follower: None,
        };
        let window = Table::new(alloc, count as usize * ahead as usize, blank)?;
        let unreached = Table::new(alloc, ahead as usize, 0)?;
        let leaves = Table::new(alloc, cells as usize, None)?;
        let marks = Table::new(alloc, cells as usize, 0)?;
        let ready = Queue::new(alloc, count)?;
        Ok(State {
            clearance,
            count,
            ahead,
            steps: 0,
            robots,
            window,
            unreached,
            leaves,
            marks,
            ready,
            turning: None,
        })
    }
}

/// Robots that stand on these cells.
fn on_cells<A: Allocator>(alloc: A, placement: &[u32]) -> Result<Table<Robot, A>, AllocError>
    ensures length { IfOk result (λ t. length t ≡ length placement.now) }
    ensures robots { IfOk result (λ t. (r : ℕ) → r < length placement.now → slice_index_or t r nobody ≡ standing_on (slice_index placement.now r)) }
{
    let mut robots = Table::new(
        alloc,
        placement.len(),
        Robot {
            cell: 0,
            bound: 0,
            last: 0,
            returned: 0,
            reached: 0,
            turned: 0,
        },
    )?;
    for (robot, cell) in placement.iter().enumerate() {
        robots.set(
            robot,
            Robot {
                cell: *cell,
                bound: *cell,
                last: *cell,
                returned: 0,
                reached: 0,
                turned: 0,
            },
        );
    }
    Ok(robots)
}

impl<A: Allocator> State<A> {
    /// The place of a step in the window.
    pub(crate) fn place(&self, step: u64) -> usize
        requires { 0 < self.now.ahead }
        ensures { result ≡ step % self.now.ahead }
    {
        (step % u64::from(self.ahead)) as usize
    }

    /// The place of what a step has for a robot.
    pub(crate) fn slot(&self, robot: u32, step: u64) -> usize
        requires sized { IsSized self.now }
        requires inside { robot < self.now.count }
        ensures value { result ≡ slot_of self.now.ahead self.now.count robot step }
        ensures inside { result < length self.now.window }
    {
        self.place(step) * self.count as usize + robot as usize
    }
}
