//! Where a robot of an execution is.

ghost use Rattle.fleet_c.specs.Executions.{IsWhere};

use fleet_execution::Standing;

/// Where a robot of an execution is.
#[repr(C)]
#[derive(Clone, Copy)]
pub struct Whereabouts {
    /// The cell that it reached last: it stands there, or is leaving it.
    pub cell: u32,
    /// The cell to which it is under way. If it is not, the cell on which it stands.
    pub bound_for: u32,
    /// How many planned moves it has still to begin.
    pub left: u32,
    pub is_under_way: bool,
}

impl Whereabouts {
    /// Of a robot that stands or moves so.
    pub(crate) fn of(standing: Standing) -> Whereabouts
        ensures { IsWhere standing result }
    {
        match standing.bound_for {
            Some(cell) => Whereabouts {
                cell: standing.cell,
                bound_for: cell,
                left: standing.left,
                is_under_way: true,
            },
            None => Whereabouts {
                cell: standing.cell,
                bound_for: standing.cell,
                left: standing.left,
                is_under_way: false,
            },
        }
    }
}
