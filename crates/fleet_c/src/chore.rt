//! An open errand.

ghost use Rattle.std.specs.Prelude.{◌≡◌};
ghost use Rattle.fleet_c.specs.Errands.{chore_of};

use fleet_core::OpenErrand;

/// An errand that is accepted, and neither done nor withdrawn, and where it stands.
#[repr(C)]
#[derive(Clone, Copy)]
pub struct Chore {
    /// Its number among the client's accepted errands, from 1.
    pub number: u64,
    /// Its place in the robot's queue, from 1. At place 1 the robot is on its way to the cell.
    pub place: u64,
    pub client: u32,
    /// The robot in whose queue it is.
    pub robot: u32,
    /// The cell that the robot is sent to.
    pub cell: u32,
}

impl Chore {
    /// For C, as the client's.
    pub(crate) fn of(client: u32, errand: OpenErrand) -> Chore
        ensures { result ≡ chore_of client errand }
    {
        Chore {
            number: errand.number,
            place: errand.place as u64,
            client,
            robot: errand.robot,
            cell: errand.cell,
        }
    }
}
