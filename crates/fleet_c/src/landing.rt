//! An arrival that a tick shows.

ghost use Rattle.std.specs.Prelude.{◌≡◌};
ghost use Rattle.fleet_c.specs.Forms.{arrival_of};

use fleet_history::Arrival;

/// An arrival that a tick shows.
#[repr(C)]
#[derive(Clone, Copy)]
pub struct Landing {
    /// The errand's number among the client's accepted errands.
    pub number: u64,
    pub robot: u32,
    pub client: u32,
    /// The robot's cell after the tick.
    pub cell: u32,
    pub stamp: u32,
}

impl Landing {
    /// For C, after a tick to these cells.
    pub(crate) fn of(arrival: Arrival, cells: &[u32]) -> Landing
        ensures { result ≡ arrival_of cells.now arrival }
    {
        let cell = match cells.get(arrival.robot as usize) {
            Some(cell) => *cell,
            None => 0,
        };
        Landing {
            number: arrival.number,
            robot: arrival.robot,
            client: arrival.client,
            cell,
            stamp: arrival.stamp,
        }
    }
}
