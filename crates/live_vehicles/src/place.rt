//! How far a robot is planned, and how far it has come.

ghost use Rattle.std.specs.Prelude.{◌≡◌};
ghost use Rattle.live_vehicles.specs.Places.{nowhere, place_of, stand_of, stepped};

use crate::stand::{Arrived, Stand};

/// How far a robot is planned, and how far it has come. Steps are numbered from 1; 0 stands for none.
#[derive(Clone, Copy, Debug, PartialEq, Eq)]
pub struct Place {
    /// The cell of the last planned step.
    pub cell: u32,
    /// The step of its last planned move.
    pub moved: u64,
    /// The step of its last move that has begun.
    pub begun: u64,
    /// The step of the last move that it has reached.
    pub reached: u64,
}

/// The place of a robot; of none if there is no robot with this number.
pub(crate) fn place_of(places: &[Place], robot: u32) -> Place
    ensures { result ≡ place_of places.now robot }
{
    match places.get(robot as usize) {
        Some(place) => *place,
        None => Place {
            cell: 0,
            moved: 0,
            begun: 0,
            reached: 0,
        },
    }
}

/// The place after a step in which the robot comes to a cell, or stays there.
pub(crate) fn stepped(place: Place, step: u64, to: u32) -> Place
    ensures { result ≡ stepped step to place }
{
    if to == place.cell {
        return place;
    }
    Place {
        cell: to,
        moved: step,
        begun: place.begun,
        reached: place.reached,
    }
}

/// Where the robot of an arrival in the last planned step is to stand.
pub(crate) fn stand_of(places: &[Place], step: u64, arrived: Arrived) -> Stand
    ensures { result ≡ stand_of places.now step arrived }
{
    let place = place_of(places, arrived.robot);
    Stand {
        client: arrived.client,
        number: arrived.number,
        seq: arrived.seq,
        robot: arrived.robot,
        cell: place.cell,
        step,
        last: place.moved,
    }
}
