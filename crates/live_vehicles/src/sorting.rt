//! Who stands where an errand was done.

ghost use Rattle.std.specs.Prelude.{◌≡◌, ◌++◌, OnOk};
ghost use Rattle.std.specs.List.{filter};
ghost use Rattle.live_vehicles.specs.Places.{is_there, is_late};

use crate::place::{Place, place_of};
use crate::stand::Stand;
use std::alloc::AllocError;

/// Whether the robot has reached the cell of its last move up to the arrival.
pub(crate) fn is_there(places: &[Place], stand: Stand) -> bool
    ensures { result ≡ is_there places.now stand }
{
    stand.last <= place_of(places, stand.robot).reached
}

/// Adds those whose robot is there to one list, and all others to another.
pub(crate) fn sort_out(
    places: &[Place],
    stands: &[Stand],
    due: &mut Vec<Stand>,
    waits: &mut Vec<Stand>,
) -> Result<(), AllocError>
    ensures due { OnOk result (due.new.items ≡ due.old.items ++ filter (is_there places.now) stands.now) }
    ensures waits { OnOk result (waits.new.items ≡ waits.old.items ++ filter (is_late places.now) stands.now) }
{
    let Some((stand, more)) = stands.split_first() else {
        return Ok(());
    };
    if is_there(places, *stand) {
        due.push(*stand)?;
        return sort_out(places, more, due, waits);
    }
    waits.push(*stand)?;
    sort_out(places, more, due, waits)
}
