//! The opening of a trace, as a JSON value.

ghost use Rattle.std.specs.Prelude.{◌≡◌, IfOk, OnOk};
ghost use Rattle.serde_json.specs.Data.{no_members, object};
ghost use Rattle.serde_json.specs.View.{members_view, view};
ghost use Rattle.fleet_trace.specs.Text.{opening_data};
ghost use Rattle.fleet_trace.specs.Fits.{OpeningFits};

use super::values::write_list;
use fleet_history::Opening;
use serde_json::{Map, Value, put};
use std::alloc::{AllocError, Allocator, Global};

/// Puts in the members of an opening, where there are none.
fn put_opening<A: Allocator + Copy>(
    alloc: Global,
    members: &mut Map<String, Value>,
    opening: &Opening<A>,
) -> Result<(), AllocError>
    requires { members_view members.old.entries ≡ no_members }
    ensures value { OnOk result (object (members_view members.new.entries) ≡ opening_data opening.now) }
    ensures fits { OnOk result (OpeningFits opening.now) }
{
    let (life, queue, tick) = (opening.life, opening.queue, opening.tick);
    let clients = write_list(alloc, opening.clients.as_slice())?;
    put(members, alloc, "clients", clients)?;
    put(members, alloc, "life", Value::from(life))?;
    put(members, alloc, "queue", Value::from(queue))?;
    let robots = write_list(alloc, opening.robots.as_slice())?;
    put(members, alloc, "robots", robots)?;
    put(members, alloc, "tick", Value::from(tick))
}

/// The object of an opening.
pub(crate) fn opening_value<A: Allocator + Copy>(
    alloc: Global,
    opening: &Opening<A>,
) -> Result<Value, AllocError>
    ensures value { IfOk result (λ v. view v ≡ opening_data opening.now) }
    ensures fits { OnOk result (OpeningFits opening.now) }
{
    let mut members = Map::new(alloc);
    put_opening(alloc, &mut members, opening)?;
    Ok(Value::Object(members))
}
