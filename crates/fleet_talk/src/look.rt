//! How the fleet stands.

ghost use Rattle.std.specs.Prelude.{◌≡◌, ◌<◌, ℕ, None, Some, IfOk, IsSome, length, string_bytes};
ghost use Rattle.fleet_bridge.specs.Roominess.{AreRoomyFor};
ghost use Rattle.fleet_history.specs.History.{place, robots};
ghost use Rattle.fleet_talk.specs.Look.{IsBlocked, IsForeseen, IsLook};

use fleet_core::World;
use fleet_roomy::blocked_at;
use fleet_text::{Standing, look_line};
use std::alloc::{AllocError, Global};

/// Where the eldest robot stands before a dead end that is full of robots, the cell next to it there.
fn blocked_ahead(
    alloc: Global,
    world: &World,
    eldest: Option<u32>,
) -> Result<Option<u32>, AllocError>
    requires known { (e : ℕ) → eldest ≡ Some e → e < robots world.now.core.history }
    requires there { (e : ℕ) → eldest ≡ Some e → e < length (place world.now.core.history) }
    ensures { IfOk result (IsBlocked world.now.core eldest) }
{
    let Some(robot) = eldest else {
        return Ok(None);
    };
    let Some(errand) = world.front(robot) else {
        return Ok(None);
    };
    blocked_at(alloc, world.grid(), world.placement(), robot, errand.cell)
}

/// What is known of the ticks to come.
#[derive(Clone, Copy)]
struct Outlook {
    within: Option<u64>,
    blocked: Option<u32>,
}

/// What is known of the ticks to come: nothing of robots that take turns.
fn foreseen(
    alloc: Global,
    world: &World,
    eldest: Option<u32>,
    roominess: &[u32],
) -> Result<Outlook, AllocError>
    requires rooms { AreRoomyFor world.now.core.floor roominess.now }
    requires known { (e : ℕ) → eldest ≡ Some e → e < robots world.now.core.history }
    requires there { (e : ℕ) → eldest ≡ Some e → e < length (place world.now.core.history) }
    ensures plain { IfOk result (λ f. world.now.core.turns ≡ None → IsForeseen world.now.core eldest f.within f.blocked) }
    ensures turns { IfOk result (λ f. IsSome world.now.core.turns → (f.within ≡ None) × (f.blocked ≡ None)) }
{
    if world.takes_turns() {
        return Ok(Outlook {
            within: None,
            blocked: None,
        });
    }
    Ok(Outlook {
        within: world.roomy_within(roominess),
        blocked: blocked_ahead(alloc, world, eldest)?,
    })
}

/// The line of a look at the world, by what `fleet_bridge::roominess` returned for its map. `AllocError` if memory runs
/// out.
pub fn look_text(alloc: Global, world: &World, roominess: &[u32]) -> Result<String, AllocError>
    requires { AreRoomyFor world.now.core.floor roominess.now }
    ensures { IfOk result (λ text. IsLook world.now.core (string_bytes text)) }
{
    let chapter = world.chapter();
    let eldest = world.eldest();
    let known = foreseen(alloc, world, eldest, roominess)?;
    let standing = Standing {
        tick: world.clock(),
        chapter: chapter.number,
        entries: chapter.entries.len(),
        eldest,
        within: known.within,
        blocked: known.blocked,
    };
    look_line(alloc, standing, world.placement())
}
