//! When a chapter is handed out unasked.

ghost use Rattle.std.specs.Prelude.{◌≡◌, ◌≤◌, ◌↔◌, IsTrue, MatchOption};
ghost use Rattle.fleet_world.specs.Keeps.{talk};
ghost use Rattle.fleet_talk.specs.Long.{IsLong, chapter_bytes, errand_count, makes_entry, opening_bytes, tick_bytes};

use fleet_book::Event;
use fleet_core::World;
use fleet_history::RobotState;
use fleet_world::Session;

/// The bytes that a robot, a client, an errand in a queue that may be done with its robot's farewell, and an order that may
/// become such an errand take at most in a chapter's text.
const ROBOT: u64 = 136;

const CLIENT: u64 = 80;

const ERRAND: u64 = 152;

const ORDER: u64 = 200;

/// A cell's number in a tick: at most seven digits, and a comma.
const CELL: u64 = 8;

/// What else a chapter takes, and what else a tick does.
const FRAME: u64 = 128;

/// The bytes of an opening with empty queues.
fn opening_bytes(robots: u64, clients: u64) -> u64
    ensures { result ≡ opening_bytes robots clients }
{
    FRAME
        .saturating_add(robots.saturating_mul(ROBOT))
        .saturating_add(clients.saturating_mul(CLIENT))
}

/// The bytes of a tick in which no robot arrives.
fn tick_bytes(robots: u64) -> u64
    ensures { result ≡ tick_bytes robots }
{
    FRAME.saturating_add(robots.saturating_mul(CELL))
}

/// The errands in the queues of these robots.
fn errand_count(robots: &[RobotState]) -> u64
    ensures { result ≡ errand_count robots.now }
{
    robots.iter().fold(
        0,
        |sum: u64, robot| sum.saturating_add(robot.errands.len() as u64),
    )
}

/// No less than the bytes of the chapter's text.
fn chapter_bytes(world: &World) -> u64
    ensures { result ≡ chapter_bytes world.now.core.history }
{
    let chapter = world.chapter();
    let opening = &chapter.opening;
    let robots = opening.robots.len() as u64;
    let ticks = world.clock().saturating_sub(opening.tick);
    let others = (chapter.entries.len() as u64).saturating_sub(ticks);
    let errands = errand_count(opening.robots.as_slice()).saturating_mul(ERRAND);
    let entries = ticks
        .saturating_mul(tick_bytes(robots))
        .saturating_add(others.saturating_mul(ORDER));
    opening_bytes(robots, opening.clients.len() as u64)
        .saturating_add(errands)
        .saturating_add(entries)
}

/// Whether an event makes an entry, unless it is refused.
fn makes_entry(event: Event) -> bool
    ensures { result ≡ makes_entry event }
{
    match event {
        Event::Take(_) | Event::Tick | Event::Shut(_) => true,
        Event::Post(..) | Event::Give(_) | Event::Collect(_) => false,
    }
}

/// Whether the chapter is to be handed out before this event, as its text may have `most` bytes.
pub(crate) fn is_long(session: &Session, most: Option<u64>, event: Event) -> bool
    requires { 0 ≤ session.now.world.core.number }
    ensures { IsTrue result ↔ MatchOption most ⊥ (λ most. IsLong most (talk session.now) event) }
{
    let Some(most) = most else {
        return false;
    };
    let entries = session.world.chapter().entries.len();
    makes_entry(event) && entries > 0 && chapter_bytes(&session.world) >= most
}
