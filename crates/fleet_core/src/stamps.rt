//! What the robots' closures return for a tick's arrivals and farewells.

ghost use Rattle.std.specs.Prelude.{◌≡◌, ◌<◌, ℕ, true, false, All, IfSome, is_some, length, map, slice_index, slice_set, vec_len, None};
ghost use Rattle.fleet_hooks.specs.Law.{IsStamp};
ghost use Rattle.fleet_history.specs.Legal.{due_of};
ghost use Rattle.fleet_core.specs.Hooks.{law_at, spare_at, spare_laws, without_all, DoRise, IsLastStamp};
ghost use Rattle.fleet_core.specs.inside.Spent.{spent_if};

use fleet_history::{Arrival, Bye};
use fleet_hooks::{ArrivalHook, ArrivalView, Farewell, FarewellView};
use std::alloc::Allocator;

/// Calls the robots' closures at their arrivals in a tick that brought them to these cells, and writes their stamps.
pub(crate) fn arrive<A: Allocator + Copy>(
    arrived: &mut Vec<Arrival, A>,
    hooks: &[ArrivalHook],
    to: &[u32],
    tick: u64,
)
    requires known { All (λ a. a.robot < length hooks.now) arrived.old.items }
    requires same { length to.now ≡ length hooks.now }
    ensures shows { map due_of arrived.new.items ≡ map due_of arrived.old.items }
    ensures stamps { All (λ a. IsStamp (law_at (map (λ h. h.law) hooks.now) a.robot) a.stamp) arrived.new.items }
{
    stamp_arrivals(arrived.as_mut_slice(), hooks, to, tick);
}

/// Calls the closures of the robots that say farewell in a tick that brought them to these cells, writes their stamps,
/// and consumes the closures.
pub(crate) fn take_leave<A: Allocator + Copy>(
    leaving: &mut Vec<Bye, A>,
    farewells: &mut Vec<Option<Farewell>, A>,
    to: &[u32],
    tick: u64,
)
    requires known { All (λ b. b.robot < vec_len farewells.old) leaving.old.items }
    requires same { length to.now ≡ vec_len farewells.old }
    requires rising { DoRise (map (λ b. b.robot) leaving.old.items) }
    requires unspent { All (λ b. is_some (spare_at farewells.old.items b.robot) ≡ true) leaving.old.items }
    ensures robots { map (λ b. b.robot) leaving.new.items ≡ map (λ b. b.robot) leaving.old.items }
    ensures stamps { All (λ b. IsLastStamp (spare_laws farewells.old.items) b.robot b.stamp) leaving.new.items }
    ensures count { vec_len farewells.new ≡ vec_len farewells.old }
    ensures spent { spare_laws farewells.new.items ≡ without_all (map (λ b. b.robot) leaving.old.items) (spare_laws farewells.old.items) }
{
    stamp_farewells(leaving.as_mut_slice(), farewells, to, tick);
}

fn stamp_arrivals(arrived: &mut [Arrival], hooks: &[ArrivalHook], to: &[u32], tick: u64)
    requires known { All (λ a. a.robot < length hooks.now) arrived.old }
    requires same { length to.now ≡ length hooks.now }
    ensures shows { map due_of arrived.new ≡ map due_of arrived.old }
    ensures stamps { All (λ a. IsStamp (law_at (map (λ h. h.law) hooks.now) a.robot) a.stamp) arrived.new }
{
    for j in 0..arrived.len() {
        let arrival = arrived[j];
        let view = ArrivalView {
            client: arrival.client,
            number: arrival.number,
            robot: arrival.robot,
            cell: to[arrival.robot as usize],
            tick,
        };
        let stamp = hooks[arrival.robot as usize].stamp(view);
        arrived[j] = Arrival { stamp, ..arrival };
    }
}

fn stamp_farewells<A: Allocator + Copy>(
    leaving: &mut [Bye],
    farewells: &mut Vec<Option<Farewell>, A>,
    to: &[u32],
    tick: u64,
)
    requires known { All (λ b. b.robot < vec_len farewells.old) leaving.old }
    requires same { length to.now ≡ vec_len farewells.old }
    requires rising { DoRise (map (λ b. b.robot) leaving.old) }
    requires unspent { All (λ b. is_some (spare_at farewells.old.items b.robot) ≡ true) leaving.old }
    ensures robots { map (λ b. b.robot) leaving.new ≡ map (λ b. b.robot) leaving.old }
    ensures stamps { All (λ b. IsLastStamp (spare_laws farewells.old.items) b.robot b.stamp) leaving.new }
    ensures count { vec_len farewells.new ≡ vec_len farewells.old }
    ensures spent { spare_laws farewells.new.items ≡ without_all (map (λ b. b.robot) leaving.old) (spare_laws farewells.old.items) }
{
    for j in 0..leaving.len() {
        let robot = leaving[j].robot;
        let view = FarewellView {
            robot,
            cell: to[robot as usize],
            tick,
        };
        if let Some(stamp) = last_word(farewells, view) {
            leaving[j] = Bye { robot, stamp };
        }
    }
}

/// Calls the robot's farewell closure, if it was not called yet, and consumes it. Returns its result.
fn last_word<A: Allocator + Copy>(
    farewells: &mut Vec<Option<Farewell>, A>,
    view: FarewellView,
) -> Option<u32>
    requires { view.robot < vec_len farewells.old }
    ensures answers { is_some result ≡ is_some (spare_at farewells.old.items view.robot) }
    ensures stamp { IfSome result (λ stamp. IsLastStamp (spare_laws farewells.old.items) view.robot stamp) }
    ensures count { vec_len farewells.new ≡ vec_len farewells.old }
    ensures spent { spare_laws farewells.new.items ≡ slice_set (spare_laws farewells.old.items) view.robot None }
{
    let farewell = farewells[view.robot as usize].take()?;
    Some(farewell.call(view))
}

/// Calls the farewell closure of a robot that is idle, as `last_word` does; another robot keeps its closure.
pub(crate) fn last_word_if<A: Allocator + Copy>(
    idle: bool,
    farewells: &mut Vec<Option<Farewell>, A>,
    view: FarewellView,
) -> Option<u32>
    requires { view.robot < vec_len farewells.old }
    ensures answers { idle ≡ true → is_some result ≡ is_some (spare_at farewells.old.items view.robot) }
    ensures silent { idle ≡ false → result ≡ None }
    ensures stamp { IfSome result (λ stamp. IsLastStamp (spare_laws farewells.old.items) view.robot stamp) }
    ensures spent { spare_laws farewells.new.items ≡ spent_if idle view.robot (spare_laws farewells.old.items) }
{
    if idle {
        last_word(farewells, view)
    } else {
        None
    }
}
