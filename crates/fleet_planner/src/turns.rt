//! Gives robots other goals.

ghost use Rattle.std.specs.Prelude.{◌≡◌, ℕ, ◌+◌, ◌≤◌, [], List, Option, length, map, vec_capacity, OnOk, OnErr};
ghost use Rattle.fleet_field.specs.Store.{Serves, Keeps};
ghost use Rattle.fleet_grid.specs.Floor.{Floor};
ghost use Rattle.fleet_planner.specs.Aims.{goals_of, AreOn};
ghost use Rattle.fleet_planner.specs.Keys.{holders, fields_of, AreCounted, AreOwn, AreKept};
ghost use Rattle.fleet_planner.specs.Turned.{turned, AreFloorTurns, AreKnownTurns};
ghost use Rattle.fleet_planner.specs.inside.Turns.{dealt, AreFewUses, AreShownOn};

use fleet_field::{FieldCache, FieldStore};
use fleet_grid::Grid;
use std::alloc::{AllocError, Allocator};

/// A robot with its new goal, or none.
#[derive(Clone, Copy, Debug, PartialEq, Eq)]
pub struct GoalChange {
    /// The robot, from 0.
    pub robot: u32,
    /// The goal that it turns to.
    pub goal: Option<u32>,
}

/// Holds the field of each new goal, and puts the keys into `fresh`, one for each change. If a hold fails, the keys
/// held before it are in `fresh`.
fn hold_goals<A: Allocator + Copy, B: Allocator + Copy>(
    cache: &mut FieldCache<A>,
    grid: &Grid<B>,
    store: &mut FieldStore<A>,
    fresh: &mut Vec<Option<usize>, A>,
    turns: &[GoalChange],
) -> Result<(), AllocError>
    requires few { length turns.now ≤ 512 }
    requires floor { AreFloorTurns grid.now turns.now }
    requires uses { AreFewUses store.old 512 }
    requires serves { Serves grid.now store.old }
    requires keeps { Keeps grid.now cache.old }
    requires empty { fresh.old.items ≡ [] }
    requires room { length turns.now ≤ vec_capacity fresh.old }
    ensures counted { (keys : List (Option ℕ)) → AreCounted store.old keys [] → AreCounted store.new keys fresh.new.items }
    ensures shown { AreShownOn store.old store.new }
    ensures goals { OnOk result (goals_of (fields_of store.new fresh.new.items) ≡ map (λ t. t.goal) turns.now) }
    ensures serves { Serves grid.now store.new }
    ensures keeps { Keeps grid.now cache.new }
    ensures room { vec_capacity fresh.new ≡ vec_capacity fresh.old }
{
    for turn in turns {
        let key = match turn.goal {
            Some(goal) => Some(store.hold_from(cache, grid, goal)?),
            None => None,
        };
        fresh.push_reserved(key);
    }
    Ok(())
}

/// Gives each change's robot its new key, and puts the key that it had in its place.
fn deal(keys: &mut [Option<usize>], fresh: &mut [Option<usize>], turns: &[GoalChange])
    requires count { length fresh.old ≡ length turns.now }
    requires known { AreKnownTurns (length keys.old) turns.now }
    ensures dealt { keys.new ≡ dealt turns.now fresh.old keys.old }
    ensures count { length fresh.new ≡ length fresh.old }
    ensures swapped { (key : ℕ) → holders keys.new key + holders fresh.new key ≡ holders keys.old key + holders fresh.old key }
{
    for at in 0..turns.len() {
        let robot = turns[at].robot as usize;
        let key = fresh[at];
        fresh[at] = keys[robot];
        keys[robot] = key;
    }
}

/// Gives the keys in `fresh` back. What nobody holds then goes to what is kept.
fn give_back<A: Allocator + Copy>(
    cache: &mut FieldCache<A>,
    store: &mut FieldStore<A>,
    fresh: &mut Vec<Option<usize>, A>,
)
    requires counted { (keys : List (Option ℕ)) × AreCounted store.old keys fresh.old.items }
    ensures counted { (keys : List (Option ℕ)) → AreCounted store.old keys fresh.old.items → AreCounted store.new keys [] }
    ensures kept { AreKept store.old store.new }
    ensures empty { fresh.new.items ≡ [] }
    ensures room { vec_capacity fresh.new ≡ vec_capacity fresh.old }
    ensures keeps { (m : Floor) → Serves m store.old → Keeps m cache.old → Keeps m cache.new }
{
    for at in 0..fresh.len() {
        if let Some(key) = fresh[at] {
            store.release_to(cache, key);
        }
    }
    fresh.clear();
}

/// Makes the changes. New goals are held before any key is given back, so that all goals stay as they were if memory
/// runs out. Between calls `fresh` is empty.
pub(crate) fn turn_to<A: Allocator + Copy, B: Allocator + Copy>(
    cache: &mut FieldCache<A>,
    grid: &Grid<B>,
    store: &mut FieldStore<A>,
    keys: &mut [Option<usize>],
    fresh: &mut Vec<Option<usize>, A>,
    turns: &[GoalChange],
) -> Result<(), AllocError>
    requires few { length turns.now ≤ length keys.old }
    requires known { AreKnownTurns (length keys.old) turns.now }
    requires floor { AreFloorTurns grid.now turns.now }
    requires own { AreOwn store.old keys.old }
    requires on { AreOn grid.now (fields_of store.old keys.old) }
    requires keeps { Keeps grid.now cache.old }
    requires empty { fresh.old.items ≡ [] }
    requires room { length keys.old ≤ vec_capacity fresh.old }
    ensures own { AreOwn store.new keys.new }
    ensures on { AreOn grid.now (fields_of store.new keys.new) }
    ensures keeps { Keeps grid.now cache.new }
    ensures count { length keys.new ≡ length keys.old }
    ensures goals { OnOk result (goals_of (fields_of store.new keys.new) ≡ turned turns.now (goals_of (fields_of store.old keys.old))) }
    ensures refused { OnErr result (fields_of store.new keys.new ≡ fields_of store.old keys.old) }
    ensures empty { fresh.new.items ≡ [] }
    ensures room { vec_capacity fresh.new ≡ vec_capacity fresh.old }
{
    if let Err(refused) = hold_goals(cache, grid, store, fresh, turns) {
        give_back(cache, store, fresh);
        return Err(refused);
    }
    deal(keys, fresh.as_mut_slice(), turns);
    give_back(cache, store, fresh);
    Ok(())
}
