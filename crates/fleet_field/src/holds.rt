//! The fields that are held, in a slab, each with the number of its holds.

ghost use Rattle.std.specs.Prelude.{◌≡◌, ◌≢◌, ◌≤◌, ◌⊎◌, ℕ, ◌+◌, ◌<◌, ◌^◌, [], ◌∷◌, None, Some, true, false, length, vec_len, vec_capacity, slice_index, IfOk, OnErr, IsSome, MatchOption};
ghost use Rattle.fleet_field.specs.Field.{Aim};
ghost use Rattle.fleet_field.specs.Several.{HaveUsesLeft};
ghost use Rattle.fleet_field.specs.Store.{IsOnce, HasUsesLeft};
ghost use Rattle.fleet_field.specs.inside.Uses.{HasGoal, HasFieldOf, IsOneOf, IsFilled, IsUsed, IsUsedOnce, AreShown, AreUsed};
ghost use Rattle.slab.specs.Slab.{get, slab_len, HasRoomFor};
ghost use Rattle.std.specs.List.{Contains};
ghost use Rattle.fleet_field.specs.declared.store.Held.{Held as HeldView};

use crate::compass::Compass;
use crate::keyed::Keyed;
use crate::queue::place_among;
use crate::store::Held;
use std::alloc::{AllocError, Allocator};

/// Counts one use more of the field at a key.
pub(crate) fn use_again<A: Allocator + Copy>(held: &mut Keyed<A>, key: usize)
    requires held { IsSome (get held.old key) }
    requires fewer { (at : HeldView Aim) → get held.old key ≡ Some at → at.uses + 1 < 2 ^ 32 }
    ensures more { (at : HeldView Aim) → get held.old key ≡ Some at → get held.new key ≡ Some record at { uses = at.uses + 1 } }
    ensures others { (other : ℕ) → other ≢ key → get held.new other ≡ get held.old other }
{
    let uses = held[key].uses;
    held.set_uses(key, uses + 1);
}

/// Whether the goal is one of these.
pub(crate) fn is_one_of(goals: &[u32], goal: u32) -> bool
    ensures { result ≡ true → IsOneOf goals.now goal }
{
    place_among(goals, goal).is_some()
}

/// Whether the goal needs a field: no key has it, and it is not among the missing goals yet.
fn is_missing<A: Allocator + Copy>(held: &Keyed<A>, missing: &[u32], goal: u32) -> bool
    ensures { result ≡ false → HasGoal held.now.slots goal ⊎ IsOneOf missing.now goal }
{
    match held.key_of(goal) {
        Some(_) => false,
        None => !is_one_of(missing, goal),
    }
}

/// The goals that no key shows, each once.
pub(crate) fn missing_of<A: Allocator + Copy>(
    alloc: A,
    held: &Keyed<A>,
    goals: &[u32],
) -> Result<Vec<u32, A>, AllocError>
    ensures each { IfOk result (λ missing. (i : ℕ) → i < length goals.now → HasGoal held.now.slots (slice_index goals.now i) ⊎ IsOneOf missing.items (slice_index goals.now i)) }
    ensures only { IfOk result (λ missing. (i : ℕ) → i < length missing.items → IsOneOf goals.now (slice_index missing.items i)) }
{
    let mut missing = Vec::new(alloc);
    for goal in goals {
        if is_missing(held, &missing, *goal) {
            missing.push(*goal)?;
        }
    }
    Ok(missing)
}

/// Adds a field without a hold, unless there is one for its goal.
fn put<A: Allocator + Copy>(held: &mut Keyed<A>, field: Compass<A>)
    requires room { HasRoomFor held.old 1 }
    requires once { IsOnce held.old.slots }
    ensures filled { IsFilled (field ∷ []) held.old.slots held.new.slots }
    ensures there { HasGoal held.new.slots field.goal }
    ensures len { slab_len held.new ≤ slab_len held.old + 1 }
    ensures capacity { held.new.capacity ≡ held.old.capacity }
{
    match held.key_of(field.goal()) {
        Some(_) => {}
        None => {
            let _key = held.insert_reserved(Held { field, uses: 0 });
        }
    }
}

/// Puts fields in without a use, but for those whose goals are there.
fn put_all<A: Allocator + Copy>(held: &mut Keyed<A>, mut fields: Vec<Compass<A>, A>)
    requires room { HasRoomFor held.old (vec_len fields) }
    requires once { IsOnce held.old.slots }
    ensures filled { IsFilled fields.items held.old.slots held.new.slots }
    ensures there { (field : Aim) → Contains fields.items field → HasGoal held.new.slots field.goal }
{
    while let Some(field) = fields.pop() {
        put(held, field);
    }
}

/// Counts one use more of the goal's field, and gives its key.
fn use_goal<A: Allocator + Copy>(held: &mut Keyed<A>, goal: u32) -> usize
    requires once { IsOnce held.old.slots }
    requires there { HasGoal held.old.slots goal }
    requires fewer { HasUsesLeft held.old.slots goal 1 }
    ensures used { IsUsedOnce goal held.old.slots held.new.slots }
    ensures shows { (at : HeldView Aim) × (get held.new result ≡ Some at) × (at.field.goal ≡ goal) }
{
    match held.key_of(goal) {
        Some(key) => {
            use_again(held, key);
            key
        }
        None => unreachable!(),
    }
}

/// Counts one use more for each goal, and appends the keys.
fn use_all<A: Allocator + Copy>(held: &mut Keyed<A>, goals: &[u32], keys: &mut Vec<usize, A>)
    requires once { IsOnce held.old.slots }
    requires there { (i : ℕ) → i < length goals.now → HasGoal held.old.slots (slice_index goals.now i) }
    requires fewer { HaveUsesLeft held.old.slots goals.now }
    requires room { length goals.now ≤ vec_capacity keys.old }
    requires empty { keys.old.items ≡ [] }
    ensures used { IsUsed goals.now held.old.slots held.new.slots }
    ensures shown { AreShown goals.now held.new.slots keys.new.items }
{
    for goal in goals {
        keys.push_reserved(use_goal(held, *goal));
    }
}

/// Adds the fields that were missing, counts one more hold for each goal, and returns the keys in turn. If memory runs
/// out, nothing changes.
pub(crate) fn hold_with<A: Allocator + Copy>(
    alloc: A,
    held: &mut Keyed<A>,
    fields: Vec<Compass<A>, A>,
    goals: &[u32],
) -> Result<Vec<usize, A>, AllocError>
    requires once { IsOnce held.old.slots }
    requires each { (i : ℕ) → i < length goals.now → HasGoal held.old.slots (slice_index goals.now i) ⊎ HasFieldOf fields.items (slice_index goals.now i) }
    requires fewer { HaveUsesLeft held.old.slots goals.now }
    ensures used { IfOk result (λ keys. AreUsed fields.items goals.now held.old.slots held.new.slots keys.items) }
    ensures refused { OnErr result (held.new.slots ≡ held.old.slots) }
{
    let mut keys = Vec::with_capacity(alloc, goals.len())?;
    held.reserve(fields.len())?;
    put_all(held, fields);
    use_all(held, goals, &mut keys);
    Ok(keys)
}
