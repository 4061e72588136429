//! Fields in a queue, found by their goals and moved to the front.

ghost use Rattle.std.specs.Prelude.{◌≡◌, ◌⊎◌, ◌↔◌, ℕ, ◌+◌, ◌≤◌, length, take, vec_len, IfSome, IfNone, IsSome, IsTrue};
ghost use Rattle.std.specs.List.{All, Contains};
ghost use Rattle.fleet_field.specs.Field.{Aim};
ghost use Rattle.fleet_field.specs.FieldCache.{HasKept, AreKept};

use crate::compass::Compass;
use crate::queue::Queue;
use std::alloc::Allocator;

/// Whether each of the goals has a field.
pub(crate) fn has_all<A: Allocator + Copy>(kept: &Queue<A>, goals: &[u32]) -> bool
    ensures { IsTrue result ↔ AreKept goals.now kept.now.items }
{
    for goal in goals {
        let Some(_at) = kept.place_of(*goal) else {
            return false;
        };
    }
    true
}

/// Takes the field of a goal out.
pub(crate) fn take_field<A: Allocator + Copy>(kept: &mut Queue<A>, goal: u32) -> Option<Compass<A>>
    ensures goal { IfSome result (λ field. field.goal ≡ goal) }
    ensures kept { IfSome result (λ field. Contains kept.old.items field) }
    ensures others { All (Contains kept.old.items) kept.new.items }
    ensures found { HasKept kept.old.items goal → IsSome result }
    ensures within { (n other : ℕ) → HasKept (take n kept.old.items) other → (other ≡ goal) ⊎ HasKept (take n kept.new.items) other }
    ensures none { IfNone result (kept.new.items ≡ kept.old.items) }
    ensures len { IfSome result (λ field. length kept.new.items + 1 ≡ length kept.old.items) }
    ensures none_len { IfNone result (length kept.new.items ≡ length kept.old.items) }
    ensures room { kept.new.room ≡ kept.old.room }
{
    let at = kept.place_of(goal)?;
    Some(kept.remove(at))
}

/// Moves the field of a goal to the front, if there is one.
pub(crate) fn to_front<A: Allocator + Copy>(kept: &mut Queue<A>, goal: u32)
    requires { length kept.old.items ≤ kept.old.room }
    ensures among { All (Contains kept.old.items) kept.new.items }
    ensures within { (n other : ℕ) → HasKept (take n kept.old.items) other → HasKept (take (n + 1) kept.new.items) other }
    ensures first { HasKept kept.old.items goal → HasKept (take 1 kept.new.items) goal }
    ensures len { length kept.new.items ≡ length kept.old.items }
    ensures room { kept.new.room ≡ kept.old.room }
{
    if let Some(field) = take_field(kept, goal) {
        kept.push_front_reserved(field);
    }
}

/// Puts the fields of these goals first, where there are such.
pub(crate) fn all_to_front<A: Allocator + Copy>(kept: &mut Queue<A>, goals: &[u32])
    requires room { length kept.old.items ≤ kept.old.room }
    requires all { AreKept goals.now kept.old.items }
    ensures among { All (Contains kept.old.items) kept.new.items }
    ensures within { AreKept goals.now (take (length goals.now) kept.new.items) }
    ensures len { length kept.new.items ≡ length kept.old.items }
    ensures room { kept.new.room ≡ kept.old.room }
{
    for goal in goals {
        to_front(kept, *goal);
    }
}

/// Puts several fields first.
pub(crate) fn put_first<A: Allocator + Copy>(kept: &mut Queue<A>, mut fields: Vec<Compass<A>, A>)
    requires { length kept.old.items + vec_len fields ≤ kept.old.room }
    ensures among { All (λ field. Contains fields.items field ⊎ Contains kept.old.items field) kept.new.items }
    ensures within { (n other : ℕ) → HasKept (take n kept.old.items) other → HasKept (take (n + vec_len fields) kept.new.items) other }
    ensures first { (field : Aim) → Contains fields.items field → HasKept (take (vec_len fields) kept.new.items) field.goal }
{
    while let Some(field) = fields.pop() {
        kept.push_front_reserved(field);
    }
}
