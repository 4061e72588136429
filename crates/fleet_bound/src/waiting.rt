//! The bound on waits, as laws of a small relation between moments of a fleet, which knows only waits, distances and
//! arrivals. The bound holds if each tick brings the eldest robot nearer. The functions do nothing.

ghost use Rattle.std.specs.Prelude.{◌≡◌, ℕ, ◌*◌, ◌<◌, ◌≤◌, Bool, Some};
ghost use Rattle.fleet_bound.specs.Waiting.{Moment, IsWithin, IsAdvance, IsPause, IsBounded};
ghost use Rattle.fleet_bound.specs.Errands.{Follows};

/// An advancing tick keeps the bound.
pub fn advance_keeps_bound()
    ensures { (n reach : ℕ) (before after : Moment) (arrives : ℕ → Bool) → IsWithin n reach after →
        IsAdvance n before after arrives → IsBounded n reach before → IsBounded n reach after }
{}

/// Whatever happens between ticks keeps the bound.
pub fn pause_keeps_bound()
    ensures { (n reach : ℕ) (before after : Moment) → IsWithin n reach after →
        IsPause n before after → IsBounded n reach before → IsBounded n reach after }
{}

/// Where nobody has waited yet, the bound holds.
pub fn bound_begins()
    ensures { (n reach : ℕ) (m : Moment) → ((r w : ℕ) → r < n → m.wait r ≡ Some w → w ≡ 0) →
        IsWithin n reach m → IsBounded n reach m }
{}

/// If the bound holds, each wait is below n times reach.
pub fn waits_are_bounded()
    ensures { (n reach r w : ℕ) (m : Moment) → IsBounded n reach m → r < n → m.wait r ≡ Some w → w < n * reach }
{}

/// After `count * n * reach` advancing ticks none of a robot's first `count` errands is left, whatever the waits were.
pub fn errands_arrive()
    ensures { (n reach r count left ticks : ℕ) (from m : Moment) → Follows n reach r from count m left ticks →
        count * (n * reach) ≤ ticks → left ≡ 0 }
{}

/// A fleet whose longest queue has `longest` errands, and that gets no more, has none after `longest * n * reach`
/// advancing ticks.
pub fn fleet_gets_idle()
    ensures { (n reach longest ticks : ℕ) (from m : Moment) (counts left : ℕ → ℕ) →
        ((r : ℕ) → r < n → Follows n reach r from (counts r) m (left r) ticks) →
        ((r : ℕ) → r < n → counts r ≤ longest) → longest * n * reach ≤ ticks → (r : ℕ) → r < n → left r ≡ 0 }
{}
