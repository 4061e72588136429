//! Which robot has waited longest, and whether any waits.

ghost use Rattle.std.specs.Prelude.{◌≡◌, ◌↔◌, ℕ, ◌+◌, ◌<◌, ◌≤◌, None, length, IsTrue, MatchOption};
ghost use Rattle.fleet_pibt.specs.Order.{wait_of};
ghost use Rattle.fleet_pibt.specs.Eldest.{IsEldest, IsEldestOf};

use fleet_pibt::comes_before;

/// The eldest of some robots and one more, where `found` is that of the others.
fn longer(waits: &[Option<u64>], found: Option<u32>, robot: u32) -> Option<u32>
    requires known { robot < length waits.now }
    requires found { MatchOption found ((r : ℕ) → r < robot → wait_of waits.now r ≡ None) (λ e. IsEldestOf (wait_of waits.now) robot e) }
    ensures { MatchOption result ((r : ℕ) → r < robot + 1 → wait_of waits.now r ≡ None) (λ e. IsEldestOf (wait_of waits.now) (robot + 1) e) }
{
    let Some(_wait) = waits[robot as usize] else {
        return found;
    };
    match found {
        Some(eldest) => if comes_before(waits, eldest, robot) {
            found
        } else {
            Some(robot)
        },
        None => Some(robot),
    }
}

/// The robot that has waited longest, and of several that have the one of least number; `None` if no robot waits.
pub fn eldest(waits: &[Option<u64>]) -> Option<u32>
    requires { length waits.now ≤ 512 }
    ensures { MatchOption result ((r : ℕ) → wait_of waits.now r ≡ None) (λ e. IsEldest waits.now e) }
{
    let mut found = None;
    for robot in 0..waits.len() {
        found = longer(waits, found, robot as u32);
    }
    found
}

/// Whether nobody waits.
pub fn is_nobody(waits: &[Option<u64>]) -> bool
    ensures { IsTrue result ↔ ((r : ℕ) → wait_of waits.now r ≡ None) }
{
    for r in 0..waits.len() {
        if let Some(_wait) = waits[r] {
            return false;
        }
    }
    true
}
