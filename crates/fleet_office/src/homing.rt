//! Which clients were returned.

ghost use Rattle.std.specs.Prelude.{◌≡◌, ◌≢◌, ◌<◌, ◌≤◌, ℕ, length, Some, IfSome, IfNone, slice_get};
ghost use Rattle.fleet_lanes.specs.Ends.{ClientView};
ghost use Rattle.fleet_office.specs.Concluded.{IsMissing, AreTwice};
ghost use Rattle.fleet_office.specs.Views.{AreDistinct, cores};

use fleet_lanes::Client;
use std::alloc::Allocator;

/// The first of these numbers that no client has.
pub(crate) fn missing<A: Allocator>(clients: &[Client<A>], count: u32) -> Option<u32>
    ensures some { IfSome result (λ c. (c < count) × IsMissing clients.now c) }
    ensures none { IfNone result ((c : ℕ) → c < count → (k : ℕ) × (x : ClientView A) × (slice_get clients.now k ≡ Some x) × (x.number ≡ c)) }
{
    for c in 0..count {
        let Some(_place) = place_of(clients, c, 0) else {
            return Some(c);
        };
    }
    None
}

/// The first place from `from` on with this number.
pub(crate) fn place_of<A: Allocator>(
    clients: &[Client<A>],
    number: u32,
    from: usize,
) -> Option<usize>
    ensures some { IfSome result (λ k. (from ≤ k) × (k < length clients.now) × ((x : ClientView A) → slice_get clients.now k ≡ Some x → x.number ≡ number)) }
    ensures none { IfNone result ((k : ℕ) (x : ClientView A) → from ≤ k → slice_get clients.now k ≡ Some x → x.number ≢ number) }
{
    for k in from..clients.len() {
        if clients[k].number() == number {
            return Some(k);
        }
    }
    None
}

/// A number that two clients have.
pub(crate) fn twice<A: Allocator>(clients: &[Client<A>]) -> Option<u32>
    ensures some { IfSome result (λ c. AreTwice clients.now c) }
    ensures none { IfNone result (AreDistinct (cores clients.now)) }
{
    for k in 0..clients.len() {
        let number = clients[k].number();
        if let Some(_place) = place_of(clients, number, k + 1) {
            return Some(number);
        }
    }
    None
}
