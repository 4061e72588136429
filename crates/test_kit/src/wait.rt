//! A wait compared with a bound.

ghost use Rattle.std.specs.Prelude.{◌≡◌, ◌↔◌, ◌<◌, codes};

/// How a wait compares with a bound, in words.
pub fn beside_bound(wait: u64, bound: u64) -> &'static str
    ensures below { (result.now ≡ codes "below") ↔ (wait < bound) }
{
    if wait < bound { "below" } else { "not below" }
}
