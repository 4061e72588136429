//! A caller of `fleet_book`.

ghost use Rattle.std.specs.Prelude.{◌≡◌, IfSome};
ghost use Rattle.fleet_book.specs.Limits.{AreValid};

use fleet_book::Limits;

/// The limits of a fleet whose robots have at most this many errands; `None` if no fleet may have that many.
pub fn with_queue(queue: u32) -> Option<Limits>
    ensures { IfSome result (λ limits. AreValid limits × (limits.queue ≡ queue)) }
{
    let limits = Limits {
        queue,
        ..Limits::DEFAULT
    };
    if limits.is_valid() {
        Some(limits)
    } else {
        None
    }
}
