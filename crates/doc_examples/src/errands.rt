//! A caller of `fleet_queue`.

ghost use Rattle.std.specs.Prelude.{◌≡◌, ◌<◌, ◌++◌, ◌∷◌, [], length};

use fleet_queue::{Errand, ErrandQueue};

/// Adds an errand to a queue that has room for it.
pub fn add_errand(queue: &mut ErrandQueue, errand: Errand)
    requires { length queue.old.items < queue.old.capacity }
    ensures { queue.new.items ≡ queue.old.items ++ errand ∷ [] }
{
    let _added = queue.try_push(errand);
}
