//! A caller of `fleet_core`.

ghost use Rattle.std.specs.Prelude.{◌≡◌, ◌<◌, IfSome, IfNone};
ghost use Rattle.fleet_book.specs.declared.order.Order.{Order};
ghost use Rattle.fleet_history.specs.History.{clients};
ghost use Rattle.fleet_core.specs.Core.{Takes};

use fleet_book::{Order, Verdict};
use fleet_core::World;

/// Gives client 0's order to send a robot to a cell. Returns the verdict; `None` if the order was not taken.
pub fn order(world: &mut World, robot: u32, cell: u32) -> Option<Verdict>
    requires { 0 < clients world.old.core.history }
    ensures taken { IfSome result (λ v. Takes world.old.core 0 (Order.Go robot cell) v world.new.core) }
    ensures kept { IfNone result (world.new.core ≡ world.old.core) }
{
    match world.take(0, Order::Go { robot, cell }) {
        Ok(verdict) => Some(verdict),
        Err(_fault) => None,
    }
}
