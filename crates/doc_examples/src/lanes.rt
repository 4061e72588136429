//! A caller of `fleet_lanes`.

ghost use Rattle.std.specs.Prelude.{◌≡◌, ◌++◌, ◌∷◌, [], IfSome, IfNone, length};
ghost use Rattle.fleet_book.specs.declared.order.Order.{Order};

use fleet_book::Order;
use fleet_lanes::Client;

/// Sends a robot to a cell. Returns the order's number; `None` if the lane is full or the client is closed.
pub fn send(client: &mut Client, robot: u32, cell: u32) -> Option<u64>
    ensures sent { IfSome result (λ number. (number ≡ length client.new.sent)
        × (client.new.sent ≡ client.old.sent ++ Order.Go robot cell ∷ [])) }
    ensures kept { IfNone result (client.new ≡ client.old) }
{
    match client.post(Order::Go { robot, cell }) {
        Ok(number) => Some(number),
        Err(_fault) => None,
    }
}
