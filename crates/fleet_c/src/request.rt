//! An order of a list of orders.

ghost use Rattle.std.specs.Prelude.{◌≡◌};
ghost use Rattle.fleet_c.specs.Forms.{order_of};

use fleet_book::Order;

/// A robot is to go to a cell.
pub const ORDER_GO: u32 = 1;
/// The client's last order.
pub const ORDER_CLOSE: u32 = 2;
/// An errand is given up.
pub const ORDER_WITHDRAW: u32 = 3;

/// An order of a client.
#[repr(C)]
#[derive(Clone, Copy)]
pub struct Request {
    /// Of a withdrawal: the errand. Else not read.
    pub number: u64,
    pub kind: u32,
    pub client: u32,
    /// Of a go. Else not read.
    pub robot: u32,
    /// Of a go. Else not read.
    pub cell: u32,
}

impl Request {
    /// The order, if there is such a kind.
    pub(crate) fn order(&self) -> Option<Order>
        ensures { result ≡ order_of self.now }
    {
        if self.kind == ORDER_GO {
            Some(Order::Go {
                robot: self.robot,
                cell: self.cell,
            })
        } else if self.kind == ORDER_CLOSE {
            Some(Order::Close)
        } else if self.kind == ORDER_WITHDRAW {
            Some(Order::Withdraw {
                number: self.number,
            })
        } else {
            None
        }
    }
}
