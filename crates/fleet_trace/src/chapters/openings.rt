//! Whether openings are the same.

ghost use Rattle.std.specs.Prelude.{◌≡◌, ◌↔◌, IsTrue};

use fleet_history::{ClientState, Opening, RobotState};
use fleet_queue::Errand;

/// An item of an opening's lists.
trait Item {
    /// Whether the other is the same.
    fn is_same(&self, other: &Self) -> bool
        ensures { IsTrue result ↔ (self.now ≡ other.now) };
}

impl Item for Errand {
    fn is_same(&self, other: &Errand) -> bool {
        *self == *other
    }
}

impl Item for ClientState {
    fn is_same(&self, other: &ClientState) -> bool {
        *self == *other
    }
}

impl Item for RobotState {
    fn is_same(&self, other: &RobotState) -> bool {
        if self.cell != other.cell || self.shut != other.shut || self.wait != other.wait {
            return false;
        }
        if self.arrival_law != other.arrival_law || self.farewell_law != other.farewell_law {
            return false;
        }
        are_same(self.errands.as_slice(), other.errands.as_slice())
    }
}

/// Whether the lists have the same items in the same order.
fn are_same<T: Item>(items: &[T], others: &[T]) -> bool
    ensures { IsTrue result ↔ (items.now ≡ others.now) }
{
    if items.len() != others.len() {
        return false;
    }
    for place in 0..items.len() {
        if !items[place].is_same(&others[place]) {
            return false;
        }
    }
    true
}

/// Whether chapters with these openings begin with the same state.
pub(crate) fn is_same_opening(opening: &Opening, other: &Opening) -> bool
    ensures { IsTrue result ↔ (opening.now ≡ other.now) }
{
    if opening.tick != other.tick || opening.queue != other.queue || opening.life != other.life {
        return false;
    }
    are_same(opening.clients.as_slice(), other.clients.as_slice())
        && are_same(opening.robots.as_slice(), other.robots.as_slice())
}
