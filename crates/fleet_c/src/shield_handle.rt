//! The handle to a shield that C holds.

ghost use Rattle.std.specs.Prelude.{◌≡◌, Option, None, Some, is_some, MatchOption, true, false};

use crate::owned_shield::OwnedShield;
use fleet_shield::Shield;
use std::alloc::Global;

/// The handle to a shield that C holds: all zero, or the bytes that one of the exports left there.
#[repr(C)]
#[derive(Drop)]
pub struct ShieldHandle {
    pub owned: OwnedShield,
    is_open: bool,
    ghost agrees: { is_open ≡ is_some owned.held },
}

impl ShieldHandle {
    /// A closed one.
    fn closed(alloc: Global) -> ShieldHandle
        ensures { result.owned.held ≡ None }
    {
        ShieldHandle {
            owned: OwnedShield::nothing(alloc),
            is_open: false,
        }
    }

    /// Whether it owns a value.
    pub fn is_open(&self) -> bool
        ensures { result ≡ is_some self.now.owned.held }
    {
        self.is_open
    }

    /// Takes the value out, and leaves the handle closed.
    pub fn take(&mut self, alloc: Global) -> Option<Box<Shield>>
        ensures closed { self.new.owned.held ≡ None }
        ensures taken { MatchOption result (self.old.owned.held ≡ None) (λ b. self.old.owned.held ≡ Some b.value) }
    {
        let ShieldHandle { owned, is_open } = std::mem::replace(self, ShieldHandle::closed(alloc));
        if is_open {
            Some(owned.into_box())
        } else {
            None
        }
    }

    /// Puts a value into a closed handle, which is then open.
    pub fn put(&mut self, held: Box<Shield>)
        requires { is_some self.old.owned.held ≡ false }
        ensures { self.new.owned.held ≡ Some held.value }
    {
        *self = ShieldHandle {
            owned: OwnedShield::of(held),
            is_open: true,
        };
    }
}

/// Accepts only what may move between threads.
fn crosses<T: Send>(_item: &T) {}

/// Passes a handle, which is proved only if a handle may move between threads.
fn handle_crosses(shield: &ShieldHandle) {
    crosses(shield);
}
