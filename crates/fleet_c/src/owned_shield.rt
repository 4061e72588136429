//! A pointer that owns a shield, or nothing.

ghost use Rattle.std.specs.Prelude.{◌≡◌, Option, None, Some, IsSome};
ghost use Rattle.fleet_c.specs.OwnsShield.{HeldValue, owned_code, owns};

use crate::parts::Parts;
use fleet_shield::Shield;
use std::alloc::Global;
use std::marker::Model;

/// A pointer that owns a shield, or nothing.
#[repr(C)]
#[derive(Drop)]
pub struct OwnedShield {
    at: *mut u8,
    alloc: Global,
    pub ghost held: { Option HeldValue } by { owned_code },
}

impl Model for OwnedShield {
    ghost also_owns = { λ o. owns o.alloc o.at o.held };
}

impl OwnedShield {
    /// One that owns what the box owned.
    pub fn of(held: Box<Shield>) -> OwnedShield
        ensures { result.held ≡ Some held.value }
    {
        OwnedShield::of_parts(Parts::of(held))
    }

    /// The box of what it owns.
    pub fn into_box(self) -> Box<Shield>
        requires { IsSome self.held }
        ensures { self.held ≡ Some result.value }
    {
        self.into_parts().into_box()
    }

    /// One that owns nothing.
    pub fn nothing(alloc: Global) -> OwnedShield
        ensures { result.held ≡ None }
    {
        OwnedShield {
            at: std::ptr::null_mut(),
            alloc,
        }
    }

    fn of_parts(parts: Parts<Shield, Global>) -> OwnedShield
        ensures { result.held ≡ Some parts.value }
    {
        let Parts { ptr, alloc } = parts;
        OwnedShield {
            at: ptr as *mut u8,
            alloc,
        }
    }

    fn into_parts(self) -> Parts<Shield, Global>
        requires { IsSome self.held }
        ensures { self.held ≡ Some result.value }
    {
        let OwnedShield { at, alloc } = self;
        Parts {
            ptr: at as *mut Shield,
            alloc,
        }
    }
}

unsafe impl Send for OwnedShield {}
