//! A pointer that owns a fleet, or nothing.

ghost use Rattle.std.specs.Prelude.{◌≡◌, Option, None, Some, IsSome};
ghost use Rattle.fleet_c.specs.Owns.{HeldValue, owned_code, owns};

use crate::fleet::Fleet;
use crate::parts::Parts;
use std::alloc::Global;
use std::marker::Model;

/// A pointer that owns a fleet, or nothing.
#[repr(C)]
#[derive(Drop)]
pub struct Owned {
    at: *mut u8,
    alloc: Global,
    pub ghost held: { Option HeldValue } by { owned_code },
}

impl Model for Owned {
    ghost also_owns = { λ o. owns o.alloc o.at o.held };
}

impl Owned {
    /// One that owns what the box owned.
    pub fn of(held: Box<Fleet>) -> Owned
        ensures { result.held ≡ Some held.value }
    {
        Owned::of_parts(Parts::of(held))
    }

    /// The box of what it owns.
    pub fn into_box(self) -> Box<Fleet>
        requires { IsSome self.held }
        ensures { self.held ≡ Some result.value }
    {
        self.into_parts().into_box()
    }

    /// One that owns nothing.
    pub fn nothing(alloc: Global) -> Owned
        ensures { result.held ≡ None }
    {
        Owned {
            at: std::ptr::null_mut(),
            alloc,
        }
    }

    fn of_parts(parts: Parts<Fleet, Global>) -> Owned
        ensures { result.held ≡ Some parts.value }
    {
        let Parts { ptr, alloc } = parts;
        Owned {
            at: ptr as *mut u8,
            alloc,
        }
    }

    fn into_parts(self) -> Parts<Fleet, Global>
        requires { IsSome self.held }
        ensures { self.held ≡ Some result.value }
    {
        let Owned { at, alloc } = self;
        Parts {
            ptr: at as *mut Fleet,
            alloc,
        }
    }
}

unsafe impl Send for Owned {}
