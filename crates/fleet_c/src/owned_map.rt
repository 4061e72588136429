//! A pointer that owns the grid of a map, or nothing.

ghost use Rattle.std.specs.Prelude.{◌≡◌, Option, None, Some, IsSome};
ghost use Rattle.fleet_c.specs.OwnsMap.{HeldValue, owned_code, owns};

use crate::parts::Parts;
use fleet_grid::Grid;
use std::alloc::Global;
use std::marker::Model;

/// A pointer that owns a grid, or nothing.
#[repr(C)]
#[derive(Drop)]
pub struct OwnedMap {
    at: *mut u8,
    alloc: Global,
    pub ghost held: { Option HeldValue } by { owned_code },
}

impl Model for OwnedMap {
    ghost also_owns = { λ o. owns o.alloc o.at o.held };
}

impl OwnedMap {
    /// One that owns what the box owned.
    pub fn of(held: Box<Grid>) -> OwnedMap
        ensures { result.held ≡ Some held.value }
    {
        OwnedMap::of_parts(Parts::of(held))
    }

    /// The box of what it owns.
    pub fn into_box(self) -> Box<Grid>
        requires { IsSome self.held }
        ensures { self.held ≡ Some result.value }
    {
        self.into_parts().into_box()
    }

    /// One that owns nothing.
    pub fn nothing(alloc: Global) -> OwnedMap
        ensures { result.held ≡ None }
    {
        OwnedMap {
            at: std::ptr::null_mut(),
            alloc,
        }
    }

    fn of_parts(parts: Parts<Grid, Global>) -> OwnedMap
        ensures { result.held ≡ Some parts.value }
    {
        let Parts { ptr, alloc } = parts;
        OwnedMap {
            at: ptr as *mut u8,
            alloc,
        }
    }

    fn into_parts(self) -> Parts<Grid, Global>
        requires { IsSome self.held }
        ensures { self.held ≡ Some result.value }
    {
        let OwnedMap { at, alloc } = self;
        Parts {
            ptr: at as *mut Grid,
            alloc,
        }
    }
}

unsafe impl Send for OwnedMap {}
