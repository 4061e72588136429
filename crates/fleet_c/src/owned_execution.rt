//! A pointer that owns the execution of a plan, or nothing.

ghost use Rattle.std.specs.Prelude.{◌≡◌, Option, None, Some, IsSome};
ghost use Rattle.fleet_c.specs.OwnsExecution.{HeldValue, owned_code, owns};

use crate::parts::Parts;
use fleet_execution::Execution;
use std::alloc::Global;
use std::marker::Model;

/// A pointer that owns an execution, or nothing.
#[repr(C)]
#[derive(Drop)]
pub struct OwnedExecution {
    at: *mut u8,
    alloc: Global,
    pub ghost held: { Option HeldValue } by { owned_code },
}

impl Model for OwnedExecution {
    ghost also_owns = { λ o. owns o.alloc o.at o.held };
}

impl OwnedExecution {
    /// One that owns what the box owned.
    pub fn of(held: Box<Execution>) -> OwnedExecution
        ensures { result.held ≡ Some held.value }
    {
        OwnedExecution::of_parts(Parts::of(held))
    }

    /// The box of what it owns.
    pub fn into_box(self) -> Box<Execution>
        requires { IsSome self.held }
        ensures { self.held ≡ Some result.value }
    {
        self.into_parts().into_box()
    }

    /// One that owns nothing.
    pub fn nothing(alloc: Global) -> OwnedExecution
        ensures { result.held ≡ None }
    {
        OwnedExecution {
            at: std::ptr::null_mut(),
            alloc,
        }
    }

    fn of_parts(parts: Parts<Execution, Global>) -> OwnedExecution
        ensures { result.held ≡ Some parts.value }
    {
        let Parts { ptr, alloc } = parts;
        OwnedExecution {
            at: ptr as *mut u8,
            alloc,
        }
    }

    fn into_parts(self) -> Parts<Execution, Global>
        requires { IsSome self.held }
        ensures { self.held ≡ Some result.value }
    {
        let OwnedExecution { at, alloc } = self;
        Parts {
            ptr: at as *mut Execution,
            alloc,
        }
    }
}

unsafe impl Send for OwnedExecution {}
