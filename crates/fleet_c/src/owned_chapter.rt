//! A pointer that owns a chapter, or nothing.

ghost use Rattle.std.specs.Prelude.{◌≡◌, Option, None, Some, IsSome};
ghost use Rattle.fleet_c.specs.OwnsChapter.{HeldValue, owned_code, owns};

use crate::parts::Parts;
use fleet_history::Chapter;
use std::alloc::Global;
use std::marker::Model;

/// A pointer that owns a chapter, or nothing.
#[repr(C)]
#[derive(Drop)]
pub struct OwnedChapter {
    at: *mut u8,
    alloc: Global,
    pub ghost held: { Option HeldValue } by { owned_code },
}

impl Model for OwnedChapter {
    ghost also_owns = { λ o. owns o.alloc o.at o.held };
}

impl OwnedChapter {
    /// One that owns what the box owned.
    pub fn of(held: Box<Chapter>) -> OwnedChapter
        ensures { result.held ≡ Some held.value }
    {
        OwnedChapter::of_parts(Parts::of(held))
    }

    /// The box of what it owns.
    pub fn into_box(self) -> Box<Chapter>
        requires { IsSome self.held }
        ensures { self.held ≡ Some result.value }
    {
        self.into_parts().into_box()
    }

    /// One that owns nothing.
    pub fn nothing(alloc: Global) -> OwnedChapter
        ensures { result.held ≡ None }
    {
        OwnedChapter {
            at: std::ptr::null_mut(),
            alloc,
        }
    }

    fn of_parts(parts: Parts<Chapter, Global>) -> OwnedChapter
        ensures { result.held ≡ Some parts.value }
    {
        let Parts { ptr, alloc } = parts;
        OwnedChapter {
            at: ptr as *mut u8,
            alloc,
        }
    }

    fn into_parts(self) -> Parts<Chapter, Global>
        requires { IsSome self.held }
        ensures { self.held ≡ Some result.value }
    {
        let OwnedChapter { at, alloc } = self;
        Parts {
            ptr: at as *mut Chapter,
            alloc,
        }
    }
}

unsafe impl Send for OwnedChapter {}
