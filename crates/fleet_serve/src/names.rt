//! The names that all values of one serve agree on.

use fleet_office::OfficeName;
use std::alloc::Global;
use std::marker::Brand;

/// The names of an office, the events of the script that is served there, and how many orders a client may send.
pub trait ScriptName: OfficeName<Global> {
    ghost use Rattle.std.specs.Prelude.{ℕ, List};
    ghost use Rattle.fleet_book.specs.declared.event.Event.{Event};

    ghost events: { List Event };

    ghost orders: { ℕ };
}

impl ScriptName for Brand {
    ghost use Rattle.std.specs.Prelude.{[]};

    ghost events = { [] };

    ghost orders = { 0 };
}
