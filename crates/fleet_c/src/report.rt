//! What a tick did.

ghost use Rattle.std.specs.Prelude.{◌≡◌};
ghost use Rattle.fleet_c.specs.Forms.{report_of};

use fleet_core::TickReport;

/// What a tick did.
#[repr(C)]
#[derive(Clone, Copy)]
pub struct Report {
    /// The ticks made so far, with this one.
    pub tick: u64,
    /// How many robots arrived.
    pub arrived: u32,
    /// How many robots took their leave.
    pub farewells: u32,
}

impl Report {
    /// For C.
    pub(crate) fn of(did: TickReport) -> Report
        ensures { result ≡ report_of did }
    {
        Report {
            tick: did.tick,
            arrived: did.arrived,
            farewells: did.farewells,
        }
    }
}
