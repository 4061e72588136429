//! The word `vehicles`.

use crate::execute::{ahead_asked, clearance_asked, complain_of_ahead, complain_of_clearance};
use fleet_lib::{DriveRules, InputFault, VehiclesJob, fail, run_vehicles};
use std::alloc::{Alloc, Global};
use std::io::{BufReader, Read, Write};

/// The greatest number of bytes that are read at once.
const PIECE: usize = 65_536;

/// Stands between a fleet and its vehicles. Returns the status: 2 no such rule or window, or as of `run_vehicles`.
pub(crate) fn drive_vehicles<R: Alloc<A = Global>, I: Read + Drop, W: Write, E: Write>(
    rt: &R,
    asked: &VehiclesJob,
    (input, output): (I, &mut W),
    error: &mut E,
) -> u8 {
    let Some(clearance) = clearance_asked(&asked.clearance) else {
        return complain_of_clearance(error);
    };
    let Some(ahead) = ahead_asked(&asked.ahead) else {
        return complain_of_ahead(error);
    };
    let Ok(mut input) = BufReader::with_capacity(rt.alloc(), PIECE, input) else {
        return fail(InputFault::NoMemory, error);
    };
    run_vehicles(
        rt,
        DriveRules { clearance, ahead },
        &mut input,
        output,
        error,
    )
}
