//! The word `map`.

use crate::ends::{FileFault, MOST_MAP_BYTES, complain, file_bytes};
use fleet_lib::{MOST_PLAN_BYTES, MapForm, MapJob, Said, answer_map, tell, write_whole};
use std::alloc::{Alloc, Global};
use std::fs::Files;
use std::io::Write;

/// What is asked for; nothing if two forms are.
fn form_of(asked: &MapJob) -> Option<MapForm> {
    match (asked.json, asked.prune, asked.svg, asked.mend) {
        (false, false, false, false) => Some(MapForm::Lines),
        (true, false, false, false) => Some(MapForm::Json),
        (false, true, false, false) => Some(MapForm::Pruned),
        (false, false, true, false) => Some(MapForm::Picture),
        (false, false, false, true) => Some(MapForm::Mended),
        _ => None,
    }
}

/// The number of robots, if it is one of a fleet.
fn robots_of(asked: &MapJob) -> Option<u32> {
    match asked.robots {
        Some(robots) if (1..=512).contains(&robots) => Some(robots),
        _ => None,
    }
}

/// The answer to the files, which are opened and read in their order.
fn answer_files<'a, R: Files + Alloc<A = Global>>(
    rt: &R,
    form: MapForm,
    robots: u32,
    asked: &'a MapJob,
) -> Result<Said, FileFault<'a>> {
    let map = file_bytes(rt, asked.map.as_str(), MOST_MAP_BYTES)?;
    let Some(name) = &asked.cells else {
        return Ok(answer_map(rt.alloc(), form, robots, &map, None)?);
    };
    let cells = file_bytes(rt, name.as_str(), MOST_PLAN_BYTES)?;
    let listed = Some(cells.as_slice());
    Ok(answer_map(rt.alloc(), form, robots, &map, listed)?)
}

/// Says what a map offers. Returns the status: 0 good, 2 no number of robots or two forms, 3 a file failed, 4 the map
/// or 5 the list of cells is refused, 7 memory ran out.
pub(crate) fn run_map<R: Files + Alloc<A = Global>, W: Write, E: Write>(
    rt: &R,
    asked: &MapJob,
    output: &mut W,
    error: &mut E,
) -> u8 {
    let Some(robots) = robots_of(asked) else {
        write_whole(
            error,
            b"error: '--robots <N>' has to be given, and is from 1 to 512\n",
        );
        return 2;
    };
    let Some(form) = form_of(asked) else {
        write_whole(
            error,
            b"error: '--json', '--prune', '--svg' and '--mend' go without each other\n",
        );
        return 2;
    };
    match answer_files(rt, form, robots, asked) {
        Ok(said) => tell(&said, output, error),
        Err(fault) => complain(rt, fault, error),
    }
}
