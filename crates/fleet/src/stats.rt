//! The word `stats`.

use crate::ends::{FileFault, MOST_MAP_BYTES, complain, file_bytes};
use crate::inputs::{Inputs, PlanUse, traces_in};
use fleet_lib::{Said, Stats, answer_stats, stats_form, tell, write_whole};
use fleet_stats::StatsForm;
use std::alloc::{Alloc, Global};
use std::fs::Files;
use std::io::Write;

/// The answer to the files, which are opened and read in their order.
fn answer_files<'a, R: Files + Alloc<A = Global>>(
    rt: &R,
    form: StatsForm,
    stats: &'a Stats,
) -> Result<Said, FileFault<'a>> {
    let map = file_bytes(rt, stats.map.as_str(), MOST_MAP_BYTES)?;
    match traces_in(rt, &map, &stats.traces, PlanUse::Counted)? {
        Inputs::Traces(traces) => Ok(answer_stats(rt.alloc(), form, &stats.traces, &map, &traces)?),
        Inputs::Refused(said) => Ok(said),
    }
}

/// Prints the figures. Returns the status: 0 good, 2 words that do not go together, 3 a file failed, 4 the map or 6 a trace or a plan
/// is refused, 7 memory ran out.
pub(crate) fn run_stats<R: Files + Alloc<A = Global>, W: Write, E: Write>(
    rt: &R,
    stats: &Stats,
    output: &mut W,
    error: &mut E,
) -> u8 {
    let Some(form) = stats_form(stats) else {
        write_whole(
            error,
            b"error: '--csv <TABLE>' takes one of errands, unfinished, robots, clients, ticks and cells, and goes without '--json' and '--warm-up <N>', a number of ticks\n",
        );
        return 2;
    };
    match answer_files(rt, form, stats) {
        Ok(said) => tell(&said, output, error),
        Err(fault) => complain(rt, fault, error),
    }
}
