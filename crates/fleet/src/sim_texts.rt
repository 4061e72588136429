//! The texts of experiments.

use crate::ends::{FileFault, MOST_MAP_BYTES, file_bytes};
use fleet_lib::{MOST_PLAN_BYTES, SimJob, SimSources};
use std::alloc::{Alloc, Global};
use std::fs::Files;

/// The texts of an experiment.
#[derive(Drop)]
pub(crate) struct SimTexts {
    pub(crate) map: Vec<u8>,
    cells: Option<Vec<u8>>,
    scenario: Option<Vec<u8>>,
    tasks: Option<Vec<u8>>,
}

/// The file of a word, if there is one.
fn some_text<'a, R: Files + Alloc<A = Global>>(
    rt: &R,
    name: &'a Option<String>,
) -> Result<Option<Vec<u8>>, FileFault<'a>> {
    match name {
        Some(name) => Ok(Some(file_bytes(rt, name.as_str(), MOST_PLAN_BYTES)?)),
        None => Ok(None),
    }
}

/// The files of the words, which are opened and read in their order.
pub(crate) fn texts_of<'a, R: Files + Alloc<A = Global>>(
    rt: &R,
    asked: &'a SimJob,
) -> Result<SimTexts, FileFault<'a>> {
    let map = file_bytes(rt, asked.map.as_str(), MOST_MAP_BYTES)?;
    let cells = some_text(rt, &asked.cells)?;
    let scenario = some_text(rt, &asked.scenario)?;
    let tasks = some_text(rt, &asked.tasks)?;
    Ok(SimTexts {
        map,
        cells,
        scenario,
        tasks,
    })
}

/// Where the errands come from.
pub(crate) fn sources(texts: &SimTexts) -> SimSources<'_> {
    SimSources {
        cells: texts.cells.as_deref(),
        scenario: texts.scenario.as_deref(),
        tasks: texts.tasks.as_deref(),
    }
}
