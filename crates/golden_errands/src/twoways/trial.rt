//! The trials of a seed.

ghost use Rattle.fleet_map.specs.Form.{HasSides};
ghost use Rattle.fleet_map.specs.Grammar.{view};

use super::compare::{Ground, compare};
use super::count::Count;
use super::damage::{Stretch, numbers_in, with_other_bytes, with_other_number};
use super::dice::Dice;
use super::script::texts_of;
use crate::run::trace_of;
use fleet_grid::Grid;
use fleet_map::{MapText, read_map};
use fleet_trace::{read_trace, write_trace};
use golden_judge::{Site, later_chapter};
use std::alloc::{Alloc, AllocError, Global};
use std::sync::Wait;
use std::thread::Threads;
use test_kit::Answer;

/// How often the bytes of each trace are damaged.
const BYTE_DAMAGES: u32 = 10;

/// Judges a trace with another number in this place.
fn try_number(
    alloc: Global,
    ground: &Ground<'_>,
    dice: &mut Dice,
    text: &[u8],
    place: Stretch,
) -> Result<Answer, AllocError> {
    let damaged = with_other_number(alloc, dice, text, place)?;
    compare(alloc, ground, &damaged)
}

/// Judges a trace with other bytes.
fn try_bytes(
    alloc: Global,
    ground: &Ground<'_>,
    dice: &mut Dice,
    text: &[u8],
) -> Result<Answer, AllocError> {
    let damaged = with_other_bytes(alloc, dice, text)?;
    compare(alloc, ground, &damaged)
}

/// Damages each number of a trace once.
fn damage_numbers(
    alloc: Global,
    ground: &Ground<'_>,
    dice: &mut Dice,
    text: &[u8],
    count: &mut Count,
) -> Result<(), AllocError> {
    for place in &numbers_in(alloc, text)? {
        count.add_number(try_number(alloc, ground, dice, text, *place)?);
    }
    Ok(())
}

/// Damages each number of a trace once, and its bytes several times.
fn damage(
    alloc: Global,
    ground: &Ground<'_>,
    dice: &mut Dice,
    text: &[u8],
    count: &mut Count,
) -> Result<(), AllocError> {
    damage_numbers(alloc, ground, dice, text, count)?;
    for _time in 0..BYTE_DAMAGES {
        count.add_bytes(try_bytes(alloc, ground, dice, text)?);
    }
    Ok(())
}

/// The text of a later chapter of a trace. None where it is no trace.
fn later_text(alloc: Global, dice: &mut Dice, text: &[u8]) -> Result<Option<String>, AllocError> {
    let Ok(chapter) = read_trace(alloc, text) else {
        return Ok(None);
    };
    let behind = dice.below(chapter.entries.len() as u64) as usize;
    let later = later_chapter(alloc, chapter, behind)?;
    Ok(Some(write_trace(alloc, &later)?))
}

/// Judges a later chapter and its damages.
fn try_later(
    alloc: Global,
    ground: &Ground<'_>,
    dice: &mut Dice,
    text: &[u8],
    count: &mut Count,
) -> Result<(), AllocError> {
    count.add_later(compare(alloc, ground, text)?);
    damage(alloc, ground, dice, text, count)
}

/// Judges a world's trace and a later chapter of it, and their damages.
fn try_trace(
    alloc: Global,
    ground: &Ground<'_>,
    dice: &mut Dice,
    text: &[u8],
    count: &mut Count,
) -> Result<(), AllocError> {
    count.add_world(compare(alloc, ground, text)?);
    damage(alloc, ground, dice, text, count)?;
    match later_text(alloc, dice, text)? {
        Some(later) => try_later(alloc, ground, dice, later.as_bytes(), count),
        None => Ok(()),
    }
}

/// The trials of a trace on the map that it was written on.
fn try_on(
    alloc: Global,
    map: MapText,
    dice: &mut Dice,
    text: &[u8],
    count: &mut Count,
) -> Result<(), AllocError>
    requires { HasSides (view map) }
{
    let site = Site::new(alloc, &map)?;
    let grid = Grid::new(map)?;
    let ground = Ground {
        grid: &grid,
        site: &site,
    };
    try_trace(alloc, &ground, dice, text, count)
}

/// The trials of the trace of a world, where its map is one.
fn try_world(
    alloc: Global,
    map: &[u8],
    dice: &mut Dice,
    text: &[u8],
    count: &mut Count,
) -> Result<(), AllocError> {
    match read_map(alloc, map) {
        Ok(map) => try_on(alloc, map, dice, text, count),
        Err(_) => Ok(()),
    }
}

/// The trials of one seed.
pub(crate) fn try_seed<R: Alloc<A = Global> + Threads + Sync + Wait>(
    rt: &R,
    seed: u64,
    count: &mut Count,
) -> Result<(), AllocError> {
    let alloc = rt.alloc();
    let mut dice = Dice::from_seed(seed);
    let texts = texts_of(alloc, &mut dice)?;
    let text = trace_of(rt, texts.as_bundle())?;
    try_world(alloc, texts.map.as_bytes(), &mut dice, &text, count)
}
