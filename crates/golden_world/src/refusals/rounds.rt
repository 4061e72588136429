//! A row by its world's calls, again and again, until no allocation is refused.

ghost use Rattle.std.specs.Prelude.{◌≡◌, IsTrue, string_bytes};

use crate::refusals::calls::{Call, calls_of};
use crate::refusals::case::{Case, Row};
use crate::refusals::closures::play;
use crate::refusals::play::Played;
use crate::refusals::stage::read;
use crate::refusals::tally::{Sheet, tell_end};
use std::alloc::{Alloc, AllocError, Global};
use std::fmt::Write;
use std::thread::Threads;

/// More allocations than any row has.
pub(crate) const MANY: u64 = 1 << 40;

/// Whether two plays of a row came to the same.
fn agree(played: &Played, base: &Played) -> bool
    ensures same { IsTrue result → IsTrue played.now.same }
    ensures answers { IsTrue result →
        string_bytes played.now.showing.answers ≡ string_bytes base.now.showing.answers }
    ensures held { IsTrue result →
        string_bytes played.now.showing.held ≡ string_bytes base.now.showing.held }
{
    played.same && played.showing.is_like(&base.showing)
}

/// Whether a world whose call was refused holds all that it held before.
fn holds_as<R: Alloc<A = Global> + Threads + Sync>(
    rt: &R,
    row: Row<'_, Call>,
    growth: u64,
    call: usize,
    before: &Played,
) -> Result<bool, AllocError> {
    match play(rt, row, growth, call.saturating_add(1))? {
        Ok(refused) => Ok(refused.showing.holds_like(&before.showing)),
        Err(_) => Ok(false),
    }
}

/// Whether a world holds all that it held before the call that was refused.
fn holds_the_same<R: Alloc<A = Global> + Threads + Sync>(
    rt: &R,
    row: Row<'_, Call>,
    growth: u64,
    call: usize,
) -> Result<bool, AllocError> {
    match play(rt, row, MANY, call)? {
        Ok(before) => holds_as(rt, row, growth, call, &before),
        Err(_) => Ok(false),
    }
}

/// Refuses each allocation in turn. The result is whether it ended after the last allocation, with none lost on the
/// way: an allocation that no call answers for was made up for, by fields that were kept or a list that asked for less,
/// and all came to the same.
fn refuse_each<R: Alloc<A = Global> + Threads + Sync>(
    rt: &R,
    row: Row<'_, Call>,
    base: &Played,
    sheet: &mut Sheet,
) -> Result<bool, AllocError> {
    let mut alike = true;
    for growth in 0..100_000 {
        match play(rt, row, growth, usize::MAX)? {
            Err(stage) => sheet.note_stage(stage),
            Ok(played) => {
                let is_alike = agree(&played, base);
                match played.refused {
                    Some(call) => {
                        let same = is_alike && holds_the_same(rt, row, growth, call)?;
                        sheet.note(call, same);
                    }
                    None if played.spent => return Ok(alike && is_alike),
                    None => {
                        sheet.count();
                        alike &= is_alike;
                    }
                }
            }
        }
    }
    Ok(false)
}

/// Prints a test case that played so, and how each call was refused memory.
fn tell_rounds<R: Alloc<A = Global> + Threads + Sync>(
    rt: &R,
    row: Row<'_, Call>,
    base: &Played,
    told: &mut String,
) -> Result<(), AllocError> {
    let mut sheet = Sheet::new(rt.alloc(), row.calls.len())?;
    let ended = refuse_each(rt, row, base, &mut sheet)?
        && sheet.has_all(MANY.wrapping_sub(base.left));
    sheet.tell(told, &base.showing.answers)?;
    writeln!(told, "{}", base.chapter)?;
    tell_end(told, ended)
}

/// Plays a row with no allocation refused, and prints it.
fn tell_row<R: Alloc<A = Global> + Threads + Sync>(
    rt: &R,
    row: Row<'_, Call>,
    told: &mut String,
) -> Result<(), AllocError> {
    match play(rt, row, MANY, usize::MAX)? {
        Ok(base) => tell_rounds(rt, row, &base, told),
        Err(_) => writeln!(told, "not opened"),
    }
}

/// How many robots a row has, and its calls.
fn robots_and_calls(
    alloc: Global,
    case: Case<'_>,
) -> Result<Option<(usize, Vec<Call>)>, AllocError> {
    match read(alloc, case) {
        Ok((_grid, script)) => {
            let calls = calls_of(alloc, case.script, &script)?;
            Ok(Some((script.starts.len(), calls)))
        }
        Err(_) => Ok(None),
    }
}

/// Prints what each call of a row answered, and how it was refused memory.
pub(crate) fn tell_calls<R: Alloc<A = Global> + Threads + Sync>(
    rt: &R,
    case: Case<'_>,
    told: &mut String,
) -> Result<(), AllocError> {
    match robots_and_calls(rt.alloc(), case)? {
        Some((robots, calls)) => {
            let row = Row {
                case,
                robots,
                calls: calls.as_slice(),
            };
            tell_row(rt, row, told)
        }
        None => writeln!(told, "no row"),
    }
}
