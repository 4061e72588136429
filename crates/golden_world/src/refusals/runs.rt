//! How a run ends, and what its judge says.

use fleet_grid::Grid;
use fleet_trace::{JudgeFault, judge, write_trace};
use fleet_world::{Chapter, OpenFault, Played, Reply, RunFault};
use std::alloc::{AllocError, Allocator, Global};
use std::fmt::Write;
use test_kit::Ending;

/// How a run of a row ended.
#[derive(Drop)]
pub(crate) enum Run {
    /// The opening was refused memory.
    Opening,
    /// The event of this number was.
    Event(usize),
    /// The judge was, and judged alike when it was asked again.
    Judge { again: bool },
    /// The run did not end as a row does.
    Faulty,
    /// Nothing was refused; whether an allocation after the end is.
    Ended { ending: Ending, spent: bool },
}

/// A line for each reply.
fn text_of(alloc: Global, replies: &[Reply]) -> Result<String, AllocError> {
    let mut text = String::new(alloc);
    for reply in replies {
        writeln!(text, "{reply:?}")?;
    }
    Ok(text)
}

/// Judges a chapter, and writes the replies and its trace.
fn judge_chapter<A: Allocator + Copy>(
    alloc: Global,
    heap: A,
    grid: &Grid<A>,
    chapter: &Chapter<A>,
    replies: &[Reply],
) -> Result<Run, AllocError> {
    match judge(heap, grid, chapter) {
        Err(JudgeFault::NoMemory) => {
            let again = judge(heap, grid, chapter) == Ok(());
            Ok(Run::Judge { again })
        }
        Err(JudgeFault::Illegal { .. }) => Ok(Run::Faulty),
        Ok(()) => {
            let ending = Ending {
                replies: text_of(alloc, replies)?,
                trace: write_trace(alloc, chapter)?,
            };
            Ok(Run::Ended {
                ending,
                spent: Vec::from_slice(heap, &[0u8]).is_err(),
            })
        }
    }
}

/// Judges what a run made.
fn judge_run<A: Allocator + Copy>(
    alloc: Global,
    heap: A,
    played: Played<A>,
) -> Result<Run, AllocError> {
    let (grid, chapter) = played.world.finish();
    judge_chapter(alloc, heap, &grid, &chapter, played.replies.as_slice())
}

/// What became of a run.
pub(crate) fn end_run<A: Allocator + Copy>(
    alloc: Global,
    heap: A,
    ended: Result<Played<A>, RunFault>,
) -> Result<Run, AllocError> {
    match ended {
        Ok(played) => judge_run(alloc, heap, played),
        Err(RunFault::NoMemory(event)) => Ok(Run::Event(event)),
        Err(RunFault::Opening(OpenFault::NoMemory)) => Ok(Run::Opening),
        Err(RunFault::Opening(_)) => Ok(Run::Faulty),
    }
}
