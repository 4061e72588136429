//! A row by its world's own calls.

use crate::refusals::calls::Call;
use crate::refusals::clients::Clients;
use crate::refusals::making::make;
use crate::refusals::shown::{held, shown};
use fleet_trace::write_trace;
use fleet_world::World;
use std::alloc::{Alloc, AllocError, Allocator, Global};
use std::sync::atomic::{AtomicU64, Ordering};
use std::thread::Threads;
use test_kit::{Refusing, Showing};

/// A row as far as it was played.
#[derive(Drop)]
pub(crate) struct Played {
    /// What each call answered in the end, and what the world held then.
    pub(crate) showing: Showing,
    /// The call that was refused memory.
    pub(crate) refused: Option<usize>,
    /// Whether that call left all that is shown as it was, and called no closure that makes a stamp.
    pub(crate) same: bool,
    /// Whether an allocation after the last call is refused.
    pub(crate) spent: bool,
    /// How many allocations were left then before the one to refuse.
    pub(crate) left: u64,
    /// The trace of the chapter at the end.
    pub(crate) chapter: String,
}

/// What a row is played with: memory for what is told of it, the runtime whose memory is refused, what counts its
/// allocations, and how many stamps the row's closures made.
#[derive(Drop)]
pub(crate) struct Setting<'a, R> {
    pub(crate) alloc: Global,
    pub(crate) rt: &'a R,
    pub(crate) heap: &'a Refusing<Global>,
    pub(crate) stamped: &'a AtomicU64,
}

/// Makes a call, and prints what it answered. None where it was not refused memory; else whether it left all that is
/// shown as it was, and called no closure that makes a stamp.
fn make_watched<A: Allocator + Copy + Send + Sync, R: Alloc<A = A> + Threads + Sync>(
    setting: &Setting<'_, R>,
    world: &mut World<A>,
    clients: &mut Clients,
    call: Call,
    told: &mut String,
) -> Result<Option<bool>, AllocError> {
    let stamps = setting.stamped.load(Ordering::SeqCst);
    let before = shown(setting.alloc, world)?;
    if make(setting.alloc, setting.rt, world, clients, call, told)? {
        return Ok(None);
    }
    let same = shown(setting.alloc, world)? == before;
    Ok(Some(same && setting.stamped.load(Ordering::SeqCst) == stamps))
}

/// Makes the first `last` calls, and tells what each answered in the end. A call that is refused memory is made again,
/// unless it is the last. The result is that call, and whether it had no effect.
fn make_calls<A: Allocator + Copy + Send + Sync, R: Alloc<A = A> + Threads + Sync>(
    setting: &Setting<'_, R>,
    world: &mut World<A>,
    calls: &[Call],
    last: usize,
    told: &mut String,
) -> Result<(Option<usize>, bool), AllocError> {
    let mut clients = Clients::new(setting.alloc);
    let (mut refused, mut same) = (None, true);
    for (at, call) in calls.iter().enumerate() {
        if at >= last {
            break;
        }
        if let Some(is_same) = make_watched(setting, world, &mut clients, *call, told)? {
            refused = Some(at);
            same = is_same;
            if at + 1 < last {
                same &= make(setting.alloc, setting.rt, world, &mut clients, *call, told)?;
            }
        }
    }
    Ok((refused, same))
}

/// Makes the first `last` calls of a row. A call that is refused memory is made again, unless it is the last.
pub(crate) fn play_calls<A: Allocator + Copy + Send + Sync, R: Alloc<A = A> + Threads + Sync>(
    setting: &Setting<'_, R>,
    world: &mut World<A>,
    calls: &[Call],
    last: usize,
) -> Result<Played, AllocError> {
    let mut answers = String::new(setting.alloc);
    let (refused, same) = make_calls(setting, world, calls, last, &mut answers)?;
    let spent = Vec::from_slice(setting.rt.alloc(), &[0u8]).is_err();
    let left = setting.heap.left();
    let chapter = write_trace(setting.alloc, world.chapter())?;
    let held = held(setting.alloc, world)?;
    Ok(Played {
        showing: Showing { answers, held },
        refused,
        same,
        spent,
        left,
        chapter,
    })
}
