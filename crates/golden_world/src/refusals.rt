//! Each allocation of memory of a world's calls refused in turn, and what each call answered.
//!
//! The rows stand in a text. A line `= NAME` begins a row, and a bundle of a map and a script stands after it. The
//! script is played twice, by a world's own calls and by a run, over an allocator that refuses one allocation: the
//! first, then the second, until none is refused. Four comments of a script are calls of the world: `#next` begins the
//! next chapter, `#widen CLIENT NUMBER` widens the client's mailbox, `#keep BYTES` says how much of unused fields is
//! kept, and `#ahead` searches the fields of next errands ahead. A row that has them is played by the world's calls
//! alone.
//!
//! A line tells what a call answered. It ends with `same` where each refused call showed and held afterwards what it
//! did before, called no arrival or farewell closure, and answered alike when it was made again; and where what takes
//! memory in any case (a tick, a next chapter, the judge, and all before the calls) was refused once at least. How
//! often is not printed: no promise says it. Of a run, which makes no event again, it ends with `same` where each
//! refused run named the event whose allocation it was: over the events before that one, with the same allocation
//! refused, a run ends well, and over these and that one it names it again. The last line is `no more growths` where
//! as many refusals were noted as the allocator counts allocations in a play that is refused none: none was left out.

mod calls;
mod case;
mod clients;
mod closures;
mod making;
mod play;
mod reruns;
mod rounds;
mod runs;
mod shown;
mod stage;
mod tally;

use case::Case;
use reruns::tell_runs;
use rounds::tell_calls;
use std::alloc::{Alloc, AllocError, Global};
use std::fmt::Write;
use std::thread::Threads;
use test_kit::blocks_of;

/// What is printed of a row.
fn tell_row<R: Alloc<A = Global> + Threads + Sync>(
    rt: &R,
    case: Case<'_>,
    told: &mut String,
) -> Result<(), AllocError> {
    writeln!(told, "= {}", case.name)?;
    tell_calls(rt, case, told)?;
    if case.is_run() {
        tell_runs(rt, case, told)?;
    }
    Ok(())
}

/// What is printed of each row of the text.
pub(crate) fn tell<R: Alloc<A = Global> + Threads + Sync>(
    rt: &R,
    text: &[u8],
    told: &mut String,
) -> Result<(), AllocError> {
    for block in &blocks_of(rt.alloc(), text, b"= ")? {
        if let Some(case) = Case::of(*block) {
            tell_row(rt, case, told)?;
        }
    }
    Ok(())
}
