//! Traces judged in two ways: by the judge of fleet_trace, and by a reading of the rules that shares no code with it,
//! golden_judge's.
//!
//! The traces are those of seeded worlds, as the program `errands` writes them, and of their later chapters, whose
//! openings its own reading reckons; each of them with one number damaged at a time, and with damaged bytes. The counts
//! are noted.

mod compare;
mod count;
mod damage;
mod dice;
mod script;
mod trial;

use count::Count;
use std::alloc::{Alloc, AllocError, Global};
use std::fmt::Write;
use std::sync::Wait;
use std::thread::Threads;
use trial::try_seed;

/// The number of worlds.
const WORLDS: u64 = 300;

/// Whether both ways give one answer on each seed, and notes how often to which.
pub(crate) fn tell<R: Alloc<A = Global> + Threads + Sync + Wait>(
    rt: &R,
    told: &mut Vec<u8>,
    notes: &mut String,
) -> Result<(), AllocError> {
    let mut count = Count::NONE;
    for seed in 1..WORLDS + 1 {
        try_seed(rt, seed, &mut count)?;
    }
    writeln!(notes, "{count:?}")?;
    told.extend_from_slice(count.text(WORLDS).as_bytes())?;
    Ok(())
}
