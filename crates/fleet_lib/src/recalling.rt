//! The notices that are kept to be told again.

ghost use Rattle.std.specs.Prelude.{◌≡◌, IfOk, option_map, string_bytes};
ghost use Rattle.fleet_lib.specs.Recalled.{AddsTrace, recall_asked};

use crate::words::Live;
use fleet_live::Recalls;
use fleet_map::text::number_up_to;
use fleet_trace::{TraceFault, read_trace};
use std::alloc::{AllocError, Global};

/// How many notices of a client may be kept at most.
const MOST: u64 = 16_777_216;

/// How many are kept where a journal is written and nothing else is said.
const USUAL: usize = 65_536;

/// How many notices of each client are kept to be told again; none if the word for it is no such number.
pub fn recall_in(live: &Live) -> Option<usize>
    ensures { result ≡ recall_asked (option_map (λ s. string_bytes s) live.now.recall) live.now.journal }
{
    match &live.recall {
        Some(word) => {
            let number = number_up_to(word.as_bytes(), MOST + 1)?;
            if number <= MOST {
                Some(number as usize)
            } else {
                None
            }
        }
        None if live.journal => Some(USUAL),
        None => Some(0),
    }
}

/// Adds the notices of a chapter before those that are kept. Returns whether there is room for those of a chapter before
/// it; there is none before a text that is no trace.
pub fn recall_trace(alloc: Global, recalls: &mut Recalls, trace: &[u8]) -> Result<bool, AllocError>
    ensures { IfOk result (λ wants. AddsTrace trace.now recalls.old recalls.new wants) }
{
    match read_trace(alloc, trace) {
        Ok(chapter) => recalls.add_chapter(&chapter),
        Err(TraceFault::NoMemory) => Err(AllocError),
        Err(_fault) => Ok(false),
    }
}
