//! The answer to the texts of a job's files.

ghost use Rattle.std.specs.Prelude.{◌≡◌, ◌≤◌, false, length, IfOk};
ghost use Rattle.errands_lib.specs.Asked.{is_serve};
ghost use Rattle.fleet_text.specs.Said.{said};
ghost use Rattle.fleet_text.specs.Kit.{kit_laws};
ghost use Rattle.errands_lib.specs.Outcome.{IsJobOutcome};

use crate::job::Job;
use crate::judgement::answer_trace;
use crate::texts::{answer_bundle, answer_map, answer_parts};
use fleet_text::{HookKit, Said};
use std::alloc::{Alloc, AllocError, Global};

/// The answer to the texts of a job that is not a serve. The second text counts only if the job names two files.
pub(crate) fn answer<R: Alloc<A = Global>>(
    rt: &R,
    job: &Job,
    first: &[u8],
    second: &[u8],
    kit: HookKit,
) -> Result<Said, AllocError>
    requires first { length first.now ≤ 16777216 }
    requires second { length second.now ≤ 16777216 }
    requires plain { is_serve job.now ≡ false }
    ensures { IfOk result (λ s. IsJobOutcome (kit_laws kit) job.now first.now second.now (said s)) }
{
    match job {
        Job::Bundle => answer_bundle(rt, first, kit),
        Job::Map { .. } => answer_map(rt.alloc(), first),
        Job::Run {
            first: _,
            second: _,
            trace,
        } => answer_parts(rt, first, second, kit, *trace),
        Job::Judge { .. } => answer_trace(rt.alloc(), first, second),
        Job::Serve { .. } => unreachable!(),
    }
}
