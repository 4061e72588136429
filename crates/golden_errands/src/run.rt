//! A run of a script on a map, as the program `errands` makes it.

ghost use Rattle.std.specs.Prelude.{◌≡◌, true, IfOk};
ghost use Rattle.errands_lib.specs.Told.{names_two};

use errands_lib::{Job, run_with_kit};
use std::alloc::{Alloc, AllocError, Global};
use std::sync::Wait;
use std::thread::Threads;
use test_kit::Bundle;

/// The job that writes the trace of a run.
fn trace_job(alloc: Global) -> Result<Job, AllocError>
    ensures { IfOk result (λ job. true ≡ names_two job) }
{
    Ok(Job::Run {
        first: String::from_str(alloc, "map")?,
        second: String::from_str(alloc, "script")?,
        trace: true,
    })
}

/// The trace that the program writes of a script on a map.
pub(crate) fn trace_of<R: Alloc<A = Global> + Threads + Sync + Wait>(
    rt: &R,
    bundle: Bundle<'_>,
) -> Result<Vec<u8>, AllocError> {
    let alloc = rt.alloc();
    let job = trace_job(alloc)?;
    let Bundle {
        mut map,
        mut script,
    } = bundle;
    let mut output = Vec::new(alloc);
    let mut complaint = Vec::new(alloc);
    run_with_kit(
        rt,
        &job,
        &mut map,
        Some(&mut script),
        &mut output,
        &mut complaint,
    );
    Ok(output)
}
