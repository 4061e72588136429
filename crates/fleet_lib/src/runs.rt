//! Plans with many robots, and two runs, on a page.

ghost use Rattle.std.specs.Prelude.{◌≡◌, ◌≤◌, ◌||◌, true, length, vec_len, IfOk};
ghost use Rattle.fleet_view.specs.Logs.{is_log};
ghost use Rattle.fleet_lib.specs.Check.{good};
ghost use Rattle.fleet_lib.specs.Runs.{IsLogSaid, IsManySaid, IsPageSaid, IsPairSaid, IsTracesSaid, IsTwoSaid, is_run, pair_refused};
ghost use Rattle.fleet_lib.specs.Said.{said_of};

use crate::plan_trace::plan_refused;
use crate::said::Said;
use crate::view::faulty;
use fleet_plans::{MOST_PLAN_BYTES, is_plan};
use fleet_view::{RunFault, ViewFault, is_log, log_page, many_page, pair_page, view_page};
use std::alloc::{AllocError, Global};

/// The answer with a page.
fn shown(alloc: Global, page: Vec<u8>) -> Said
    ensures { said_of result ≡ good page.items 0 }
{
    Said {
        output: page,
        status: 0,
        complaint: String::new(alloc),
    }
}

/// The answer with a page, if there is one.
fn said_many(alloc: Global, page: Option<Vec<u8>>) -> Option<Said>
    ensures { IsPageSaid page result }
{
    match page {
        Some(page) => Some(shown(alloc, page)),
        None => None,
    }
}

/// The answer to a map and a plan that is read, valid or not, and has more than 512 robots: its page. `None` for any other
/// text.
pub fn answer_many(alloc: Global, map: &[u8], plan: &[u8]) -> Result<Option<Said>, AllocError>
    requires { length plan.now ≤ MOST_PLAN_BYTES }
    ensures { IfOk result (IsManySaid map.now plan.now) }
{
    let page = many_page(alloc, map, plan)?;
    Ok(said_many(alloc, page))
}

/// The answer if runs cannot be shown.
fn pair_refused(alloc: Global, fault: RunFault) -> Result<Said, AllocError>
    ensures { IfOk result (λ s. said_of s ≡ pair_refused fault) }
{
    match fault {
        RunFault::Map(fault) => faulty(alloc, ViewFault::Map(fault)),
        RunFault::Plan(answer) => plan_refused(alloc, answer),
        RunFault::Trace(fault) => faulty(alloc, ViewFault::Trace(fault)),
        RunFault::OffMap(number) => faulty(alloc, ViewFault::OffMap(number)),
        RunFault::NoMemory => faulty(alloc, ViewFault::NoMemory),
    }
}

/// The answer to a map and a log of an execution: its page.
pub fn answer_log(alloc: Global, map: &[u8], log: &[u8]) -> Result<Said, AllocError>
    requires { is_log log.now ≡ true }
    ensures { IfOk result (λ s. IsLogSaid map.now log.now (said_of s)) }
{
    match log_page(alloc, map, log) {
        Ok(page) => Ok(shown(alloc, page)),
        Err(fault) => pair_refused(alloc, fault),
    }
}

/// The answer to two runs.
fn answer_pair(alloc: Global, map: &[u8], one: &[u8], other: &[u8]) -> Result<Said, AllocError>
    requires one { length one.now ≤ MOST_PLAN_BYTES }
    requires other { length other.now ≤ MOST_PLAN_BYTES }
    ensures { IfOk result (λ s. IsPairSaid map.now one.now other.now (said_of s)) }
{
    match pair_page(alloc, map, one, other) {
        Ok(page) => Ok(shown(alloc, page)),
        Err(fault) => pair_refused(alloc, fault),
    }
}

/// The answer to two traces.
fn answer_traces(
    alloc: Global,
    map: &[u8],
    one: Vec<u8>,
    other: Vec<u8>,
) -> Result<Said, AllocError>
    requires one { vec_len one ≤ MOST_PLAN_BYTES }
    requires other { vec_len other ≤ MOST_PLAN_BYTES }
    ensures { IfOk result (λ s. IsTracesSaid map.now one.items other.items (said_of s)) }
{
    let texts = [one, other];
    match view_page(alloc, map, &texts) {
        Ok(page) => Ok(shown(alloc, page)),
        Err(ViewFault::Chapter(_)) => answer_pair(alloc, map, &texts[0], &texts[1]),
        Err(ViewFault::Map(fault)) => faulty(alloc, ViewFault::Map(fault)),
        Err(ViewFault::Trace(fault)) => faulty(alloc, ViewFault::Trace(fault)),
        Err(ViewFault::OffMap(number)) => faulty(alloc, ViewFault::OffMap(number)),
        Err(ViewFault::NoMemory) => faulty(alloc, ViewFault::NoMemory),
    }
}

/// Whether a text is a plan or a log, and so no trace.
fn is_run(text: &[u8]) -> bool
    ensures { result ≡ is_run text.now }
{
    is_plan(text) || is_log(text)
}

/// Whether one of two texts is no trace.
fn has_run(one: &[u8], other: &[u8]) -> bool
    ensures { result ≡ is_run one.now || is_run other.now }
{
    is_run(one) || is_run(other)
}

/// The answer to a map and two texts that are to be shown on one page. Two traces of which the second continues the first are
/// chapters; else the two are runs next to each other, each a plan, valid or not, a log of an execution or a trace.
pub fn answer_two(
    alloc: Global,
    map: &[u8],
    one: Vec<u8>,
    other: Vec<u8>,
) -> Result<Said, AllocError>
    requires one { vec_len one ≤ MOST_PLAN_BYTES }
    requires other { vec_len other ≤ MOST_PLAN_BYTES }
    ensures { IfOk result (λ s. IsTwoSaid map.now one.items other.items (said_of s)) }
{
    if has_run(&one, &other) {
        return answer_pair(alloc, map, &one, &other);
    }
    answer_traces(alloc, map, one, other)
}
