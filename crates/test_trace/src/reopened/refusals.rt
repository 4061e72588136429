//! What a world does not go on from, one reason each.

use super::ground::{limits, reopened};
use fleet_book::Limits;
use fleet_reopen::ReopenFault;
use std::alloc::Global;
use std::process::Abort;

/// A robot on its way for three ticks: it began on cell 0 and goes to cell 5.
const WAY: &str =
    "{\"chapter\":2,\"entries\":[[\"tick\",[3],[],[]]],\"opening\":{\"clients\":[[1,1,1,false]],\"life\":100,\"queue\":4,\"robots\":[[0,false,0,[[0,1,5]],[7,7],[9,9]]],\"tick\":10},\"version\":2}";

/// The robot jumps.
const JUMP: &str =
    "{\"chapter\":2,\"entries\":[[\"tick\",[5],[[0,0,1,7]],[]]],\"opening\":{\"clients\":[[1,1,1,false]],\"life\":100,\"queue\":4,\"robots\":[[0,false,0,[[0,1,5]],[7,7],[9,9]]],\"tick\":10},\"version\":2}";

/// The robot has other laws.
const LAWS: &str =
    "{\"chapter\":2,\"entries\":[],\"opening\":{\"clients\":[[1,1,1,false]],\"life\":100,\"queue\":4,\"robots\":[[0,false,0,[[0,1,5]],[7,8],[9,9]]],\"tick\":10},\"version\":2}";

/// It has waited for four ticks and is three edges from its goal. No two cells are further apart than three, so one
/// robot waits less than three.
const WAITED: &str =
    "{\"chapter\":2,\"entries\":[],\"opening\":{\"clients\":[[1,1,1,false]],\"life\":100,\"queue\":4,\"robots\":[[0,false,4,[[0,1,5]],[7,7],[9,9]]],\"tick\":10},\"version\":2}";

/// Why no world goes on from the chapter.
fn fault_of(rt: &impl Abort, alloc: Global, text: &str, limits: Limits) -> Option<ReopenFault> {
    match reopened(rt, alloc, text, limits) {
        Ok(core) => {
            let _ended = core.finish();
            None
        }
        Err(fault) => Some(fault),
    }
}

#[test]
fn refused(rt: HostRuntime) {
    let (rt, alloc) = (&rt, rt.alloc());
    let none = Limits {
        clock: 0,
        ..limits()
    };
    assert!(rt; fault_of(rt, alloc, WAY, none) == Some(ReopenFault::Limits));
    assert!(rt;
        fault_of(rt, alloc, JUMP, limits()) == Some(ReopenFault::Illegal { at: 1, rule: 4 })
    );
    assert!(rt; fault_of(rt, alloc, LAWS, limits()) == Some(ReopenFault::Laws));
    let longer = Limits {
        queue: 5,
        ..limits()
    };
    assert!(rt; fault_of(rt, alloc, WAY, longer) == Some(ReopenFault::Differs));
}

#[test]
fn spent(rt: HostRuntime) {
    let (rt, alloc) = (&rt, rt.alloc());
    // The chapter ends at tick 11.
    let early = Limits {
        clock: 10,
        ..limits()
    };
    assert!(rt; fault_of(rt, alloc, WAY, early) == Some(ReopenFault::Spent));
    let last = Limits {
        chapters: 3,
        ..limits()
    };
    assert!(rt; fault_of(rt, alloc, WAY, last) == Some(ReopenFault::Spent));
    assert!(rt; fault_of(rt, alloc, WAITED, limits()) == Some(ReopenFault::Waits));
    assert!(rt; fault_of(rt, alloc, WAY, limits()).is_none());
}
