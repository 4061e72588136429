//! A chain of four changes, with chapters between them.
//!
//! The map is a ring of eight cells round the wall 4:
//!
//! ```text
//! 0 1 2
//! 3 @ 5
//! 6 7 8
//! ```
//!
//! At tick 7 robot 0 on cell 0 has the errands 1 (to 8) and 2 (to 2) and has waited 3, robot 1 on cell 6 has errand 3 (to 0) and
//! has waited 1, and robot 2 on cell 2 has none. Client 0 sent three orders, which were accepted.

use crate::sites::{after_of, opening_of, refit_of, site};
use fleet_hooks::StampLaw;
use fleet_refit::{Change, Dropped, Site};
use std::alloc::{Alloc, Global};
use std::process::Abort;

/// Robot 1 was held at tick 7. Ticks 8 and 9: robot 0 goes by 1 to 2 and waits two more, robot 2 goes by 5 to 8. Then errand 4 (robot 2
/// to 7) is accepted.
const WHILE_HELD: &str =
    "{\"clients\":[[4,4,4,false]],\"life\":100,\"queue\":4,\"robots\":[[2,false,5,[[0,1,8],[0,2,2]],[0,0],[0,0]],[8,false,0,[[0,4,7]],[0,0],[0,0]]],\"tick\":9}";

/// Robot 3 came to cell 0, with laws of its own.
const JOINED: &str =
    "{\"clients\":[[4,4,4,false]],\"life\":100,\"queue\":4,\"robots\":[[2,false,5,[[0,1,8],[0,2,2]],[0,0],[0,0]],[8,false,0,[[0,4,7]],[0,0],[0,0]],[0,false,null,[],[1,2],[3,3]]],\"tick\":9}";

/// Errand 5 (robot 3 to 1) is accepted. Tick 10: robot 2 arrives at 7, robot 3 at 1, and robot 0 goes to 5. Tick 11: robot 0 arrives
/// at 8, and its next errand is in front. Then errand 6 (robot 2 to 3) is accepted. So client 0 has six verdicts and three arrivals.
const WITH_THE_NEW: &str =
    "{\"clients\":[[6,6,9,false]],\"life\":100,\"queue\":4,\"robots\":[[8,false,0,[[0,2,2]],[0,0],[0,0]],[7,false,0,[[0,6,3]],[0,0],[0,0]],[1,false,null,[],[1,2],[3,3]]],\"tick\":11}";

/// Robot 2 left, with errand 6.
const LEFT: &str =
    "{\"clients\":[[6,6,9,false]],\"life\":100,\"queue\":4,\"robots\":[[8,false,0,[[0,2,2]],[0,0],[0,0]],[1,false,null,[],[1,2],[3,3]]],\"tick\":11}";

/// Tick 12: robot 0 goes to 5, on its way to 2, and robot 3 stays.
const WITHOUT_THE_OLD: &str =
    "{\"clients\":[[6,6,9,false]],\"life\":100,\"queue\":4,\"robots\":[[5,false,1,[[0,2,2]],[0,0],[0,0]],[1,false,null,[],[1,2],[3,3]]],\"tick\":12}";

/// Robot 1 moves again: it is where it was at tick 7, with its errand and its wait.
const FREED: &str =
    "{\"clients\":[[6,6,9,false]],\"life\":100,\"queue\":4,\"robots\":[[5,false,1,[[0,2,2]],[0,0],[0,0]],[6,false,1,[[0,3,0]],[0,0],[0,0]],[1,false,null,[],[1,2],[3,3]]],\"tick\":12}";

const SIXTH: Dropped = Dropped {
    robot: 2,
    client: 0,
    number: 6,
    cell: 3,
};

const JOIN: Change = Change::Join {
    cell: 0,
    arrival_law: StampLaw { low: 1, high: 2 },
    farewell_law: StampLaw { low: 3, high: 3 },
};

/// The site at tick 9, with robot 1 held.
fn with_held(rt: &(impl Alloc<A = Global> + Abort)) -> Site {
    let refit = refit_of(rt, &site(rt), &[Change::Hold { robot: 1 }]);
    after_of(rt, &refit.site, WHILE_HELD)
}

/// The site at tick 11, with robot 3 as well.
fn with_new(rt: &(impl Alloc<A = Global> + Abort)) -> Site {
    let refit = refit_of(rt, &with_held(rt), &[JOIN]);
    after_of(rt, &refit.site, WITH_THE_NEW)
}

/// The site at tick 12, without robot 2.
fn without_old(rt: &(impl Alloc<A = Global> + Abort)) -> Site {
    let refit = refit_of(rt, &with_new(rt), &[Change::Leave { robot: 2 }]);
    after_of(rt, &refit.site, WITHOUT_THE_OLD)
}

#[test]
fn a_chapter_without_changes_goes_on(rt: HostRuntime) {
    let refit = refit_of(&rt, &with_held(&rt), &[]);
    assert!(rt; opening_of(&rt, &refit).as_str() == WHILE_HELD);
    assert!(rt; refit.numbers.as_slice() == [0u32, 2].as_slice());
    assert!(rt; !refit.grid.is_floor(6));
    assert!(rt; refit.grid.is_floor(0));
}

#[test]
fn another_joins_where_one_was(rt: HostRuntime) {
    let refit = refit_of(&rt, &with_held(&rt), &[JOIN]);
    assert!(rt; opening_of(&rt, &refit).as_str() == JOINED);
    assert!(rt; refit.numbers.as_slice() == [0u32, 2, 3].as_slice());
    assert!(rt; refit.dropped.len() == 0);
    assert!(rt; !refit.grid.is_floor(6));
}

#[test]
fn one_leaves_with_an_errand_of_the_chapter_before(rt: HostRuntime) {
    let refit = refit_of(&rt, &with_new(&rt), &[Change::Leave { robot: 2 }]);
    assert!(rt; opening_of(&rt, &refit).as_str() == LEFT);
    assert!(rt; refit.numbers.as_slice() == [0u32, 3].as_slice());
    assert!(rt; refit.dropped.len() == 1);
    assert!(rt; refit.dropped[0] == SIXTH);
}

#[test]
fn the_held_one_goes_on_where_it_was(rt: HostRuntime) {
    let refit = refit_of(&rt, &without_old(&rt), &[Change::Free { robot: 1 }]);
    assert!(rt; opening_of(&rt, &refit).as_str() == FREED);
    assert!(rt; refit.numbers.as_slice() == [0u32, 1, 3].as_slice());
    assert!(rt; refit.dropped.len() == 0);
    assert!(rt; refit.grid.is_floor(6));
}
