//! Changes that are made.

use crate::sites::{opening_of, refit_of, site};
use fleet_hooks::StampLaw;
use fleet_refit::{Change, Dropped};

/// Cell 8 becomes a wall: robot 0 cannot go there, and begins to wait for cell 2.
const BLOCKED: &str =
    "{\"clients\":[[3,3,3,false]],\"life\":100,\"queue\":4,\"robots\":[[0,false,0,[[0,2,2]],[0,0],[0,0]],[6,false,1,[[0,3,0]],[0,0],[0,0]],[2,false,null,[],[0,0],[0,0]]],\"tick\":7}";

/// Without robot 1.
const LEFT: &str =
    "{\"clients\":[[3,3,3,false]],\"life\":100,\"queue\":4,\"robots\":[[0,false,3,[[0,1,8],[0,2,2]],[0,0],[0,0]],[2,false,null,[],[0,0],[0,0]]],\"tick\":7}";

/// Nothing is changed.
const SAME: &str =
    "{\"clients\":[[3,3,3,false]],\"life\":100,\"queue\":4,\"robots\":[[0,false,3,[[0,1,8],[0,2,2]],[0,0],[0,0]],[6,false,1,[[0,3,0]],[0,0],[0,0]],[2,false,null,[],[0,0],[0,0]]],\"tick\":7}";

/// Robot 2 was carried to the middle, and robot 3 is new on cell 2.
const JOINED: &str =
    "{\"clients\":[[3,3,3,false]],\"life\":100,\"queue\":4,\"robots\":[[0,false,3,[[0,1,8],[0,2,2]],[0,0],[0,0]],[6,false,1,[[0,3,0]],[0,0],[0,0]],[4,false,null,[],[0,0],[0,0]],[2,false,null,[],[1,2],[3,3]]],\"tick\":7}";

/// The ring is cut beside robot 1, which reaches nothing.
const CUT_OFF: &str =
    "{\"clients\":[[3,3,3,false]],\"life\":100,\"queue\":4,\"robots\":[[0,false,3,[[0,1,8],[0,2,2]],[0,0],[0,0]],[6,false,null,[],[0,0],[0,0]],[2,false,null,[],[0,0],[0,0]]],\"tick\":7}";

const FIRST: Dropped = Dropped {
    robot: 0,
    client: 0,
    number: 1,
    cell: 8,
};

const THIRD: Dropped = Dropped {
    robot: 1,
    client: 0,
    number: 3,
    cell: 0,
};

#[test]
fn a_wall_drops_errands_to_it(rt: HostRuntime) {
    let refit = refit_of(&rt, &site(&rt), &[Change::Block { cell: 8 }]);
    assert!(rt; opening_of(&rt, &refit).as_str() == BLOCKED);
    assert!(rt; refit.dropped.len() == 1);
    assert!(rt; refit.dropped[0] == FIRST);
    assert!(rt; !refit.grid.is_floor(8));
    assert!(rt; refit.numbers.len() == 3);
}

#[test]
fn an_errand_in_front_can_be_cancelled(rt: HostRuntime) {
    let cancel = Change::Cancel {
        client: 0,
        number: 1,
    };
    let refit = refit_of(&rt, &site(&rt), &[cancel]);
    assert!(rt; opening_of(&rt, &refit).as_str() == BLOCKED);
    assert!(rt; refit.dropped.len() == 1);
    assert!(rt; refit.dropped[0] == FIRST);
}

#[test]
fn a_robot_that_leaves_keeps_its_number(rt: HostRuntime) {
    let refit = refit_of(&rt, &site(&rt), &[Change::Leave { robot: 1 }]);
    assert!(rt; opening_of(&rt, &refit).as_str() == LEFT);
    assert!(rt; refit.dropped.len() == 1);
    assert!(rt; refit.dropped[0] == THIRD);
    assert!(rt; refit.numbers.len() == 2);
    assert!(rt; refit.numbers[1] == 2);
    assert!(rt; refit.grid.is_floor(6));
}

#[test]
fn a_robot_that_is_held_is_a_wall_and_keeps_its_errands(rt: HostRuntime) {
    let held = refit_of(&rt, &site(&rt), &[Change::Hold { robot: 1 }]);
    assert!(rt; opening_of(&rt, &held).as_str() == LEFT);
    assert!(rt; held.dropped.len() == 0);
    assert!(rt; !held.grid.is_floor(6));
    let free = refit_of(&rt, &held.site, &[Change::Free { robot: 1 }]);
    assert!(rt; opening_of(&rt, &free).as_str() == SAME);
    assert!(rt; free.grid.is_floor(6));
}

#[test]
fn robots_come_and_are_carried(rt: HostRuntime) {
    let join = Change::Join {
        cell: 2,
        arrival_law: StampLaw { low: 1, high: 2 },
        farewell_law: StampLaw { low: 3, high: 3 },
    };
    let carried = Change::Move { robot: 2, cell: 4 };
    let refit = refit_of(&rt, &site(&rt), &[Change::Open { cell: 4 }, carried, join]);
    assert!(rt; opening_of(&rt, &refit).as_str() == JOINED);
    assert!(rt; refit.numbers.len() == 4);
    assert!(rt; refit.dropped.len() == 0);
    assert!(rt; refit.grid.is_floor(4));
}

#[test]
fn a_robot_that_is_cut_off_loses_its_errands(rt: HostRuntime) {
    let cut = [Change::Block { cell: 3 }, Change::Block { cell: 7 }];
    let refit = refit_of(&rt, &site(&rt), &cut);
    assert!(rt; opening_of(&rt, &refit).as_str() == CUT_OFF);
    assert!(rt; refit.dropped.len() == 1);
    assert!(rt; refit.dropped[0] == THIRD);
}
