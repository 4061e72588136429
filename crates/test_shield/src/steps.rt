//! Steps whose cells follow from the rule by hand.

use crate::asked::leads_to;

#[test]
fn robots_push(rt: HostRuntime) {
    // Robot 1 makes room; it does not come the other way; it cannot make room, and robot 0 takes what it likes second.
    assert!(rt; leads_to(&rt, &[0, 1], &[0, 1], 1, &[1, 2], &[1, 2]));
    assert!(rt; leads_to(&rt, &[0, 1], &[0, 1], 2, &[1, 0, 0, 2], &[1, 2]));
    assert!(rt; leads_to(&rt, &[0, 1], &[0, 1], 2, &[1, 5, 0, 0], &[5, 1]));
    // Nobody asks robot 1, which is planned first, to leave.
    assert!(rt; leads_to(&rt, &[0, 1], &[1, 0], 1, &[1, 1], &[0, 1]));
}

#[test]
fn robots_turn_and_follow(rt: HostRuntime) {
    // Four robots go round the square of cells 0, 1, 6 and 5; three follow one another along the corridor.
    assert!(rt;
        leads_to(
            &rt,
            &[0, 1, 6, 5],
            &[2, 0, 1, 3],
            1,
            &[1, 6, 5, 0],
            &[1, 6, 5, 0]
        )
    );
    assert!(rt; leads_to(&rt, &[1, 2, 3], &[0, 1, 2], 1, &[2, 3, 4], &[2, 3, 4]));
}

#[test]
fn the_order_decides(rt: HostRuntime) {
    assert!(rt; leads_to(&rt, &[1, 3], &[0, 1], 2, &[2, 0, 2, 8], &[2, 8]));
    assert!(rt; leads_to(&rt, &[1, 3], &[1, 0], 2, &[2, 0, 2, 8], &[0, 2]));
}

#[test]
fn a_robot_stays_last(rt: HostRuntime) {
    // Without preferences; where both want the same cell; with its own cell first.
    assert!(rt; leads_to(&rt, &[1, 3], &[0, 1], 0, &[], &[1, 3]));
    assert!(rt; leads_to(&rt, &[1, 3], &[0, 1], 1, &[2, 2], &[2, 3]));
    assert!(rt; leads_to(&rt, &[1, 3], &[0, 1], 2, &[1, 2, 2, 3], &[1, 2]));
    assert!(rt; leads_to(&rt, &[], &[], 5, &[], &[]));
}

#[test]
fn a_chain_that_fails_gives_its_cells_back(rt: HostRuntime) {
    // Robot 0 pushes 1, which pushes 2, which can only come back: 2 and 1 stay, and 0 goes to cell 5. Robot 3, which
    // robot 1 would have liked to push, is free to go.
    assert!(rt;
        leads_to(
            &rt,
            &[0, 1, 2],
            &[0, 1, 2],
            2,
            &[1, 5, 2, 2, 1, 1],
            &[5, 1, 2]
        )
    );
    assert!(rt;
        leads_to(
            &rt,
            &[0, 1, 2, 6],
            &[0, 1, 2, 3],
            2,
            &[1, 5, 2, 6, 1, 1, 5, 1],
            &[1, 6, 2, 5]
        )
    );
}
