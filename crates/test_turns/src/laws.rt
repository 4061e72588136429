//! The laws are called.

use turns_law::{errands_arrive, turns_come_nearer, turns_keep_bound, waits_are_bounded};

#[test]
fn laws_do_nothing(_rt: HostRuntime) {
    turns_come_nearer();
    turns_keep_bound();
    waits_are_bounded();
    errands_arrive();
}
