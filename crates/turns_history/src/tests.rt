//! The laws are called.

use crate::law::{
    entries_keep_turns, histories_are_fleets, limits_by_span, served_errands_arrive,
    served_waits_are_bounded,
};
use std::alloc::Global;

#[test]
fn laws_do_nothing(_rt: HostRuntime) {
    histories_are_fleets::<Global>();
    limits_by_span();
    entries_keep_turns::<Global>();
    served_waits_are_bounded::<Global>();
    served_errands_arrive::<Global>();
}
