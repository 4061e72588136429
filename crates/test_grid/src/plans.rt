//! Plain calls that succeed. The tests of the world run the step of a tick.

use fleet_planner::eldest;

#[test]
fn longest_wait_is_eldest(rt: HostRuntime) {
    assert!(rt; eldest(&[Some(2), None, Some(5), Some(5)]) == Some(2));
    assert!(rt; eldest(&[None, None]) == None);
}
