//! Steps as an independent model makes them.

use crate::asked::leads_to;
use crate::cases::cases;

#[test]
fn robots_go_as_in_the_model(rt: HostRuntime) {
    for case in cases() {
        assert!(rt; leads_to(&rt, case.from, case.order, case.each, case.cells, case.to));
    }
}
