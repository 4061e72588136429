//! Changes that cannot be made.

use crate::sites::{after_fault, fault_of, refit_of, site};
use fleet_hooks::StampLaw;
use fleet_refit::{AfterFault, Change, ChangeFault, RefitFault};

/// An opening of two robots.
const TWO: &str =
    "{\"clients\":[[3,3,3,false]],\"life\":100,\"queue\":4,\"robots\":[[0,false,null,[],[0,0],[0,0]],[2,false,null,[],[0,0],[0,0]]],\"tick\":7}";

/// An opening of three robots.
const THREE: &str =
    "{\"clients\":[[3,3,3,false]],\"life\":100,\"queue\":4,\"robots\":[[0,false,null,[],[0,0],[0,0]],[2,false,null,[],[0,0],[0,0]],[8,false,null,[],[0,0],[0,0]]],\"tick\":7}";

/// Why one change cannot be made.
fn first(fault: ChangeFault) -> Option<RefitFault> {
    Some(RefitFault::Change { place: 0, fault })
}

/// A robot without a law that has no stamp, or with one.
fn join(cell: u32, high: u32) -> Change {
    Change::Join {
        cell,
        arrival_law: StampLaw { low: 1, high },
        farewell_law: StampLaw { low: 0, high: 0 },
    }
}

#[test]
fn cells_at_fault(rt: HostRuntime) {
    let here = site(&rt);
    let taken = first(ChangeFault::IsTaken { robot: 2 });
    assert!(rt; fault_of(&rt, &here, &[Change::Block { cell: 9 }]) == first(ChangeFault::NoCell));
    assert!(rt; fault_of(&rt, &here, &[Change::Block { cell: 4 }]) == first(ChangeFault::IsWall));
    assert!(rt; fault_of(&rt, &here, &[Change::Block { cell: 2 }]) == taken);
    assert!(rt; fault_of(&rt, &here, &[Change::Open { cell: 9 }]) == first(ChangeFault::NoCell));
    assert!(rt; fault_of(&rt, &here, &[Change::Open { cell: 8 }]) == first(ChangeFault::IsFloor));
    assert!(rt; fault_of(&rt, &here, &[join(2, 1)]) == taken);
    assert!(rt; fault_of(&rt, &here, &[Change::Move { robot: 0, cell: 2 }]) == taken);
    assert!(rt; fault_of(&rt, &here, &[Change::Move { robot: 2, cell: 2 }]) == None);
}

#[test]
fn robots_and_errands_at_fault(rt: HostRuntime) {
    let here = site(&rt);
    let nobody = first(ChangeFault::NoRobot);
    assert!(rt; fault_of(&rt, &here, &[Change::Leave { robot: 3 }]) == nobody);
    assert!(rt; fault_of(&rt, &here, &[Change::Hold { robot: 3 }]) == nobody);
    assert!(rt; fault_of(&rt, &here, &[Change::Move { robot: 3, cell: 9 }]) == nobody);
    assert!(rt; fault_of(&rt, &here, &[Change::Free { robot: 0 }]) == first(ChangeFault::NotHeld));
    assert!(rt; fault_of(&rt, &here, &[join(8, 0)]) == first(ChangeFault::NoStamp));
    let cancel = Change::Cancel {
        client: 0,
        number: 4,
    };
    assert!(rt; fault_of(&rt, &here, &[cancel]) == first(ChangeFault::NoErrand));
}

#[test]
fn later_changes_at_fault(rt: HostRuntime) {
    let here = site(&rt);
    let gone = Change::Leave { robot: 1 };
    let second = Some(RefitFault::Change {
        place: 1,
        fault: ChangeFault::NoRobot,
    });
    assert!(rt; fault_of(&rt, &here, &[gone, Change::Free { robot: 1 }]) == second);
    let held = Change::Hold { robot: 1 };
    let again = Some(RefitFault::Change {
        place: 1,
        fault: ChangeFault::IsHeld,
    });
    assert!(rt; fault_of(&rt, &here, &[held, held]) == again);
    let all = [gone, Change::Leave { robot: 0 }, Change::Hold { robot: 2 }];
    assert!(rt; fault_of(&rt, &here, &all) == Some(RefitFault::NoRobot));
}

#[test]
fn openings_of_another_number_of_robots(rt: HostRuntime) {
    let here = site(&rt);
    assert!(rt; after_fault(&rt, &here, TWO) == Some(AfterFault::Robots));
    assert!(rt; after_fault(&rt, &here, THREE) == None);
    let held = refit_of(&rt, &here, &[Change::Hold { robot: 1 }]);
    assert!(rt; after_fault(&rt, &held.site, TWO) == None);
    assert!(rt; after_fault(&rt, &held.site, THREE) == Some(AfterFault::Robots));
}
