//! What users say of changes.

use fleet_hooks::StampLaw;
use fleet_refit::Change;
use fleet_site::change_said;

const FIRST: StampLaw = StampLaw { low: 0, high: 0 };

const SECOND: StampLaw = StampLaw { low: 3, high: 9 };

/// The change that a line says.
fn said(line: &str) -> Option<Change> {
    change_said(line.as_bytes(), (FIRST, SECOND))
}

#[test]
fn changes_of_one_number(rt: HostRuntime) {
    let joined = Change::Join {
        cell: 5,
        arrival_law: FIRST,
        farewell_law: SECOND,
    };
    assert!(rt; said("block 7") == Some(Change::Block { cell: 7 }));
    assert!(rt; said(" open\t0 ") == Some(Change::Open { cell: 0 }));
    assert!(rt; said("join 5") == Some(joined));
    assert!(rt; said("leave 511") == Some(Change::Leave { robot: 511 }));
    assert!(rt; said("hold 4294967295") == Some(Change::Hold { robot: 4294967295 }));
    assert!(rt; said("free 03") == Some(Change::Free { robot: 3 }));
}

#[test]
fn changes_of_two_numbers(rt: HostRuntime) {
    let cancelled = Change::Cancel {
        client: 63,
        number: 4294967296,
    };
    assert!(rt; said("move 1 4") == Some(Change::Move { robot: 1, cell: 4 }));
    assert!(rt; said("cancel 63 4294967296") == Some(cancelled));
}

#[test]
fn lines_that_say_none(rt: HostRuntime) {
    for line in [
        "",
        "block",
        "block 1 2",
        "blok 1",
        "block x",
        "block -1",
        "block 4294967296",
    ] {
        assert!(rt; said(line) == None);
    }
    for line in [
        "move 1",
        "move 1 2 3",
        "cancel 0",
        "cancel 0 x",
        "Block 1",
        "hold 1 2",
    ] {
        assert!(rt; said(line) == None);
    }
}
