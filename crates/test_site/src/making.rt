//! What changes make of a chapter's end.
//!
//! The map is a ring of eight cells round the wall 4, as in `test_refit`:
//!
//! ```text
//! 0 1 2
//! 3 @ 5
//! 6 7 8
//! ```

ghost use Rattle.fleet_map.specs.Form.{HasSides};
ghost use Rattle.fleet_map.specs.Grammar.{view};

use crate::texts::{AGAIN, HELD, record_of};
use fleet_history::Chapter;
use fleet_hooks::StampLaw;
use fleet_map::{MapText, read_map};
use fleet_refit::{Change, ChangeFault, RefitFault};
use fleet_site::{Made, MakeFault, SiteRecord, make, write_site};
use fleet_trace::{push_opening, read_trace};
use std::alloc::{Alloc, Global};
use std::process::Abort;

const RING: &str = "type octile\nheight 3\nwidth 3\nmap\n...\n.@.\n...\n";

/// Cell 8 is a wall, and robot 1 is held on cell 6.
const WALLED: &str = "type octile\nheight 3\nwidth 3\nmap\n...\n.@.\n@.@\n";

/// Robot 0 has waited three for cell 8 and goes to cell 2 after it; robot 1 has waited one for cell 0; robot 2 has no errand.
const FIRST: &str =
    "{\"chapter\":1,\"entries\":[],\"opening\":{\"clients\":[[3,3,3,false]],\"life\":100,\"queue\":4,\"robots\":[[0,false,3,[[0,1,8],[0,2,2]],[0,0],[0,0]],[6,false,1,[[0,3,0]],[0,0],[0,0]],[2,false,null,[],[0,0],[0,0]]],\"tick\":7},\"version\":2}";

/// Robots 0 and 2 after the first changes.
const SECOND: &str =
    "{\"chapter\":2,\"entries\":[],\"opening\":{\"clients\":[[3,3,3,false]],\"life\":100,\"queue\":4,\"robots\":[[0,false,0,[[0,2,2]],[0,0],[0,0]],[2,false,null,[],[0,0],[0,0]]],\"tick\":7},\"version\":2}";

/// The opening of the chapter after the second changes: robots 1, 2 and 3.
const THIRD: &str =
    "{\"clients\":[[3,3,3,false]],\"life\":100,\"queue\":4,\"robots\":[[6,false,null,[],[0,0],[0,0]],[2,false,null,[],[0,0],[0,0]],[7,false,null,[],[0,0],[0,0]]],\"tick\":7}";

const LAW: StampLaw = StampLaw { low: 0, high: 0 };

fn map_of(rt: &(impl Alloc<A = Global> + Abort), text: &str) -> MapText
    ensures { HasSides (view result) }
{
    read_map(rt.alloc(), text.as_bytes()).expect(rt, "a map")
}

fn chapter_of(rt: &(impl Alloc<A = Global> + Abort), text: &str) -> Chapter {
    read_trace(rt.alloc(), text.as_bytes()).expect(rt, "a trace")
}

/// The text of the record that is made.
fn text_of(rt: &(impl Alloc<A = Global> + Abort), record: &SiteRecord) -> String {
    write_site(rt.alloc(), record).expect(rt, "memory for a text")
}

/// The second changes, made of the second chapter after the record of the first ones.
fn made_after(rt: &(impl Alloc<A = Global> + Abort)) -> Made {
    let changes = [
        Change::Free { robot: 1 },
        Change::Join {
            cell: 7,
            arrival_law: LAW,
            farewell_law: LAW,
        },
        Change::Leave { robot: 0 },
        Change::Cancel {
            client: 0,
            number: 3,
        },
    ];
    let (map, chapter, record) = (
        map_of(rt, WALLED),
        chapter_of(rt, SECOND),
        record_of(rt, HELD),
    );
    make(rt.alloc(), map, Some(&record), &chapter, &changes).expect(rt, "changes that can be made")
}

/// Why changes of the first chapter are not made on a map.
fn fault_of(
    rt: &(impl Alloc<A = Global> + Abort),
    map: &str,
    before: Option<&SiteRecord>,
    changes: &[Change],
) -> Option<MakeFault> {
    let (map, chapter) = (map_of(rt, map), chapter_of(rt, FIRST));
    match make(rt.alloc(), map, before, &chapter, changes) {
        Ok(_made) => None,
        Err(fault) => Some(fault),
    }
}

#[test]
fn a_wall_and_a_robot_that_is_held(rt: HostRuntime) {
    let changes = [Change::Block { cell: 8 }, Change::Hold { robot: 1 }];
    let (map, chapter) = (map_of(&rt, RING), chapter_of(&rt, FIRST));
    let made = make(rt.alloc(), map, None, &chapter, &changes).expect(&rt, "two changes");
    assert!(rt; text_of(&rt, &made.record).as_str() == HELD);
}

#[test]
fn the_held_one_is_freed_another_joins_and_one_leaves(rt: HostRuntime) {
    let made = made_after(&rt);
    let mut text = String::new(rt.alloc());
    push_opening(rt.alloc(), &mut text, &made.refit.opening).expect(&rt, "memory for a text");
    assert!(rt; text_of(&rt, &made.record).as_str() == AGAIN);
    assert!(rt; text.as_str() == THIRD);
    assert!(rt; made.refit.grid.is_floor(6));
    assert!(rt; !made.refit.grid.is_floor(8));
}

#[test]
fn changes_that_are_not_made(rt: HostRuntime) {
    let taken = RefitFault::Change {
        place: 1,
        fault: ChangeFault::IsTaken { robot: 0 },
    };
    let twice = [Change::Block { cell: 1 }, Change::Block { cell: 0 }];
    let record = record_of(&rt, HELD);
    assert!(rt; fault_of(&rt, RING, None, &twice) == Some(MakeFault::Refit(taken)));
    assert!(rt; fault_of(&rt, WALLED, None, &[]) == Some(MakeFault::Chapter));
    assert!(rt; fault_of(&rt, RING, Some(&record), &[]) == Some(MakeFault::Robots));
    assert!(rt; fault_of(&rt, RING, None, &[]) == None);
}
