//! What is told of the text of a map: lines, JSON and pruned maps, worked by hand, and the faults.

use fleet_map::MapFault;
use fleet_survey::{SurveyFault, SurveyForm, survey_text};
use std::alloc::Global;
use std::process::Abort;

/// Two rings of four cells, joined by a corridor of three with a stub of one below its middle.
const RINGS: &[u8] = b"type octile\nheight 3\nwidth 7\nmap\n\
    ..@@@..\n\
    .......\n\
    @@@.@@@\n";

/// What is told of the rings for four robots, and of two cells.
const LINES: &str = "size 3 7\n\
    floor 12\n\
    edges 13\n\
    bridges 5\n\
    bridge 8 9\n\
    bridge 9 10\n\
    bridge 10 11\n\
    bridge 10 17\n\
    bridge 11 12\n\
    robots 4\n\
    roomy 11\n\
    not_roomy 1\n\
    dead_ends 1\n\
    dead_end mouth 10 size 1 cells 17\n\
    served_for 4\n\
    cells 2\n\
    cells_roomy_for 5\n\
    promise 2, the robot that has waited longest comes nearer at every tick: if all errands go to roomy cells\n\
    promise 3, every wait is below a bound: if all errands go to roomy cells\n";

/// The same as JSON.
const JSON: &str =
    "{\"height\":3,\"width\":7,\"floor\":12,\"edges\":13,\"robots\":4,\"roomy\":11,\"not_roomy\":1,\
    \"bridges\":[[8,9],[9,10],[10,11],[10,17],[11,12]],\"dead_ends\":[{\"mouth\":10,\"size\":1,\"cells\":[17]}],\"served_for\":4,\
    \"cells\":2,\"cells_roomy_for\":5,\"promises\":\"some_roomy\"}\n";

/// The rings without the stub.
const PRUNED: &str = "type octile\nheight 3\nwidth 7\nmap\n\
    ..@@@..\n\
    .......\n\
    @@@@@@@\n";

/// Whether this is told of a map for four robots.
fn is_told(rt: &impl Abort, alloc: Global, form: SurveyForm, map: &[u8], wanted: &str) -> bool {
    let cells: &[u8] = b"3,1\n9\n";
    let told = survey_text(alloc, form, 4, map, Some(cells)).expect(rt, "a text");
    told.as_str() == wanted
}

#[test]
fn texts(rt: HostRuntime) {
    assert!(rt; is_told(&rt, rt.alloc(), SurveyForm::Lines, RINGS, LINES));
    assert!(rt; is_told(&rt, rt.alloc(), SurveyForm::Json, RINGS, JSON));
    assert!(rt; is_told(&rt, rt.alloc(), SurveyForm::Pruned, RINGS, PRUNED));
    // what is pruned has nothing left to prune
    assert!(rt;
        is_told(
            &rt,
            rt.alloc(),
            SurveyForm::Pruned,
            PRUNED.as_bytes(),
            PRUNED
        )
    );
}

/// Why nothing is told.
fn fault_of(alloc: Global, map: &[u8], cells: &[u8]) -> Option<SurveyFault> {
    survey_text(alloc, SurveyForm::Lines, 4, map, Some(cells)).err()
}

#[test]
fn faults(rt: HostRuntime) {
    let header = SurveyFault::Map(MapFault::Header(1));
    assert!(rt; fault_of(rt.alloc(), b"", b"") == Some(header));
    assert!(rt; fault_of(rt.alloc(), RINGS, b"9\n2\n") == Some(SurveyFault::Cells(2)));
    assert!(rt; fault_of(rt.alloc(), RINGS, b"").is_none());
}
