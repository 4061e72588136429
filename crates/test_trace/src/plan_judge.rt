//! A judge that is given one placement after the other. The expected values were worked out by hand.

use fleet_check::StepFault;
use fleet_grid::Grid;
use fleet_map::read_map;
use fleet_plans::{PlanFault, PlanJudge, PlanReport};
use std::alloc::{AllocError, Global};

/// Two rows of three cells, numbered from 0 to 5; cell 4, the middle of the second row, is a wall.
const MAP: &str = "type octile\nheight 2\nwidth 3\nmap\n...\n.@.\n";

/// The grid of the map.
fn grid(alloc: Global) -> Result<Grid, AllocError> {
    match read_map(alloc, MAP.as_bytes()) {
        Ok(map) => Grid::new(map),
        Err(_) => Err(AllocError),
    }
}

/// Gives the judge these placements.
fn take_all(judge: &mut PlanJudge, places: &[[u32; 2]]) -> Result<(), AllocError> {
    for place in places {
        if judge.count() > 64 {
            return Err(AllocError);
        }
        judge.take(place.as_slice())?;
    }
    Ok(())
}

/// The verdict on these placements.
fn verdict(
    alloc: Global,
    places: &[[u32; 2]],
    goals: Option<&[u32]>,
) -> Result<Result<PlanReport, PlanFault>, AllocError> {
    let grid = grid(alloc)?;
    let mut judge = PlanJudge::new(alloc, &grid);
    take_all(&mut judge, places)?;
    if judge.count() == 0 {
        return Err(AllocError);
    }
    Ok(judge.verdict(goals))
}

/// Robot 0 goes round two corners; robot 1 follows it, waits a step, and moves again.
const PLACES: [[u32; 2]; 4] = [[0, 3], [1, 0], [2, 0], [5, 1]];

#[test]
fn valid_plans_have_a_report(rt: HostRuntime) {
    let all = PlanReport {
        steps: 3,
        robots: 2,
        sum_of_costs: 6,
        makespan: 3,
        on_goals: Some(1),
    };
    let found = verdict(rt.alloc(), &PLACES, Some(&[5, 0])).expect(&rt, "memory");
    assert_eq!(rt; found, Ok(all));
    // In the first two steps robot 1 moves once, at time 1.
    let two = PlanReport {
        steps: 2,
        robots: 2,
        sum_of_costs: 3,
        makespan: 2,
        on_goals: None,
    };
    let found = verdict(rt.alloc(), &PLACES[..3], None).expect(&rt, "memory");
    assert_eq!(rt; found, Ok(two));
}

#[test]
fn the_first_fault_stays(rt: HostRuntime) {
    // At time 2 both robots come to cell 0; at time 3 robot 0 leaps, and at time 4 robot 1 is on the wall.
    let places = [[0, 3], [1, 3], [0, 0], [5, 0], [5, 4]];
    let first = PlanFault {
        time: 2,
        fault: StepFault::Vertex(0, 1),
        // Robot 0 comes from cell 1.
        from: 1,
        to: 0,
    };
    let found = verdict(rt.alloc(), &places, None).expect(&rt, "memory");
    assert_eq!(rt; found, Err(first));
    let grid = grid(rt.alloc()).expect(&rt, "memory");
    let mut judge = PlanJudge::new(rt.alloc(), &grid);
    take_all(&mut judge, &places[..2]).expect(&rt, "memory");
    assert_eq!(rt; judge.fault(), None);
    take_all(&mut judge, &places[2..3]).expect(&rt, "memory");
    assert_eq!(rt; judge.fault(), Some(first));
    take_all(&mut judge, &places[3..]).expect(&rt, "memory");
    assert_eq!(rt; judge.fault(), Some(first));
    assert_eq!(rt; judge.count(), 5);
}
