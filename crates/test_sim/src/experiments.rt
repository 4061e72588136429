//! A table of two runs.

use fleet_grid::Grid;
use fleet_hooks::{ArrivalHook, Farewell, Hooks, TieHook};
use fleet_map::MapText;
use fleet_sim::{Line, Run, Setting, Sim, TableForm, line_of, table_text};
use fleet_stats::{LaterFigures, figures_after};
use mover::Manner;
use std::alloc::{Alloc, Global};
use std::process::Abort;

/// The ticks before those that are counted, and all ticks.
const WARM_UP: u64 = 5;

const TICKS: u32 = 25;

/// A small hall with a pillar.
fn hall(rt: &impl Abort, alloc: Global) -> Grid {
    let cells = Vec::from_slice(alloc, b"......@.....").expect(rt, "memory for a map");
    let map = MapText {
        height: 3,
        width: 4,
        cells,
    };
    Grid::new(map).expect(rt, "memory for a grid")
}

/// The figures of a run of three robots.
fn figures_of(
    rt: &(impl Alloc<A = Global> + Abort),
    seed: u64,
    stations: Option<&[u32]>,
) -> LaterFigures {
    let alloc = rt.alloc();
    let setting = Setting {
        robots: 3,
        seed,
        manner: Manner::Plain,
        roomy: false,
        stations,
        starts: None,
        tasks: None,
    };
    let (tie, arrival) = (TieHook::fixed([0; 4]), ArrivalHook::fixed(0));
    let hooks = Hooks::alike(alloc, 3, tie, arrival, Farewell::fixed(0)).expect(rt, "hooks");
    let mut sim = Sim::open(alloc, hall(rt, alloc), setting, hooks).expect(rt, "a run");
    sim.begin().expect(rt, "errands");
    for _ in 0..TICKS {
        sim.tick(rt).expect(rt, "a tick");
        sim.order().expect(rt, "errands");
    }
    let ended = sim.finish(alloc).expect(rt, "an end");
    figures_after(alloc, &ended.grid, &ended.chapters, WARM_UP)
        .ok()
        .expect(rt, "figures")
}

/// The lines of one run, and of two.
fn lines_of(rt: &(impl Alloc<A = Global> + Abort)) -> Vec<Line> {
    let alloc = rt.alloc();
    let first = Run {
        figures: figures_of(rt, 1, None),
        times: None,
    };
    let second = Run {
        figures: figures_of(rt, 2, Some(&[0, 11])),
        times: None,
    };
    let one = line_of(alloc, 3, &[first], false).expect(rt, "a line");
    let two = line_of(alloc, 3, &[first, second], false).expect(rt, "a line");
    let mut lines = Vec::new(alloc);
    lines.push(one).expect(rt, "memory for lines");
    lines.push(two).expect(rt, "memory for lines");
    lines
}

#[test]
fn table(rt: HostRuntime) {
    let rt = &rt;
    let lines = lines_of(rt);
    let text = table_text(rt.alloc(), TableForm::Csv, &lines, false).expect(rt, "a table");
    assert_eq!(rt;
        text.as_str(),
        "robots,runs,ticks,frozen,throughput,throughput_deviation,service_median,service_median_deviation,service_p90,service_p90_deviation,service_p99,service_p99_deviation,delay,delay_deviation,delay_ratio,delay_ratio_deviation,longest_wait,longest_wait_deviation\n3,1,20,0,0.800,,3.000,,7.000,,9.000,,1.125,,1.473,,8.000,\n3,2,20,0,0.700,0.141,4.000,1.414,7.000,0.000,8.000,1.414,0.729,0.560,1.269,0.287,7.000,1.414\n"
    );
}
