//! `bench`: measures the kernels on maps that it builds itself. With the name of a kernel it prints a line of
//! `name key=value` for each measure; with `maps` it prints facts about the maps; without a name it prints the names.
//! After `trace` there may be a number of robots: no other fleet then gives back memory that it could take.
#![tactic(auto)]

mod bridges;
mod checks;
mod course;
mod crowd;
mod fields;
mod fleet;
mod hostile;
mod kernel;
mod kind;
mod lifelong;
mod maps;
mod measure;
mod memory;
mod opens;
mod shape;
mod site;
mod sites;
mod steps;
mod ticks;
mod traces;
mod worlds;

use crowd::tell_crowd;
use hostile::measure_hostile;
use kernel::Kernel;
use kind::Kind;
use maps::tell_maps;
use shape::Shape;
use sites::measure_kinds;
use std::alloc::{Alloc, Global};
use std::env::Env;
use std::fs::Files;
use std::thread::Threads;
use std::time::Clock;
use std::{env, io};

/// What is printed if no kernel is named.
const KERNELS: &str =
    "bench: name a kernel: field, fields, bridge, check, step, tick, lifelong, open, trace [ROBOTS], hostile or maps\n";

/// The kernel that the first argument names, for the number of robots of the second.
fn kernel_asked(rt: &(impl Env + Alloc)) -> io::Result<Option<Kernel>> {
    let mut words = env::args(rt)?;
    let _program = words.next();
    let kernel = match words.next() {
        Some(word) => Kernel::named(word.as_str()),
        None => None,
    };
    Ok(match (kernel, words.next()) {
        (Some(kernel), Some(robots)) => kernel.with_robots(robots.as_str()),
        _ => kernel,
    })
}

/// Measures the kernel, and prints a line for each measure.
fn run<R: Alloc<A = Global> + Clock + Files + Print + Threads + Sync>(
    rt: &R,
    kernel: Kernel,
) -> io::Result<()> {
    match kernel {
        Kernel::Field | Kernel::Bridge => measure_kinds(rt, kernel, &Kind::ALL),
        Kernel::Fields => measure_kinds(rt, kernel, &[Kind::Warehouse]),
        Kernel::Check | Kernel::Step | Kernel::Tick | Kernel::Lifelong => {
            measure_kinds(rt, kernel, &[Kind::Warehouse, Kind::Open])
        }
        Kernel::Open => measure_kinds(rt, kernel, &[Kind::Open]),
        Kernel::Trace { .. } => measure_kinds(rt, kernel, &[Kind::Warehouse]),
        Kernel::Hostile => measure_hostile(rt, &Shape::ALL),
        Kernel::Maps => {
            tell_maps(rt, &Kind::ALL, &Shape::ALL)?;
            tell_crowd(rt)
        }
    }
}

fn main(rt: HostRuntime) -> io::Result<()> {
    match kernel_asked(&rt)? {
        Some(kernel) => run(&rt, kernel),
        None => print!(rt; "{KERNELS}"),
    }
}
