//! A tick with what it shows: the robots' cells, who arrived, and who said farewell.

ghost use Rattle.std.specs.Prelude.{◌≡◌, ◌≢◌, ◌≤◌, ◌++◌, ℕ, List, drop, length, map};
ghost use Rattle.fleet_history.specs.declared.history.Arrival.{Arrival};
ghost use Rattle.fleet_history.specs.declared.history.Bye.{Bye};
ghost use Rattle.fleet_history.specs.declared.history.Entry.TheVariants.{Tick};
ghost use Rattle.fleet_history.specs.History.{place, robots};
ghost use Rattle.fleet_c.specs.Answers.{IsTicked};
ghost use Rattle.fleet_c.specs.Batches.{AreShown, HavePlaces, TicksInto, IsLast, lists};
ghost use Rattle.fleet_c.specs.Forms.{arrival_of};
ghost use Rattle.fleet_c.specs.Handles.{OnFleet};

use crate::codes::{DONE, NOT_OPEN, WRONG_LENGTH};
use crate::handle::Handle;
use crate::landing::Landing;
use crate::report::Report;
use crate::ticks::tick;
use crate::views::placement;
use fleet_core::Core;
use fleet_history::{Arrival, Bye, Entry};
use std::alloc::Global;

/// Writes the arrivals, from the list's first place on.
fn write_arrivals(arrived: &[Arrival], cells: &[u32], places: &mut [Landing])
    requires { length arrived.now ≤ length places.old }
    ensures { places.new ≡ map (arrival_of cells.now) arrived.now ++ drop (length arrived.now) places.old }
{
    for at in 0..arrived.len() {
        places[at] = Landing::of(arrived[at], cells);
    }
}

/// Writes the robots that said farewell, from the list's first place on.
fn write_farewells(said: &[Bye], places: &mut [u32])
    requires { length said.now ≤ length places.old }
    ensures { places.new ≡ map (λ b. b.robot) said.now ++ drop (length said.now) places.old }
{
    for at in 0..said.len() {
        places[at] = said[at].robot;
    }
}

/// Writes what a tick shows, from the first place of each list on, if there are places enough.
fn write_shown(
    arrived: &[Arrival],
    said: &[Bye],
    cells: &[u32],
    arrivals: &mut [Landing],
    farewells: &mut [u32],
)
    ensures arrivals { length arrived.now ≤ length arrivals.old → length said.now ≤ length farewells.old →
        arrivals.new ≡ map (arrival_of cells.now) arrived.now ++ drop (length arrived.now) arrivals.old }
    ensures farewells { length arrived.now ≤ length arrivals.old → length said.now ≤ length farewells.old →
        farewells.new ≡ map (λ b. b.robot) said.now ++ drop (length said.now) farewells.old }
{
    if arrived.len() > arrivals.len() {
        return;
    }
    if said.len() > farewells.len() {
        return;
    }
    write_arrivals(arrived, cells, arrivals);
    write_farewells(said, farewells);
}

/// Writes what the entry shows, if it is a tick.
fn show_entry(entry: &Entry, cells: &[u32], arrivals: &mut [Landing], farewells: &mut [u32])
    ensures arrivals { (to : List ℕ) (arrived : List Arrival) (said : List Bye) → entry.now ≡ Tick to arrived said →
        length arrived ≤ length arrivals.old → length said ≤ length farewells.old →
        arrivals.new ≡ map (arrival_of cells.now) arrived ++ drop (length arrived) arrivals.old }
    ensures farewells { (to : List ℕ) (arrived : List Arrival) (said : List Bye) → entry.now ≡ Tick to arrived said →
        length arrived ≤ length arrivals.old → length said ≤ length farewells.old →
        farewells.new ≡ map (λ b. b.robot) said ++ drop (length said) farewells.old }
{
    match entry {
        Entry::Tick {
            to: _,
            arrived,
            farewells: said,
        } => write_shown(
            arrived.as_slice(),
            said.as_slice(),
            cells,
            arrivals,
            farewells,
        ),
        Entry::Take { .. } => {}
        Entry::Shut { .. } => {}
    }
}

/// Writes what the tick shows that is the core's last entry.
fn show(core: &Core, cells: &mut [u32], arrivals: &mut [Landing], farewells: &mut [u32])
    requires { length cells.old ≡ robots core.now.history }
    ensures cells { cells.new ≡ place core.now.history }
    ensures arrivals { (to : List ℕ) (arrived : List Arrival) (said : List Bye) → IsLast core.now (Tick to arrived said) →
        length arrived ≤ length arrivals.old → length said ≤ length farewells.old →
        arrivals.new ≡ map (arrival_of cells.new) arrived ++ drop (length arrived) arrivals.old }
    ensures farewells { (to : List ℕ) (arrived : List Arrival) (said : List Bye) → IsLast core.now (Tick to arrived said) →
        length arrived ≤ length arrivals.old → length said ≤ length farewells.old →
        farewells.new ≡ map (λ b. b.robot) said ++ drop (length said) farewells.old }
{
    let _ = placement(core, cells);
    match core.chapter().entries.as_slice().last() {
        Some(entry) => show_entry(entry, cells, arrivals, farewells),
        None => {}
    }
}

/// Makes a tick, and writes what it shows.
fn tick_shown(
    alloc: Global,
    core: &mut Core,
    report: &mut Report,
    cells: &mut [u32],
    arrivals: &mut [Landing],
    farewells: &mut [u32],
) -> u32
    requires { HavePlaces core.old (lists cells.old arrivals.old farewells.old) }
    ensures ticked { IsTicked core.old result report.new core.new }
    ensures shown { result ≡ DONE → AreShown core.old (lists cells.old arrivals.old farewells.old) (lists cells.new arrivals.new farewells.new) core.new }
    ensures untouched { (result ≢ DONE) → report.new ≡ report.old }
    ensures unwritten { (result ≢ DONE) → lists cells.new arrivals.new farewells.new ≡ lists cells.old arrivals.old farewells.old }
{
    let code = tick(alloc, core, report);
    if code == DONE {
        show(core, cells, arrivals, farewells);
    }
    code
}

/// The same, if each list has a place for each robot.
fn tick_into(
    alloc: Global,
    core: &mut Core,
    report: &mut Report,
    cells: &mut [u32],
    arrivals: &mut [Landing],
    farewells: &mut [u32],
) -> u32
    ensures says { TicksInto core.old result report.new (lists cells.old arrivals.old farewells.old) (lists cells.new arrivals.new farewells.new) core.new }
    ensures untouched { (result ≢ DONE) → report.new ≡ report.old }
    ensures unwritten { (result ≢ DONE) → lists cells.new arrivals.new farewells.new ≡ lists cells.old arrivals.old farewells.old }
{
    let robots = core.robots();
    if cells.len() != robots {
        return WRONG_LENGTH;
    }
    if arrivals.len() != robots {
        return WRONG_LENGTH;
    }
    if farewells.len() != robots {
        return WRONG_LENGTH;
    }
    tick_shown(alloc, core, report, cells, arrivals, farewells)
}

/// Moves all robots by one step, and writes their cells, who arrived (`report.arrived` of them, by robot), and the
/// robots that said farewell (`report.farewells` of them). The places after these stay as they were.
///
/// Refused in this order: the handle is closed, a list has not one place for each robot, all ticks were made, the
/// chapter is full, out of memory.
#[unsafe(no_mangle)]
pub extern "C" fn nashirudder_tick_into(
    alloc: Global,
    fleet: &mut Handle,
    report: &mut Report,
    cells: &mut [u32],
    arrivals: &mut [Landing],
    farewells: &mut [u32],
) -> u32
    ensures says { OnFleet fleet.old.owned.held fleet.new.owned.held result (λ w n. TicksInto w result report.new (lists cells.old arrivals.old farewells.old) (lists cells.new arrivals.new farewells.new) n) }
    ensures untouched { (result ≢ DONE) → report.new ≡ report.old }
    ensures unwritten { (result ≢ DONE) → lists cells.new arrivals.new farewells.new ≡ lists cells.old arrivals.old farewells.old }
{
    let Some(mut held) = fleet.take(alloc) else {
        return NOT_OPEN;
    };
    let code = tick_into(alloc, &mut held.core, report, cells, arrivals, farewells);
    fleet.put(held);
    code
}
