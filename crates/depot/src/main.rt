//! `depot` keeps a fleet in a warehouse going: each client posts random errands from a thread of its own and collects
//! its notices, while two tickers move all robots. `depot [--robots N] [--clients N] [--turns N] [--seed N]`: each
//! client posts N orders, and each ticker makes N turns, and then further ones until all errands are done. Its last
//! line is `accounted: orders N verdicts N accepted N arrived N queued N`. Its status is 0 exactly if nothing was lost
//! or doubled.
//!
//! Facts that depend on the threads' schedule are printed on the error writer: ticks per second, and the greatest wait
//! with its bound.
//!
//! Statuses, each except 0 with a line on the error writer: 0 all orders are accounted for; 1 an order or a notice was
//! lost or doubled; 2 the command line is wrong, or asks for help; 3 the clock or an output failed; 5 the office was
//! not opened; 7 out of memory; 8 a turn or the end was refused, for example because a limit was met.
#![tactic(auto)]

mod account;
mod depot;
mod opening;
mod settings;
mod tally;
mod work;
mod yard;

use account::greatest_wait;
use depot::{DepotFault, DepotReport};
use fleet_core::OpenFault;
use fleet_office::{ConcludeFault, TurnCause};
use opening::day_of;
use settings::{Settings, SettingsFault, settings_of};
use std::alloc::{Alloc, AllocError, Global};
use std::env::{self, Env};
use std::io::{self, Write};
use std::process::ExitCode;
use std::sync::Wait;
use std::thread::Threads;
use std::time::{Clock, Instant};

/// The words that the program was given.
fn words_given(rt: &(impl Env + Alloc<A = Global>)) -> io::Result<Vec<String>> {
    Ok(env::args(rt)?.collect(rt.alloc())?)
}

/// Facts that depend on the schedule: the speed, and the longest wait of a robot, with the bound that no wait reaches.
fn pace_of(
    alloc: Global,
    day: &DepotReport,
    settings: &Settings,
    nanos: u128,
) -> Result<String, AllocError> {
    let ticks = u128::from(day.tick) * 1_000_000_000 / nanos.max(1);
    let wait = greatest_wait(alloc, &day.chapter, settings.clients, settings.robots)?;
    let bound = u64::from(settings.robots).saturating_mul(u64::from(day.floor));
    format!(in alloc; "ticks a second: {ticks}\ngreatest wait: {wait}, below {bound}\n")
}

/// The line with the account of all orders.
fn line_of(alloc: Global, day: &DepotReport) -> Result<String, AllocError> {
    let told = &day.account.told;
    format!(in alloc;
        "accounted: orders {} verdicts {} accepted {} arrived {} queued {}\n",
        told.orders,
        told.verdicts,
        told.accepted,
        told.arrived,
        day.account.queued()
    )
}

/// The status of a day that failed.
fn status_of(fault: DepotFault) -> u8 {
    match fault {
        DepotFault::Opening(OpenFault::NoMemory)
        | DepotFault::Turn(TurnCause::NoMemory)
        | DepotFault::Conclude(ConcludeFault::NoMemory)
        | DepotFault::NoMemory => 7,
        DepotFault::Opening(_) => 5,
        DepotFault::Turn(_) | DepotFault::Conclude(_) => 8,
    }
}

/// The line of a day that failed.
fn words_of(alloc: Global, fault: DepotFault) -> Result<String, AllocError> {
    match fault {
        DepotFault::Opening(OpenFault::NoMemory)
        | DepotFault::Turn(TurnCause::NoMemory)
        | DepotFault::Conclude(ConcludeFault::NoMemory)
        | DepotFault::NoMemory => format!(in alloc; "depot: out of memory\n"),
        DepotFault::Opening(fault) => {
            format!(in alloc; "depot: the office was not opened: {fault:?}\n")
        }
        DepotFault::Turn(cause) => format!(in alloc; "depot: a turn was refused: {cause:?}\n"),
        DepotFault::Conclude(fault) => {
            format!(in alloc; "depot: the office was not concluded: {fault:?}\n")
        }
    }
}

/// Writes what is printed for a day that took this long. Returns the status.
fn tell(
    alloc: Global,
    day: &DepotReport,
    settings: &Settings,
    nanos: u128,
    line: &mut String,
    notes: &mut String,
) -> Result<u8, AllocError> {
    *notes = pace_of(alloc, day, settings, nanos)?;
    *line = line_of(alloc, day)?;
    if day.account.is_right() {
        return Ok(0);
    }
    notes.push_str("depot: an order or a notice was lost or doubled\n")?;
    Ok(1)
}

/// Keeps a depot going, and writes what is printed for it. Returns the status.
fn keep_going<R: Alloc<A = Global> + Clock + Threads + Sync + Wait>(
    rt: &R,
    settings: &Settings,
    line: &mut String,
    notes: &mut String,
) -> Result<u8, AllocError> {
    let Ok(start) = Instant::now(rt) else {
        notes.push_str("depot: the clock cannot be read\n")?;
        return Ok(3);
    };
    match day_of(rt, settings) {
        Ok(day) => {
            let nanos = match start.elapsed(rt) {
                Ok(time) => time.as_nanos(),
                Err(_) => 1,
            };
            tell(rt.alloc(), &day, settings, nanos, line, notes)
        }
        Err(fault) => {
            *notes = words_of(rt.alloc(), fault)?;
            Ok(status_of(fault))
        }
    }
}

/// Does what the program's arguments say. Returns the status.
fn obey<R: Alloc<A = Global> + Clock + Threads + Sync + Wait>(
    rt: &R,
    words: &[String],
    line: &mut String,
    notes: &mut String,
) -> Result<u8, AllocError> {
    match settings_of(rt.alloc(), words) {
        Ok(settings) => keep_going(rt, &settings, line, notes),
        Err(SettingsFault::Words(text)) => {
            *notes = text;
            Ok(2)
        }
        Err(SettingsFault::NoMemory) => Err(AllocError),
    }
}

/// Writes the output and the error text. Returns the status.
fn run<R: Env + Alloc<A = Global> + Clock + Threads + Sync + Wait>(
    rt: &R,
    line: &mut String,
    notes: &mut String,
) -> Result<u8, AllocError> {
    match words_given(rt) {
        Ok(words) => obey(rt, &words, line, notes),
        Err(_) => Err(AllocError),
    }
}

fn main(rt: HostRuntime) -> ExitCode {
    let (mut line, mut notes) = (String::new(rt.alloc()), String::new(rt.alloc()));
    let Ok(status) = run(&rt, &mut line, &mut notes) else {
        let _ = rt.stderr().write_all(b"depot: out of memory\n");
        return ExitCode::from(7);
    };
    let _ = rt.stderr().write_all(notes.as_bytes());
    if rt.stdout().write_all(line.as_bytes()).is_err() {
        let _ = rt
            .stderr()
            .write_all(b"depot: the output cannot be written\n");
        return ExitCode::from(3);
    }
    ExitCode::from(status)
}
