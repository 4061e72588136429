//! What is printed of the cases and of the thousand serves.

use crate::numbers::tell_numbers;
use crate::serves::came::Came;
use crate::serves::gate::{Flags, Hold};
use crate::serves::play::{PlayFault, play};
use crate::serves::row::{Fact, Row};
use crate::serves::seeds::write_seeded;
use std::alloc::{Alloc, AllocError, Global};
use std::fmt::Write;
use std::sync::{Arc, Wait};
use std::thread::Threads;

/// How many scripts come from seeds.
const SERVES: u32 = 1_000;

/// A fact in words, after the line.
fn tell_fact(fact: Fact, came: &Came, met: bool, told: &mut String) -> Result<(), AllocError> {
    let (words, number) = match fact {
        Fact::LaneFull => (" lane_full ", Some(came.lane_full)),
        Fact::Takes => (" takes ", Some(came.takes)),
        Fact::Arrivals => (" arrivals ", Some(came.arrivals)),
        Fact::Unfinished => (" unfinished ", Some(came.unfinished())),
        Fact::Ticks => (" ticks ", Some(came.ticks)),
        Fact::Held if met => (" met", None),
        Fact::Held => (" missed", None),
        Fact::SameMap if came.same_map => (" its map", None),
        Fact::SameMap => (" another map", None),
        Fact::Legal if came.legal => (" legal", None),
        Fact::Legal => (" illegal", None),
        Fact::Told if came.told => (" told", None),
        Fact::Told => (" untold", None),
    };
    told.push_str(words)?;
    match number {
        Some(number) => write!(told, "{number}"),
        None => Ok(()),
    }
}

/// The result of a case, after its name.
fn tell_came(
    row: &Row,
    came: Result<Came, PlayFault>,
    met: bool,
    told: &mut String,
) -> Result<(), AllocError> {
    match came {
        Ok(came) => {
            for fact in row.facts {
                tell_fact(*fact, &came, met, told)?;
            }
            told.push_str("\n")
        }
        Err(PlayFault::Served(fault)) => writeln!(told, " {fault:?}"),
        Err(PlayFault::NoScript) => told.push_str(" no script\n"),
        Err(PlayFault::NoMemory) => Err(AllocError),
    }
}

/// The line of a case.
pub(crate) fn tell_row<R: Alloc<A = Global> + Threads + Sync + Wait>(
    rt: &R,
    row: &Row,
    told: &mut String,
) -> Result<(), AllocError> {
    write!(told, "{}:", row.name)?;
    let flags = Arc::new(rt.alloc(), Flags::new(row.hold))?;
    let came = play(rt, &row.yard, row.script, &flags);
    tell_came(row, came, flags.is_met(), told)
}

/// What became of the serves.
#[derive(Clone, Copy)]
struct Sum {
    clients: u64,
    lines: u64,
    /// Serves whose trace is legal, that lost no order and no notice, and that ended idle where the map has no bridge.
    legal: u64,
    accounted: u64,
    idle: u64,
}

impl Sum {
    /// Adds the fate of a script, on a map without a bridge or not.
    fn add(&mut self, came: &Came, is_bridgeless: bool) {
        let is_legal = came.legal && came.same_map;
        let is_idle = !is_bridgeless || came.unfinished() == 0;
        self.clients = self.clients.saturating_add(u64::from(came.clients));
        self.lines = self.lines.saturating_add(came.lines);
        self.legal = self.legal.saturating_add(u64::from(is_legal));
        self.accounted = self
            .accounted
            .saturating_add(u64::from(came.is_accounted()));
        self.idle = self.idle.saturating_add(u64::from(is_idle));
    }

    fn tell(&self, told: &mut String) -> Result<(), AllocError> {
        let numbers = [
            ("clients", self.clients),
            ("lines", self.lines),
            ("legal", self.legal),
            ("accounted", self.accounted),
            ("idle", self.idle),
        ];
        tell_numbers(told, &numbers)
    }
}

/// Serves the script of a seed, and adds the fate of it. A serve that has a fault adds nothing.
fn add_serve<R: Alloc<A = Global> + Threads + Sync + Wait>(
    rt: &R,
    seed: u32,
    flags: &Arc<Flags>,
    sum: &mut Sum,
) -> Result<(), AllocError> {
    let mut script = String::new(rt.alloc());
    let yard = write_seeded(&mut script, seed)?;
    if let Ok(came) = play(rt, &yard, script.as_bytes(), flags) {
        sum.add(&came, yard.is_bridgeless);
    }
    Ok(())
}

/// What became of a thousand serves with these flags.
fn sum_of<R: Alloc<A = Global> + Threads + Sync + Wait>(
    rt: &R,
    flags: &Arc<Flags>,
) -> Result<Sum, AllocError> {
    let mut sum = Sum {
        clients: 0,
        lines: 0,
        legal: 0,
        accounted: 0,
        idle: 0,
    };
    for seed in 0..SERVES {
        add_serve(rt, seed, flags, &mut sum)?;
    }
    Ok(sum)
}

/// The line of a thousand serves, in which nobody is held.
pub(crate) fn tell_thousand<R: Alloc<A = Global> + Threads + Sync + Wait>(
    rt: &R,
    told: &mut String,
) -> Result<(), AllocError> {
    let flags = Arc::new(rt.alloc(), Flags::new(Hold::Nobody))?;
    let sum = sum_of(rt, &flags)?;
    told.push_str("a_thousand_serves:")?;
    sum.tell(told)
}
