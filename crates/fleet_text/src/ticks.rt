//! What the program prints of a tick.

ghost use Rattle.std.specs.Prelude.{◌≡◌, ◌++◌, IfOk, OnOk, string_bytes, option_copied, slice_index};
ghost use Rattle.std.specs.List.{flat_map};
ghost use Rattle.fleet_text.specs.Output.{place_text, arrival_text, farewell_text, tick_line, tick_text};

use crate::texts::{ArrivalLine, FarewellLine};
use fleet_history::{Arrival, Bye, Entry};
use std::alloc::{AllocError, Allocator, Global};
use std::fmt::Write;

/// The cells of a placement, each after a blank.
pub(crate) fn write_place<A: Allocator + Copy>(
    out: &mut String<A>,
    cells: &[u32],
) -> Result<(), AllocError>
    ensures { OnOk result (string_bytes out.new ≡ string_bytes out.old ++ place_text cells.now) }
{
    for cell in cells {
        write!(out, " {cell}")?;
    }
    Ok(())
}

/// The line that says where the robots stand after a tick.
fn write_tick_line<A: Allocator + Copy>(
    out: &mut String<A>,
    tick: u64,
    cells: &[u32],
) -> Result<(), AllocError>
    ensures { OnOk result (string_bytes out.new ≡ string_bytes out.old ++ tick_line tick cells.now) }
{
    write!(out, "tick {tick}:")?;
    write_place(out, cells)?;
    write!(out, "\n")
}

/// The line that says where the robots stand after a tick.
pub fn tick_line(alloc: Global, tick: u64, cells: &[u32]) -> Result<String, AllocError>
    ensures { IfOk result (λ line. string_bytes line ≡ tick_line tick cells.now) }
{
    let mut line = String::new(alloc);
    write_tick_line(&mut line, tick, cells)?;
    Ok(line)
}

fn cell_of(cells: &[u32], robot: u32) -> u32
    ensures { result ≡ slice_index cells.now robot }
{
    let at = robot as usize;
    if at < cells.len() { cells[at] } else { 0 }
}

/// A line for each arrival.
fn write_arrivals<A: Allocator + Copy>(
    out: &mut String<A>,
    to: &[u32],
    arrived: &[Arrival],
) -> Result<(), AllocError>
    ensures { OnOk result (string_bytes out.new ≡ string_bytes out.old ++ flat_map (arrival_text to.now) arrived.now) }
{
    for arrival in arrived {
        let line = ArrivalLine {
            arrival: *arrival,
            cell: cell_of(to, arrival.robot),
        };
        write!(out, "{line}")?;
    }
    Ok(())
}

/// A line for each farewell.
fn write_farewells<A: Allocator + Copy>(
    out: &mut String<A>,
    farewells: &[Bye],
) -> Result<(), AllocError>
    ensures { OnOk result (string_bytes out.new ≡ string_bytes out.old ++ flat_map (λ bye. farewell_text bye.robot bye.stamp) farewells.now) }
{
    for bye in farewells {
        let line = FarewellLine {
            robot: bye.robot,
            stamp: bye.stamp,
        };
        write!(out, "{line}")?;
    }
    Ok(())
}

/// The lines of a tick to these cells.
fn write_moves<A: Allocator + Copy>(
    out: &mut String<A>,
    tick: u64,
    to: &[u32],
    arrived: &[Arrival],
    farewells: &[Bye],
) -> Result<(), AllocError>
    ensures { OnOk result (string_bytes out.new ≡ string_bytes out.old ++ (tick_line tick to.now ++ flat_map (arrival_text to.now) arrived.now ++ flat_map (λ bye. farewell_text bye.robot bye.stamp) farewells.now)) }
{
    write_tick_line(out, tick, to)?;
    write_arrivals(out, to, arrived)?;
    write_farewells(out, farewells)
}

/// The lines of a tick, by its entry.
pub(crate) fn write_tick<A: Allocator + Copy>(
    out: &mut String<A>,
    tick: u64,
    entry: Option<&Entry<A>>,
) -> Result<(), AllocError>
    ensures { OnOk result (string_bytes out.new ≡ string_bytes out.old ++ tick_text tick (option_copied entry.entry)) }
{
    let Some(entry) = entry else {
        return Ok(());
    };
    match entry {
        Entry::Tick {
            to,
            arrived,
            farewells,
        } => {
            let (to, arrived) = (to.as_slice(), arrived.as_slice());
            write_moves(out, tick, to, arrived, farewells.as_slice())
        }
        _ => Ok(()),
    }
}
