//! Lines that are written.

ghost use Rattle.std.specs.Prelude.{◌≡◌, ◌++◌, OnOk, string_bytes};
ghost use Rattle.live_vehicles.specs.Text.{asked_line, bad_line, move_line, off_line, refused_line, stand_line, tick_of};

use crate::stand::Stand;
use fleet_execution::Move;
use std::alloc::AllocError;
use std::fmt::Write;

/// The tick of a step, where the vehicles set out at this one; the greatest number if there is none.
fn tick_of(first: u64, step: u64) -> u64
    ensures { result ≡ tick_of first step }
{
    first.saturating_add(step)
}

/// Writes a move that begins.
pub(crate) fn tell_move(told: &mut String, first: u64, begun: Move) -> Result<(), AllocError>
    ensures { OnOk result (string_bytes told.new ≡ string_bytes told.old ++ move_line first begun) }
{
    let Move {
        robot,
        from,
        to,
        tick: step,
    } = begun;
    let tick = tick_of(first, step);
    writeln!(told, "move {robot} {from} {to} {tick}")
}

/// Writes that a robot is not under way.
pub fn tell_refused(told: &mut String, robot: u32) -> Result<(), AllocError>
    ensures { OnOk result (string_bytes told.new ≡ string_bytes told.old ++ refused_line robot) }
{
    writeln!(told, "not-under-way {robot}")
}

/// Writes that a line is none that is understood.
pub fn tell_bad(told: &mut String, number: u64) -> Result<(), AllocError>
    ensures { OnOk result (string_bytes told.new ≡ string_bytes told.old ++ bad_line number) }
{
    writeln!(told, "bad-line {number}")
}

/// Writes that nobody asked where a robot stands.
pub fn tell_asked(told: &mut String, robot: u32) -> Result<(), AllocError>
    ensures { OnOk result (string_bytes told.new ≡ string_bytes told.old ++ asked_line robot) }
{
    writeln!(told, "not-asked {robot}")
}

/// Writes that a robot does not stand where the plan passes.
pub fn tell_off(told: &mut String, robot: u32) -> Result<(), AllocError>
    ensures { OnOk result (string_bytes told.new ≡ string_bytes told.old ++ off_line robot) }
{
    writeln!(told, "off-plan {robot}")
}

/// Writes that a robot stands on the cell of an arrival.
pub fn tell_stand(told: &mut String, stand: Stand) -> Result<(), AllocError>
    ensures { OnOk result (string_bytes told.new ≡ string_bytes told.old ++ stand_line stand) }
{
    let Stand {
        client,
        number,
        robot,
        cell,
        ..
    } = stand;
    writeln!(told, "stands {client} {number} robot {robot} cell {cell}")
}
