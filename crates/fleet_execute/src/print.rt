//! Lines that are written.

ghost use Rattle.std.specs.Prelude.{◌≡◌, ◌++◌, codes, decimal, string_bytes, OnOk};
ghost use Rattle.fleet_execute.specs.Text.{move_line, refused_line, bad_line};

use fleet_execution::Move;
use std::alloc::AllocError;
use std::fmt::Write;

/// Writes a move that begins.
pub(crate) fn tell_move(told: &mut String, begun: Move) -> Result<(), AllocError>
    ensures { OnOk result (string_bytes told.new ≡ string_bytes told.old ++ move_line begun) }
{
    let Move {
        robot,
        from,
        to,
        tick,
    } = begun;
    writeln!(told, "move {robot} {from} {to} {tick}")
}

/// Writes that a robot is not under way.
pub(crate) fn tell_refused(told: &mut String, robot: u32) -> Result<(), AllocError>
    ensures { OnOk result (string_bytes told.new ≡ string_bytes told.old ++ refused_line robot) }
{
    writeln!(told, "not-under-way {robot}")
}

/// Writes that a line is none that is understood.
pub(crate) fn tell_bad(told: &mut String, number: u64) -> Result<(), AllocError>
    ensures { OnOk result (string_bytes told.new ≡ string_bytes told.old ++ bad_line number) }
{
    writeln!(told, "bad-line {number}")
}
