//! What calls answer, as text.

use fleet_execution::{Execution, Move, Standing};
use std::alloc::AllocError;
use std::fmt::Write;

/// Writes a move: its robot, both cells and the tick, each after a blank.
pub(crate) fn tell_move(told: &mut String, begun: Move) -> Result<(), AllocError> {
    let Move {
        robot,
        from,
        to,
        tick,
    } = begun;
    write!(told, " {robot} {from} {to} {tick}")
}

/// Writes the moves by robot, to the end of the line. Each robot has one at most.
pub(crate) fn tell_moves(told: &mut String, robots: u32, begun: &[Move]) -> Result<(), AllocError> {
    told.push_str("begins")?;
    for robot in 0..robots {
        for one in begun {
            if one.robot == robot {
                tell_move(told, *one)?;
            }
        }
    }
    told.push_str("\n")
}

/// Writes where a robot is.
fn tell_standing(told: &mut String, standing: Standing) -> Result<(), AllocError> {
    let Standing {
        cell,
        bound_for,
        left,
    } = standing;
    match bound_for {
        Some(bound) => write!(told, " {cell} {bound} {left}"),
        None => write!(told, " {cell} - {left}"),
    }
}

/// Writes where robots are, to the end of the line.
pub(crate) fn tell_standings(
    told: &mut String,
    robots: u32,
    run: &Execution,
) -> Result<(), AllocError> {
    told.push_str("stands")?;
    for robot in 0..robots {
        if let Some(standing) = run.standing(robot) {
            tell_standing(told, standing)?;
        }
    }
    told.push_str("\n")
}
