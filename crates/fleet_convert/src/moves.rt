//! A plan as text with one line of move letters for each robot.

ghost use Rattle.std.specs.Prelude.{◌≡◌, ◌++◌, ◌≤◌, OnOk, IfOk, string_bytes};
ghost use Rattle.fleet_plans.specs.Valid.{place_at};
ghost use Rattle.fleet_convert.specs.Moves.{track_of, tracks_text, moves_plan};

use crate::cells::write_between;
use crate::step::step_at;
use fleet_plans::Placements;
use std::alloc::{AllocError, Global};

/// The letters of a robot's steps.
fn write_track(
    out: &mut String,
    width: u32,
    places: &Placements,
    robot: usize,
) -> Result<(), AllocError>
    ensures { OnOk result (string_bytes out.new ≡ string_bytes out.old ++ track_of width robot places.now) }
{
    let steps = places.len().saturating_sub(1);
    for time in 0..steps {
        out.push_str(step_at(width, places, robot, time).letter())?;
    }
    Ok(())
}

/// A line for each robot.
fn write_tracks(out: &mut String, width: u32, places: &Placements) -> Result<(), AllocError>
    ensures { OnOk result (string_bytes out.new ≡ string_bytes out.old ++ tracks_text width places.now 0 (place_at places.now 0)) }
{
    for robot in 0..places.at(0).len() {
        write_track(out, width, places, robot)?;
        out.push_str("\n")?;
    }
    Ok(())
}

/// The text of a plan on a map of this width, as plans for the MAPF benchmarks are submitted: the robots' start cells,
/// and a line of the letters u, d, l, r, w for each robot. The only error is out of memory.
pub fn moves_plan(alloc: Global, width: u32, places: &Placements) -> Result<String, AllocError>
    requires { 1 ≤ width }
    ensures { IfOk result (λ text. string_bytes text ≡ moves_plan width places.now) }
{
    let mut out = String::new(alloc);
    let starts = places.at(0);
    write_between(
        &mut out,
        "form=moves\nstarts=",
        width,
        starts,
        "\nsolution=\n",
    )?;
    write_tracks(&mut out, width, places)?;
    Ok(out)
}
