//! A survey as lines.

ghost use Rattle.std.specs.Prelude.{◌≡◌, ◌++◌, IfOk, OnOk, codes, string_bytes};
ghost use Rattle.std.specs.List.{flat_map};
ghost use Rattle.fleet_survey.specs.Texts.{blank_and, bridge_line, condition, end_head, end_line, few_text, line, listed_lines, map_lines, mending_lines, mouth_text, promise_lines, roomy_for_line, roomy_lines, served_line, survey_lines};

use crate::ends::DeadEnd;
use crate::listed::Listed;
use crate::mend::Mending;
use crate::standing::Standing;
use crate::survey::Survey;
use std::alloc::{AllocError, Global};
use std::fmt::Write;

/// A dead end with more cells than this has none of them in its line.
pub(crate) const FEW: usize = 16;

/// A line of a word and a number.
fn write_line(out: &mut String, word: &'static str, number: u64) -> Result<(), AllocError>
    ensures { OnOk result (string_bytes out.new ≡ string_bytes out.old ++ line word.now number) }
{
    write!(out, "{word}{number}\n")
}

/// A line for each bridge.
fn write_bridges(out: &mut String, bridges: &[(u32, u32)]) -> Result<(), AllocError>
    ensures { OnOk result (string_bytes out.new ≡ string_bytes out.old ++ flat_map bridge_line bridges.now) }
{
    for edge in bridges {
        let (lower, upper) = *edge;
        write!(out, "bridge {lower} {upper}\n")?;
    }
    Ok(())
}

/// The sizes of the map, and its bridges.
fn write_map(out: &mut String, s: &Survey) -> Result<(), AllocError>
    ensures { OnOk result (string_bytes out.new ≡ string_bytes out.old ++ map_lines s.now) }
{
    let (height, width) = (s.height, s.width);
    write!(out, "size {height} {width}\n")?;
    write_line(out, "floor ", u64::from(s.floor))?;
    write_line(out, "edges ", u64::from(s.edges))?;
    write_line(out, "bridges ", s.bridges.len() as u64)?;
    write_bridges(out, &s.bridges)
}

/// Numbers with a blank before each.
fn write_after_blanks(out: &mut String, numbers: &[u32]) -> Result<(), AllocError>
    ensures { OnOk result (string_bytes out.new ≡ string_bytes out.old ++ flat_map blank_and numbers.now) }
{
    for number in numbers {
        write!(out, " {number}")?;
    }
    Ok(())
}

/// The mouth of a dead end.
fn write_mouth(out: &mut String, mouth: Option<u32>) -> Result<(), AllocError>
    ensures { OnOk result (string_bytes out.new ≡ string_bytes out.old ++ mouth_text mouth) }
{
    match mouth {
        Some(mouth) => write!(out, "{mouth}"),
        None => out.push_str("none"),
    }
}

/// The cells of a dead end, if they are few.
fn write_few(out: &mut String, cells: &[u32]) -> Result<(), AllocError>
    ensures { OnOk result (string_bytes out.new ≡ string_bytes out.old ++ few_text cells.now) }
{
    if cells.len() <= FEW {
        out.push_str(" cells")?;
        write_after_blanks(out, cells)?;
    }
    Ok(())
}

/// The mouth and the size of a dead end.
fn write_end_head(out: &mut String, mouth: Option<u32>, size: u64) -> Result<(), AllocError>
    ensures { OnOk result (string_bytes out.new ≡ string_bytes out.old ++ end_head mouth size) }
{
    out.push_str("dead_end mouth ")?;
    write_mouth(out, mouth)?;
    write!(out, " size {size}")
}

/// A dead end, with its cells if they are few.
fn write_end(out: &mut String, end: &DeadEnd) -> Result<(), AllocError>
    ensures { OnOk result (string_bytes out.new ≡ string_bytes out.old ++ end_line end.now) }
{
    write_end_head(out, end.mouth, end.cells.len() as u64)?;
    write_few(out, &end.cells)?;
    out.push_str("\n")
}

/// A line for each dead end.
fn write_ends(out: &mut String, ends: &[DeadEnd]) -> Result<(), AllocError>
    ensures { OnOk result (string_bytes out.new ≡ string_bytes out.old ++ flat_map end_line ends.now) }
{
    for end in ends {
        write_end(out, end)?;
    }
    Ok(())
}

/// The cells that are roomy, and the dead ends.
fn write_roomy(out: &mut String, s: &Survey) -> Result<(), AllocError>
    ensures { OnOk result (string_bytes out.new ≡ string_bytes out.old ++ roomy_lines s.now) }
{
    write_line(out, "robots ", u64::from(s.robots))?;
    write_line(out, "roomy ", s.roomy.len() as u64)?;
    write_line(out, "not_roomy ", s.unroomy.len() as u64)?;
    write_line(out, "dead_ends ", s.ends.len() as u64)?;
    write_ends(out, &s.ends)
}

/// For how many robots all cells are served.
fn write_served(out: &mut String, served: Option<u32>) -> Result<(), AllocError>
    ensures { OnOk result (string_bytes out.new ≡ string_bytes out.old ++ served_line served) }
{
    let Some(robots) = served else {
        return Ok(());
    };
    if robots == u32::MAX {
        out.push_str("served_for all\n")
    } else {
        write_line(out, "served_for ", u64::from(robots))
    }
}

/// For how many robots all cells of a list are roomy.
fn write_roomy_for(out: &mut String, roomy_for: u32) -> Result<(), AllocError>
    ensures { OnOk result (string_bytes out.new ≡ string_bytes out.old ++ roomy_for_line roomy_for) }
{
    if roomy_for == u32::MAX {
        out.push_str("cells_roomy_for all\n")
    } else {
        write_line(out, "cells_roomy_for ", u64::from(roomy_for))
    }
}

/// What is told of a list of cells, if there is one.
fn write_listed(out: &mut String, listed: Option<Listed>) -> Result<(), AllocError>
    ensures { OnOk result (string_bytes out.new ≡ string_bytes out.old ++ listed_lines listed) }
{
    match listed {
        Some(list) => {
            write_line(out, "cells ", list.count)?;
            write_roomy_for(out, list.roomy_for)
        }
        None => Ok(()),
    }
}

/// For which errands, in words.
fn condition(standing: Standing) -> &'static str
    ensures { result.now ≡ condition standing }
{
    match standing {
        Standing::Bridgeless => "whatever the errands, since the map has no bridge",
        Standing::AllRoomy => "whatever the errands, since all cells are roomy",
        Standing::SomeRoomy => "if all errands go to roomy cells",
        Standing::NoneRoomy => "for no errands, since no cell is roomy",
    }
}

/// For which errands the promises hold.
fn write_promises(out: &mut String, standing: Standing) -> Result<(), AllocError>
    ensures { OnOk result (string_bytes out.new ≡ string_bytes out.old ++ promise_lines standing) }
{
    let when = condition(standing);
    write!(
        out,
        "promise 2, the robot that has waited longest comes nearer at every tick: {when}\npromise 3, every wait is below a bound: {when}\n"
    )
}

/// A survey as lines, with what is told of a list of cells, if there is one.
pub fn survey_lines(alloc: Global, s: &Survey, listed: Option<Listed>) -> Result<String, AllocError>
    ensures { IfOk result (λ text. string_bytes text ≡ survey_lines s.now listed) }
{
    let mut out = String::new(alloc);
    write_map(&mut out, s)?;
    write_roomy(&mut out, s)?;
    write_served(&mut out, s.served)?;
    write_listed(&mut out, listed)?;
    write_promises(&mut out, s.standing)?;
    Ok(out)
}

/// A line for each wall.
fn write_walls(out: &mut String, walls: &[u32]) -> Result<(), AllocError>
    ensures { OnOk result (string_bytes out.new ≡ string_bytes out.old ++ flat_map (line (codes "mend ")) walls.now) }
{
    for wall in walls {
        write_line(out, "mend ", u64::from(*wall))?;
    }
    Ok(())
}

/// The walls to be opened, and how many cells are not roomy then.
pub fn mending_lines(alloc: Global, mending: &Mending) -> Result<String, AllocError>
    ensures { IfOk result (λ text. string_bytes text ≡ mending_lines mending.now) }
{
    let mut out = String::new(alloc);
    write_walls(&mut out, &mending.walls)?;
    write_line(&mut out, "not_roomy_then ", mending.unroomy as u64)?;
    Ok(out)
}
