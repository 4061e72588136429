//! A survey as a JSON object.

ghost use Rattle.std.specs.Prelude.{◌≡◌, ◌++◌, IfOk, OnOk, decimal, string_bytes};
ghost use Rattle.std.specs.List.{flat_map};
ghost use Rattle.fleet_survey.specs.Json.{bridge_json, bridges_json, comma_and, commas, end_begin, end_json, ends_json, listed_json, mouth_json, numbers_json, promised, promises_json, roomy_for_json, served_json, sizes_json, survey_json};

use crate::ends::DeadEnd;
use crate::listed::Listed;
use crate::standing::Standing;
use crate::survey::Survey;
use std::alloc::{AllocError, Global};
use std::fmt::Write;

/// Numbers with a comma before each.
fn write_after_commas(out: &mut String, numbers: &[u32]) -> Result<(), AllocError>
    ensures { OnOk result (string_bytes out.new ≡ string_bytes out.old ++ flat_map (comma_and decimal) numbers.now) }
{
    for number in numbers {
        write!(out, ",{number}")?;
    }
    Ok(())
}

/// Numbers with commas between.
fn write_between_commas(out: &mut String, numbers: &[u32]) -> Result<(), AllocError>
    ensures { OnOk result (string_bytes out.new ≡ string_bytes out.old ++ commas decimal numbers.now) }
{
    match numbers.split_first() {
        Some((first, rest)) => {
            write!(out, "{first}")?;
            write_after_commas(out, rest)
        }
        None => Ok(()),
    }
}

/// Numbers in brackets.
fn write_numbers(out: &mut String, numbers: &[u32]) -> Result<(), AllocError>
    ensures { OnOk result (string_bytes out.new ≡ string_bytes out.old ++ numbers_json numbers.now) }
{
    out.push_str("[")?;
    write_between_commas(out, numbers)?;
    out.push_str("]")
}

/// A bridge.
fn write_bridge(out: &mut String, bridge: (u32, u32)) -> Result<(), AllocError>
    ensures { OnOk result (string_bytes out.new ≡ string_bytes out.old ++ bridge_json bridge) }
{
    let (lower, upper) = bridge;
    write!(out, "[{lower},{upper}]")
}

/// Bridges with a comma before each.
fn write_more_bridges(out: &mut String, bridges: &[(u32, u32)]) -> Result<(), AllocError>
    ensures { OnOk result (string_bytes out.new ≡ string_bytes out.old ++ flat_map (comma_and bridge_json) bridges.now) }
{
    for bridge in bridges {
        out.push_str(",")?;
        write_bridge(out, *bridge)?;
    }
    Ok(())
}

/// Bridges with commas between.
fn write_each_bridge(out: &mut String, bridges: &[(u32, u32)]) -> Result<(), AllocError>
    ensures { OnOk result (string_bytes out.new ≡ string_bytes out.old ++ commas bridge_json bridges.now) }
{
    match bridges.split_first() {
        Some((first, rest)) => {
            write_bridge(out, *first)?;
            write_more_bridges(out, rest)
        }
        None => Ok(()),
    }
}

/// The bridges, as pairs in brackets.
fn write_bridges(out: &mut String, bridges: &[(u32, u32)]) -> Result<(), AllocError>
    ensures { OnOk result (string_bytes out.new ≡ string_bytes out.old ++ bridges_json bridges.now) }
{
    out.push_str("\"bridges\":[")?;
    write_each_bridge(out, bridges)?;
    out.push_str("],")
}

/// The mouth of a dead end.
fn write_mouth(out: &mut String, mouth: Option<u32>) -> Result<(), AllocError>
    ensures { OnOk result (string_bytes out.new ≡ string_bytes out.old ++ mouth_json mouth) }
{
    match mouth {
        Some(mouth) => write!(out, "{mouth}"),
        None => out.push_str("null"),
    }
}

/// The mouth and the size of a dead end.
fn write_end_begin(out: &mut String, mouth: Option<u32>, size: u64) -> Result<(), AllocError>
    ensures { OnOk result (string_bytes out.new ≡ string_bytes out.old ++ end_begin mouth size) }
{
    out.push_str("{\"mouth\":")?;
    write_mouth(out, mouth)?;
    write!(out, ",\"size\":{size},\"cells\":")
}

/// A dead end.
fn write_end(out: &mut String, end: &DeadEnd) -> Result<(), AllocError>
    ensures { OnOk result (string_bytes out.new ≡ string_bytes out.old ++ end_json end.now) }
{
    write_end_begin(out, end.mouth, end.cells.len() as u64)?;
    write_numbers(out, &end.cells)?;
    out.push_str("}")
}

/// Dead ends with a comma before each.
fn write_more_ends(out: &mut String, ends: &[DeadEnd]) -> Result<(), AllocError>
    ensures { OnOk result (string_bytes out.new ≡ string_bytes out.old ++ flat_map (comma_and end_json) ends.now) }
{
    for end in ends {
        out.push_str(",")?;
        write_end(out, end)?;
    }
    Ok(())
}

/// Dead ends with commas between.
fn write_each_end(out: &mut String, ends: &[DeadEnd]) -> Result<(), AllocError>
    ensures { OnOk result (string_bytes out.new ≡ string_bytes out.old ++ commas end_json ends.now) }
{
    match ends.split_first() {
        Some((first, rest)) => {
            write_end(out, first)?;
            write_more_ends(out, rest)
        }
        None => Ok(()),
    }
}

/// All dead ends.
fn write_ends(out: &mut String, ends: &[DeadEnd]) -> Result<(), AllocError>
    ensures { OnOk result (string_bytes out.new ≡ string_bytes out.old ++ ends_json ends.now) }
{
    out.push_str("\"dead_ends\":[")?;
    write_each_end(out, ends)?;
    out.push_str("],")
}

/// For how many robots all cells are served.
fn write_served(out: &mut String, served: Option<u32>) -> Result<(), AllocError>
    ensures { OnOk result (string_bytes out.new ≡ string_bytes out.old ++ served_json served) }
{
    let Some(robots) = served else {
        return Ok(());
    };
    if robots == u32::MAX {
        out.push_str("\"served_for\":null,")
    } else {
        write!(out, "\"served_for\":{robots},")
    }
}

/// For how many robots all cells of a list are roomy.
fn write_roomy_for(out: &mut String, roomy_for: u32) -> Result<(), AllocError>
    ensures { OnOk result (string_bytes out.new ≡ string_bytes out.old ++ roomy_for_json roomy_for) }
{
    if roomy_for == u32::MAX {
        out.push_str("\"cells_roomy_for\":null,")
    } else {
        write!(out, "\"cells_roomy_for\":{roomy_for},")
    }
}

/// What is told of a list of cells, if there is one.
fn write_listed(out: &mut String, listed: Option<Listed>) -> Result<(), AllocError>
    ensures { OnOk result (string_bytes out.new ≡ string_bytes out.old ++ listed_json listed) }
{
    match listed {
        Some(Listed { count, roomy_for }) => {
            write!(out, "\"cells\":{count},")?;
            write_roomy_for(out, roomy_for)
        }
        None => Ok(()),
    }
}

/// For which errands the promises hold, in a word.
fn promised(standing: Standing) -> &'static str
    ensures { result.now ≡ promised standing }
{
    match standing {
        Standing::Bridgeless => "bridgeless",
        Standing::AllRoomy => "all_roomy",
        Standing::SomeRoomy => "some_roomy",
        Standing::NoneRoomy => "none_roomy",
    }
}

/// For which errands the promises hold, and the end.
fn write_promises(out: &mut String, standing: Standing) -> Result<(), AllocError>
    ensures { OnOk result (string_bytes out.new ≡ string_bytes out.old ++ promises_json standing) }
{
    out.push_str("\"promises\":\"")?;
    out.push_str(promised(standing))?;
    out.push_str("\"}\n")
}

/// The numbers of the map and of the robots.
fn write_sizes(out: &mut String, s: &Survey) -> Result<(), AllocError>
    ensures { OnOk result (string_bytes out.new ≡ string_bytes out.old ++ sizes_json s.now) }
{
    let (height, width, floor, edges) = (s.height, s.width, s.floor, s.edges);
    let (robots, roomy, unroomy) = (s.robots, s.roomy.len(), s.unroomy.len());
    write!(out, "\"height\":{height},\"width\":{width},")?;
    write!(out, "\"floor\":{floor},\"edges\":{edges},")?;
    write!(out, "\"robots\":{robots},\"roomy\":{roomy},")?;
    write!(out, "\"not_roomy\":{unroomy},")
}

/// A survey as a JSON object, with what is told of a list of cells, if there is one.
pub fn survey_json(alloc: Global, s: &Survey, listed: Option<Listed>) -> Result<String, AllocError>
    ensures { IfOk result (λ text. string_bytes text ≡ survey_json s.now listed) }
{
    let mut out = String::new(alloc);
    out.push_str("{")?;
    write_sizes(&mut out, s)?;
    write_bridges(&mut out, &s.bridges)?;
    write_ends(&mut out, &s.ends)?;
    write_served(&mut out, s.served)?;
    write_listed(&mut out, listed)?;
    write_promises(&mut out, s.standing)?;
    Ok(out)
}
