//! A picture of a map: its bridges, and the cells that are roomy and those that are not.

ghost use Rattle.std.specs.Prelude.{◌≡◌, ◌++◌, ◌≤◌, IfOk, OnOk, string_bytes};
ghost use Rattle.std.specs.List.{flat_map};
ghost use Rattle.fleet_survey.specs.Picture.{bridge_text, cell_text, head_text, label_text, picture_text, rest_text, shapes_text, way_text};

use crate::survey::Survey;
use std::alloc::{AllocError, Global};
use std::fmt::Write;

pub(crate) const BEGIN: &str =
    "<svg xmlns=\"http://www.w3.org/2000/svg\" role=\"img\" viewBox=\"0 0 ";

/// The colours, then all cells as walls.
pub(crate) const STYLE: &str =
    "\">\n<style>path{fill:none}.wall{fill:#6b7789}.floor{stroke:#ffffff}.unroomy{stroke:#f6b8b0}.grid{stroke:#d5dbe4;stroke-width:.04}.bridge{stroke:#d40000;stroke-width:.16}\
    @media(prefers-color-scheme:dark){.wall{fill:#68758a}.floor{stroke:#1b222c}.unroomy{stroke:#6e2f33}.grid{stroke:#2d3846}.bridge{stroke:#ff5a52}}</style>\n\
    <pattern id=\"cell\" width=\"1\" height=\"1\" patternUnits=\"userSpaceOnUse\"><path class=\"grid\" d=\"M1 0v1h-1\"/></pattern>\n\
    <rect class=\"wall\" width=\"100%\" height=\"100%\"/>\n";

/// The beginning of the cells that are roomy, and of those that are not: a line through each, as broad as a cell.
pub(crate) const FLOOR: &str =
    "<path class=\"floor\" shape-rendering=\"crispEdges\" transform=\"translate(0 .5)\" d=\"";

pub(crate) const UNROOMY: &str =
    "\"/>\n<path class=\"unroomy\" shape-rendering=\"crispEdges\" transform=\"translate(0 .5)\" d=\"";

/// The beginning of the bridges: a line from the middle of the one cell to that of the other.
pub(crate) const BRIDGES: &str =
    "\"/>\n<rect fill=\"url(#cell)\" width=\"100%\" height=\"100%\"/>\n<path class=\"bridge\" transform=\"translate(.5 .5)\" d=\"";

pub(crate) const END: &str = "\"/>\n</svg>\n";

/// What the picture shows, in words.
fn write_label(
    out: &mut String,
    bridges: u64,
    unroomy: u64,
    floor: u32,
    robots: u32,
) -> Result<(), AllocError>
    ensures { OnOk result (string_bytes out.new ≡ string_bytes out.old ++ label_text bridges unroomy floor robots) }
{
    write!(
        out,
        "\" aria-label=\"{bridges} bridges; {unroomy} of {floor} cells are not roomy for {robots} robots"
    )
}

/// The sizes, the words and the colours.
fn write_head(out: &mut String, s: &Survey) -> Result<(), AllocError>
    ensures { OnOk result (string_bytes out.new ≡ string_bytes out.old ++ head_text s.now) }
{
    let (height, width) = (s.height, s.width);
    write!(out, "{BEGIN}{width} {height}")?;
    write_label(
        out,
        s.bridges.len() as u64,
        s.unroomy.len() as u64,
        s.floor,
        s.robots,
    )?;
    out.push_str(STYLE)
}

/// A line through each of these cells.
fn write_cells(out: &mut String, width: u32, cells: &[u32]) -> Result<(), AllocError>
    requires { 1 ≤ width }
    ensures { OnOk result (string_bytes out.new ≡ string_bytes out.old ++ flat_map (cell_text width) cells.now) }
{
    for cell in cells {
        let (x, y) = (*cell % width, *cell / width);
        write!(out, "M{x} {y}h1")?;
    }
    Ok(())
}

/// Lines of a kind, through each of these cells.
fn write_part(
    out: &mut String,
    begin: &'static str,
    width: u32,
    cells: &[u32],
) -> Result<(), AllocError>
    requires { 1 ≤ width }
    ensures { OnOk result (string_bytes out.new ≡ string_bytes out.old ++ (begin.now ++ flat_map (cell_text width) cells.now)) }
{
    out.push_str(begin)?;
    write_cells(out, width, cells)
}

/// The way from a cell to the next one, which is in its row or in its column.
fn write_way(out: &mut String, lower: u32, upper: u32) -> Result<(), AllocError>
    ensures { OnOk result (string_bytes out.new ≡ string_bytes out.old ++ way_text lower upper) }
{
    if upper.saturating_sub(lower) == 1 {
        out.push_str("h1")
    } else {
        out.push_str("v1")
    }
}

/// A line for each bridge.
fn write_bridges(out: &mut String, width: u32, bridges: &[(u32, u32)]) -> Result<(), AllocError>
    requires { 1 ≤ width }
    ensures { OnOk result (string_bytes out.new ≡ string_bytes out.old ++ flat_map (bridge_text width) bridges.now) }
{
    for edge in bridges {
        let (lower, upper) = *edge;
        let (x, y) = (lower % width, lower / width);
        write!(out, "M{x} {y}")?;
        write_way(out, lower, upper)?;
    }
    Ok(())
}

/// The bridges, and the end.
fn write_rest(out: &mut String, width: u32, bridges: &[(u32, u32)]) -> Result<(), AllocError>
    requires { 1 ≤ width }
    ensures { OnOk result (string_bytes out.new ≡ string_bytes out.old ++ rest_text width bridges.now) }
{
    out.push_str(BRIDGES)?;
    write_bridges(out, width, bridges)?;
    out.push_str(END)
}

/// The cells and the bridges.
fn write_shapes(out: &mut String, width: u32, s: &Survey) -> Result<(), AllocError>
    requires { 1 ≤ width }
    ensures { OnOk result (string_bytes out.new ≡ string_bytes out.old ++ shapes_text width s.now) }
{
    write_part(out, FLOOR, width, &s.roomy)?;
    write_part(out, UNROOMY, width, &s.unroomy)?;
    write_rest(out, width, &s.bridges)
}

/// A survey as a picture: SVG, in which each cell is 1 wide and 1 high.
pub fn survey_picture(alloc: Global, s: &Survey) -> Result<String, AllocError>
    ensures { IfOk result (λ text. string_bytes text ≡ picture_text s.now) }
{
    let mut out = String::new(alloc);
    write_head(&mut out, s)?;
    write_shapes(&mut out, s.width.max(1), s)?;
    Ok(out)
}
