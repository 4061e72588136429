//! The picture of traces.

ghost use Rattle.std.specs.Prelude.{◌≡◌, ◌++◌, ◌+◌, ◌*◌, ◌%◌, ◌≤◌, map, length, OnOk, IfOk, string_bytes, slice_index, codes, decimal, max};
ghost use Rattle.fleet_map.specs.Form.{HasSides};
ghost use Rattle.fleet_map.specs.Grammar.{view};
ghost use Rattle.fleet_trace.specs.Trace.{trace_of};
ghost use Rattle.fleet_view.specs.declared.shapes.TheConstants.{BAR, BAR_END};
ghost use Rattle.fleet_view.specs.Picture.{point_text, head_text, walls_text, cells_over, cells_in, points_text, values_text, disc_text, moving_text, cell_behind, still_text, shape_text, shapes_from, flags_in, robots_in, bar_text, picture_text};

use crate::arrivals::{write_goals_of, write_ring};
use crate::shapes::{
    BAR, BAR_END, DISC, NUMBER, SHAPE_END, STILL, STILL_END, SVG_BEGIN, SVG_END, SVG_SIZE,
    SVG_STYLE, TRACK, TRACK_END, TRACK_TIME, WALLS, WALLS_END,
};
use crate::walls::write_walls;
use fleet_history::{Chapter, Entry, RobotState};
use fleet_map::MapText;
use std::alloc::{AllocError, Global};
use std::fmt::Write;

/// The upper left corner of a cell in the picture.
pub(crate) fn write_point(out: &mut String, width: u32, cell: u32) -> Result<(), AllocError>
    requires { 1 ≤ width }
    ensures { OnOk result (string_bytes out.new ≡ string_bytes out.old ++ point_text width cell) }
{
    let x = u64::from(cell % width) * 16;
    let y = u64::from(cell / width) * 16;
    write!(out, "{x} {y}")
}

/// The text of the picture before the squares of the map.
fn write_head(out: &mut String, height: u32, width: u32) -> Result<(), AllocError>
    requires low { height ≤ 1024 }
    requires slim { width ≤ 1024 }
    ensures { OnOk result (string_bytes out.new ≡ string_bytes out.old ++ head_text height width) }
{
    let (high, wide) = (height * 16, width * 16);
    write!(
        out,
        "{SVG_BEGIN}{wide} {high}{SVG_SIZE}{wide}\" height=\"{high}{SVG_STYLE}"
    )
}

/// The robot's cell in a placement.
pub(crate) fn cell_of(to: &[u32], robot: usize) -> u32
    ensures { result ≡ slice_index to.now robot }
{
    if robot < to.len() { to[robot] } else { 0 }
}

/// The robot's cells after each tick of the entries.
fn push_cells(cells: &mut Vec<u32>, robot: usize, entries: &[Entry]) -> Result<(), AllocError>
    ensures { OnOk result (cells.new.items ≡ cells.old.items ++ cells_over robot entries.now) }
{
    for entry in entries {
        if let Entry::Tick { to, .. } = entry {
            cells.push(cell_of(to.as_slice(), robot))?;
        }
    }
    Ok(())
}

/// The robot's cells after each tick of the chapters.
fn cells_in(alloc: Global, robot: usize, chapters: &[Chapter]) -> Result<Vec<u32>, AllocError>
    ensures { IfOk result (λ cells. cells.items ≡ cells_in robot (map trace_of chapters.now)) }
{
    let mut cells = Vec::new(alloc);
    for chapter in chapters {
        push_cells(&mut cells, robot, &chapter.entries)?;
    }
    Ok(cells)
}

/// Points with semicolons before them.
fn write_points(out: &mut String, width: u32, cells: &[u32]) -> Result<(), AllocError>
    requires { 1 ≤ width }
    ensures { OnOk result (string_bytes out.new ≡ string_bytes out.old ++ points_text width cells.now) }
{
    for cell in cells {
        out.push_str(";")?;
        write_point(out, width, *cell)?;
    }
    Ok(())
}

/// The points through which a robot's shape moves, in order.
fn write_values(out: &mut String, width: u32, start: u32, cells: &[u32]) -> Result<(), AllocError>
    requires { 1 ≤ width }
    ensures { OnOk result (string_bytes out.new ≡ string_bytes out.old ++ values_text width start cells.now) }
{
    write_point(out, width, start)?;
    write_points(out, width, cells)
}

/// The hue of the robot's colour, which is that of the page, in thousandths of a degree.
pub(crate) fn hue_of(robot: usize) -> usize
    ensures { result ≡ robot % 30000 * 137508 % 360000 }
{
    robot % 30_000 * 137_508 % 360_000
}

/// A disc in the robot's colour, and its number.
fn write_disc(out: &mut String, robot: usize) -> Result<(), AllocError>
    ensures { OnOk result (string_bytes out.new ≡ string_bytes out.old ++ disc_text robot) }
{
    let hue = hue_of(robot);
    write!(out, "{DISC}{hue}{NUMBER}{robot}{SHAPE_END}")
}

/// How long a robot's shape moves, in tenths of a second: two for each tick.
fn time_of(cells: &[u32]) -> usize
    ensures { result ≡ 2 * max 1 (length cells.now) }
{
    if cells.is_empty() { 2 } else { 2 * cells.len() }
}

/// A shape that moves from cell to cell.
fn write_moving(
    out: &mut String,
    width: u32,
    robot: usize,
    start: u32,
    cells: &[u32],
    chapters: &[Chapter],
) -> Result<(), AllocError>
    requires { 1 ≤ width }
    ensures { OnOk result (string_bytes out.new ≡ string_bytes out.old ++ moving_text width robot start cells.now (flags_in robot (map trace_of chapters.now))) }
{
    let time = time_of(cells);
    out.push_str(TRACK)?;
    write_values(out, width, start, cells)?;
    write!(out, "{TRACK_TIME}{time}{TRACK_END}")?;
    write_ring(out, robot, chapters, time)?;
    write_disc(out, robot)
}

/// The robot's cell after n ticks; if there are fewer ticks, its last cell.
fn cell_behind(tick: u32, start: u32, cells: &[u32]) -> u32
    ensures { result ≡ cell_behind tick start cells.now }
{
    let behind = (tick as usize).min(cells.len());
    if behind == 0 {
        start
    } else {
        cells[behind - 1]
    }
}

/// A shape that does not move.
fn write_still(out: &mut String, width: u32, robot: usize, cell: u32) -> Result<(), AllocError>
    requires { 1 ≤ width }
    ensures { OnOk result (string_bytes out.new ≡ string_bytes out.old ++ still_text width robot cell) }
{
    out.push_str(STILL)?;
    write_point(out, width, cell)?;
    out.push_str(STILL_END)?;
    write_disc(out, robot)
}

/// Where a robot starts, and its cells after each tick.
#[derive(Clone, Copy)]
struct Track<'a> {
    robot: usize,
    start: u32,
    cells: &'a [u32],
}

/// A robot's shape.
fn write_shape(
    out: &mut String,
    width: u32,
    tick: Option<u32>,
    track: &Track<'_>,
    chapters: &[Chapter],
) -> Result<(), AllocError>
    requires { 1 ≤ width }
    ensures { OnOk result (string_bytes out.new ≡ string_bytes out.old
        ++ shape_text width tick track.now.robot track.now.start track.now.cells.now (flags_in track.now.robot (map trace_of chapters.now))) }
{
    match tick {
        None => write_moving(out, width, track.robot, track.start, track.cells, chapters),
        Some(tick) => {
            let cell = cell_behind(tick, track.start, track.cells);
            write_still(out, width, track.robot, cell)
        }
    }
}

/// The robots of the first opening.
fn robots_in(chapters: &[Chapter]) -> &[RobotState]
    ensures { result.now ≡ robots_in (map trace_of chapters.now) }
{
    match chapters.first() {
        Some(first) => first.opening.robots.as_slice(),
        None => &[],
    }
}

/// The shapes of the robots.
fn write_shapes(
    alloc: Global,
    out: &mut String,
    width: u32,
    tick: Option<u32>,
    chapters: &[Chapter],
    robots: &[RobotState],
) -> Result<(), AllocError>
    requires { 1 ≤ width }
    ensures { OnOk result (string_bytes out.new ≡ string_bytes out.old ++ shapes_from width tick (map trace_of chapters.now) 0 robots.now) }
{
    for (robot, state) in robots.iter().enumerate() {
        let cells = cells_in(alloc, robot, chapters)?;
        let track = Track {
            robot,
            start: state.cell,
            cells: &cells,
        };
        write_shape(out, width, tick, &track, chapters)?;
    }
    Ok(())
}

/// A bar that grows while the robots move through these cells.
fn write_growing_bar(out: &mut String, cells: &[u32]) -> Result<(), AllocError>
    ensures { OnOk result (string_bytes out.new ≡ string_bytes out.old ++ (BAR.now ++ decimal (2 * max 1 (length cells.now)) ++ BAR_END.now)) }
{
    let time = time_of(cells);
    write!(out, "{BAR}{time}{BAR_END}")
}

/// The bar of a picture that moves.
fn write_bar(
    alloc: Global,
    out: &mut String,
    tick: Option<u32>,
    chapters: &[Chapter],
) -> Result<(), AllocError>
    ensures { OnOk result (string_bytes out.new ≡ string_bytes out.old ++ bar_text tick (map trace_of chapters.now)) }
{
    match tick {
        Some(_) => Ok(()),
        None => {
            let cells = cells_in(alloc, 0, chapters)?;
            write_growing_bar(out, &cells)
        }
    }
}

/// The part of the picture below the robots: the map.
fn write_floor(out: &mut String, floor: &MapText) -> Result<(), AllocError>
    requires { HasSides (view floor.now) }
    ensures { OnOk result (string_bytes out.new ≡ string_bytes out.old ++ (head_text floor.now.height floor.now.width ++ walls_text (view floor.now))) }
{
    write_head(out, floor.height, floor.width)?;
    out.push_str(WALLS)?;
    write_walls(out, floor.width, &floor.cells)?;
    out.push_str(WALLS_END)?;
    Ok(())
}

/// The picture of a map and of chapters on it: of all their ticks, or of the state after one tick. The only error is
/// that memory runs out.
pub fn picture_of(
    alloc: Global,
    floor: &MapText,
    chapters: &[Chapter],
    tick: Option<u32>,
) -> Result<String, AllocError>
    requires { HasSides (view floor.now) }
    ensures { IfOk result (λ text. string_bytes text ≡ picture_text (view floor.now) (map trace_of chapters.now) tick) }
{
    let mut out = String::new(alloc);
    write_floor(&mut out, floor)?;
    let robots = robots_in(chapters);
    write_goals_of(&mut out, floor.width, chapters, robots.len())?;
    write_shapes(alloc, &mut out, floor.width, tick, chapters, robots)?;
    write_bar(alloc, &mut out, tick, chapters)?;
    out.push_str(SVG_END)?;
    Ok(out)
}
