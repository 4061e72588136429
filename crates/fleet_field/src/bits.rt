//! The labels of a map's places before a search, and the bytes of its cells after it.

ghost use Rattle.std.specs.Prelude.{◌≡◌, ℕ, ◌+◌, ◌*◌, ◌/◌, ◌<◌, ◌≤◌, ◌↔◌, length, slice_index, IfOk};
ghost use Rattle.fleet_grid.specs.Ways.{IsWay};
ghost use Rattle.fleet_grid.specs.declared.dir.Dir.TheVariants.{North, East, South, West};
ghost use Rattle.fleet_field.specs.Kept.{IsLaidOut};
ghost use Rattle.fleet_field.specs.inside.Labels.{AreUnseen, ArePointed, before};
ghost use Rattle.fleet_field.specs.inside.Laid.{HasLabels};

use std::alloc::{AllocError, Allocator};

/// The label of a place that is shut.
const SHUT: u8 = 64;

/// Writes the labels of this many cells, from the cell `first` on, to the entries from `start` on: those with ways are
/// not reached, the others are shut.
fn lay_row(labels: &mut [u8], ways: &[u8], start: usize, first: usize, width: usize)
    requires inside { first + width ≤ length ways.now }
    requires room { start + width ≤ length labels.old }
    ensures { HasLabels ways.now start first width labels.old labels.new }
{
    for column in 0..width {
        labels[start + column] = if ways[first + column] == 0 { SHUT } else { 0 };
    }
}

/// Writes the labels of the cells, row by row.
fn lay_rows(labels: &mut [u8], height: usize, width: usize, stride: usize, ways: &[u8])
    requires laid_out { IsLaidOut height width stride labels.old }
    requires cells { length ways.now ≡ height * width }
    requires shut { (v : ℕ) → v < length labels.old → slice_index labels.old v ≡ 64 }
    ensures { AreUnseen height width stride ways.now labels.new }
{
    for row in 0..height {
        lay_row(labels, ways, (row + 1) * stride, row * width, width);
    }
}

/// The labels before a search: 0 for each cell that has ways, and 64 for each other place.
pub(crate) fn unseen<A: Allocator + Copy>(
    alloc: A,
    height: u32,
    width: u32,
    stride: u32,
    ways: &[u8],
) -> Result<Vec<u8, A>, AllocError>
    requires wide { 0 < width }
    requires apart { width < stride }
    requires few { height * width ≤ 1048576 }
    requires small { (height + 2) * stride < 1073741824 }
    requires cells { length ways.now ≡ height * width }
    ensures { IfOk result (λ labels. AreUnseen height width stride ways.now labels.items) }
{
    let (rows, columns, step) = (height as usize, width as usize, stride as usize);
    let mut labels = Vec::new(alloc);
    labels.resize((rows + 2) * step, SHUT)?;
    lay_rows(labels.as_mut_slice(), rows, columns, step, ways);
    Ok(labels)
}

/// The label of the level before that of this label, which no place has where the label is that of no level.
#[inline(always)]
fn before(label: u8) -> u8
    ensures { result ≡ before label }
{
    if label == 1 { 3 } else { label.wrapping_sub(1) }
}

/// The byte of a place that has these exits, by its own label and those of the four places next to it.
#[inline(always)]
fn pointing(exits: u8, here: u8, north: u8, east: u8, south: u8, west: u8) -> u8
    requires low { exits < 16 }
    ensures exits { result / 16 ≡ exits }
    ensures north { IsWay result North ↔ (north ≡ before here) }
    ensures east { IsWay result East ↔ (east ≡ before here) }
    ensures south { IsWay result South ↔ (south ≡ before here) }
    ensures west { IsWay result West ↔ (west ≡ before here) }
{
    let last = before(here);
    16 * exits
        + 8 * u8::from(west == last)
        + 4 * u8::from(south == last)
        + 2 * u8::from(east == last)
        + u8::from(north == last)
}

/// Writes the bytes of a row's cells, after those of the rows before it.
fn point_row(bytes: &mut [u8], labels: &[u8], ways: &[u8], row: usize, width: usize, stride: usize)
    requires apart { width < stride }
    requires small { length labels.now < 1073741824 }
    requires around { (row + 2) * stride + width ≤ length labels.now }
    requires inside { (row + 1) * width ≤ length ways.now }
    requires room { length bytes.old ≡ length ways.now }
    requires low { (cell : ℕ) → cell < length ways.now → slice_index ways.now cell < 16 }
    requires done { ArePointed width stride labels.now ways.now (row * width) bytes.old }
    ensures len { length bytes.new ≡ length bytes.old }
    ensures each { ArePointed width stride labels.now ways.now ((row + 1) * width) bytes.new }
{
    let (start, first) = ((row + 1) * stride, row * width);
    for column in 0..width {
        let (at, cell) = (start + column, first + column);
        bytes[cell] = pointing(
            ways[cell],
            labels[at],
            labels[at - stride],
            labels[at + 1],
            labels[at + stride],
            labels[at - 1],
        );
    }
}

/// Writes the bytes of the cells, row by row.
fn point_rows(
    bytes: &mut [u8],
    labels: &[u8],
    ways: &[u8],
    height: usize,
    width: usize,
    stride: usize,
)
    requires laid_out { IsLaidOut height width stride labels.now }
    requires cells { length ways.now ≡ height * width }
    requires room { length bytes.old ≡ height * width }
    requires low { (cell : ℕ) → cell < height * width → slice_index ways.now cell < 16 }
    ensures len { length bytes.new ≡ length bytes.old }
    ensures each { ArePointed width stride labels.now ways.now (height * width) bytes.new }
{
    for row in 0..height {
        point_row(bytes, labels, ways, row, width, stride);
    }
}

/// The bytes of the cells after a search that left these labels, in the memory of a list that is no longer needed: the
/// high half of a cell's byte has its exits, and the low half the ways that lead nearer.
pub(crate) fn pointed<A: Allocator + Copy>(
    spare: Vec<u8, A>,
    labels: &[u8],
    height: u32,
    width: u32,
    stride: u32,
    ways: &[u8],
) -> Result<Vec<u8, A>, AllocError>
    requires laid_out { IsLaidOut height width stride labels.now }
    requires cells { length ways.now ≡ height * width }
    requires low { (cell : ℕ) → cell < height * width → slice_index ways.now cell < 16 }
    ensures len { IfOk result (λ bytes. length bytes.items ≡ height * width) }
    ensures each { IfOk result (λ bytes. ArePointed width stride labels.now ways.now (height * width) bytes.items) }
{
    let (rows, columns) = (height as usize, width as usize);
    let mut bytes = spare;
    bytes.resize(rows * columns, 0)?;
    point_rows(
        bytes.as_mut_slice(),
        labels,
        ways,
        rows,
        columns,
        stride as usize,
    );
    Ok(bytes)
}
