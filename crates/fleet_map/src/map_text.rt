//! A map as a grid of letters.

ghost use Rattle.std.specs.Prelude.{◌≡◌, IfOk, IfErr, Ok, Err};
ghost use Rattle.fleet_map.specs.declared.fault.MapFault.{MapFault};
ghost use Rattle.fleet_map.specs.Text.{lines_of};
ghost use Rattle.fleet_map.specs.Form.{HasSides};
ghost use Rattle.fleet_map.specs.Shape.{IsMapText};
ghost use Rattle.fleet_map.specs.FirstFault.{IsFirstFault};
ghost use Rattle.fleet_map.specs.Grammar.{Map, Gives, view, head_at, map_of};

use crate::fault::MapFault;
use crate::head::read_head;
use crate::rows::{read_end, read_rows};
use std::alloc::{Allocator, Global};

/// The greatest height and width.
pub const MOST_SIDE: u64 = 1024;

/// A map of letters, `height` rows of `width` cells each. Both sides are from 1 to [`MOST_SIDE`].
#[derive(Debug, Drop)]
pub struct MapText<A: Allocator + Copy = Global> {
    /// The number of rows.
    pub height: u32,
    /// The number of cells in a row.
    pub width: u32,
    /// The letters of the cells, row by row from the upper left one on.
    pub cells: Vec<u8, A>,
}

/// Reads the bytes as a map, or returns their first fault. The text is a `.map` file of the MovingAI benchmarks, in the
/// form that `IsMapText` defines: `type` and a word, `height` and `width` in either order, `map`, and the rows. It
/// allocates once, at most 1,024 times 1,024 bytes.
pub fn read_map<A: Allocator + Copy>(alloc: A, bytes: &[u8]) -> Result<MapText<A>, MapFault>
    // What is read has the shape of a map, with these cells.
    ensures found { IfOk result (λ map. IsMapText bytes.now (view map)) }
    ensures sides { IfOk result (λ map. HasSides (view map)) }
    // What has it is read, unless memory runs out.
    ensures only { (m : Map) → IsMapText bytes.now m → Gives view result (Ok m) }
    // Where none is read, the fault is the first, unless memory ran out.
    ensures first { IfErr result (λ fault. IsFirstFault (lines_of bytes.now) fault) }
    // What the reading of the lines gives, from the first one on.
    ensures exact { Gives view result (map_of bytes.now) }
    // A fault of the head is named however little memory there is.
    ensures head { (e : MapFault) → head_at (lines_of bytes.now) ≡ Err e → result ≡ Err e }
{
    read_lines(alloc, bytes)
}

#[tactic(auto, unfolding(crate::specs::Grammar::map_of_lines))]
fn read_lines<A: Allocator + Copy>(alloc: A, bytes: &[u8]) -> Result<MapText<A>, MapFault>
    ensures exact { Gives view result (map_of bytes.now) }
    ensures head { (e : MapFault) → head_at (lines_of bytes.now) ≡ Err e → result ≡ Err e }
{
    let (height, width, rest) = read_head(bytes)?;
    let (cells, rest) = read_rows(alloc, height, width, rest)?;
    read_end(5 + u64::from(height), rest)?;
    Ok(MapText {
        height,
        width,
        cells,
    })
}
