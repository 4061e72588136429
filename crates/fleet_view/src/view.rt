//! The page and the picture for the text of a map and of traces on it.

ghost use Rattle.std.specs.Prelude.{◌≡◌, ℕ, List, Ok, map, IfOk, IfErr, string_bytes};
ghost use Rattle.fleet_map.specs.Form.{HasSides};
ghost use Rattle.fleet_map.specs.Grammar.{Gives, map_of, view};
ghost use Rattle.fleet_grid.specs.Floor.{floor_of_map};
ghost use Rattle.fleet_trace.specs.Trace.{trace_of};
ghost use Rattle.fleet_view.specs.View.{AreNotOn, AreOn, IsJudgedPage, IsPage, IsPicture, IsUnshown};

use crate::cells::first_off;
use crate::chapters::chapters_in_turn;
use crate::fault::ViewFault;
use crate::page::page_of;
use crate::picture::picture_of;
use crate::verdict::{grid_of, judge_each};
use fleet_grid::Grid;
use fleet_history::Chapter;
use fleet_map::{MapFault, MapText, read_map};
use std::alloc::{AllocError, Global};

/// A map and its grid.
#[derive(Drop)]
struct Ground {
    floor: MapText,
    grid: Grid,
}

/// The map of a text, and its grid.
fn ground_of(alloc: Global, bytes: &[u8]) -> Result<Ground, ViewFault>
    ensures read { IfOk result (λ ground. map_of bytes.now ≡ Ok (view ground.floor)) }
    ensures sides { IfOk result (λ ground. HasSides (view ground.floor)) }
    ensures grid { IfOk result (λ ground. ground.grid ≡ floor_of_map (view ground.floor)) }
    ensures fault { IfErr result (λ fault. (texts : List (List ℕ)) → IsUnshown bytes.now texts fault) }
{
    match read_map(alloc, bytes) {
        Ok(floor) => match grid_of(alloc, &floor) {
            Ok(grid) => Ok(Ground { floor, grid }),
            Err(AllocError) => Err(ViewFault::NoMemory),
        },
        Err(MapFault::NoMemory) => Err(ViewFault::NoMemory),
        Err(fault) => Err(ViewFault::Map(fault)),
    }
}

/// Reads the chapters from these texts, and checks that they follow one another on the map.
fn chapters_on(alloc: Global, ground: &Ground, texts: &[Vec<u8>]) -> Result<Vec<Chapter>, ViewFault>
    requires { ground.now.grid ≡ floor_of_map (view ground.now.floor) }
    ensures told { IfOk result (λ chapters. AreOn (view ground.now.floor) (map (λ text. text.items) texts.now) (map trace_of chapters.items)) }
    ensures fault { IfErr result (λ fault. AreNotOn (view ground.now.floor) (map (λ text. text.items) texts.now) fault) }
{
    match chapters_in_turn(alloc, &ground.grid, texts) {
        Ok(chapters) => match first_off(ground.floor.cells.len(), &chapters) {
            Some(place) => Err(ViewFault::OffMap(place as u64 + 1)),
            None => Ok(chapters),
        },
        Err(fault) => Err(fault),
    }
}

/// The page of these chapters, with the judge's verdicts.
fn judged_page(alloc: Global, ground: &Ground, chapters: &[Chapter]) -> Result<Vec<u8>, AllocError>
    requires sides { HasSides (view ground.now.floor) }
    requires grid { ground.now.grid ≡ floor_of_map (view ground.now.floor) }
    ensures { IfOk result (λ page. IsJudgedPage (view ground.now.floor) (map trace_of chapters.now) page.items) }
{
    let verdicts = judge_each(alloc, &ground.grid, chapters)?;
    page_of(alloc, &ground.floor, &verdicts, chapters)
}

/// The page of a map that was read.
fn page_on(alloc: Global, ground: &Ground, texts: &[Vec<u8>]) -> Result<Vec<u8>, ViewFault>
    requires sides { HasSides (view ground.now.floor) }
    requires grid { ground.now.grid ≡ floor_of_map (view ground.now.floor) }
    ensures page { IfOk result (λ page. (bytes : List ℕ) → map_of bytes ≡ Ok (view ground.now.floor) → IsPage bytes (map (λ text. text.items) texts.now) page.items) }
    ensures fault { IfErr result (λ fault. AreNotOn (view ground.now.floor) (map (λ text. text.items) texts.now) fault) }
{
    match chapters_on(alloc, ground, texts) {
        Ok(chapters) => match judged_page(alloc, ground, &chapters) {
            Ok(page) => Ok(page),
            Err(AllocError) => Err(ViewFault::NoMemory),
        },
        Err(fault) => Err(fault),
    }
}

/// The picture on a map that was read.
fn picture_on(
    alloc: Global,
    ground: &Ground,
    texts: &[Vec<u8>],
    tick: Option<u32>,
) -> Result<String, ViewFault>
    requires sides { HasSides (view ground.now.floor) }
    requires grid { ground.now.grid ≡ floor_of_map (view ground.now.floor) }
    ensures picture { IfOk result (λ picture. (bytes : List ℕ) → map_of bytes ≡ Ok (view ground.now.floor) → IsPicture tick bytes (map (λ text. text.items) texts.now) (string_bytes picture)) }
    ensures fault { IfErr result (λ fault. AreNotOn (view ground.now.floor) (map (λ text. text.items) texts.now) fault) }
{
    match chapters_on(alloc, ground, texts) {
        Ok(chapters) => match picture_of(alloc, &ground.floor, &chapters, tick) {
            Ok(picture) => Ok(picture),
            Err(AllocError) => Err(ViewFault::NoMemory),
        },
        Err(fault) => Err(fault),
    }
}

/// The page of a map and of traces on it, with the judge's verdict on each. The traces are chapters, and each one
/// continues the one before it. The map is read first, then the traces in their order; when all are read, it is checked
/// that each continues the one before it, and then that the map has the cells of each.
pub fn view_page(alloc: Global, bytes: &[u8], texts: &[Vec<u8>]) -> Result<Vec<u8>, ViewFault>
    ensures page { IfOk result (λ page. IsPage bytes.now (map (λ text. text.items) texts.now) page.items) }
    ensures fault { IfErr result (λ fault. IsUnshown bytes.now (map (λ text. text.items) texts.now) fault) }
{
    match ground_of(alloc, bytes) {
        Ok(ground) => page_on(alloc, &ground, texts),
        Err(fault) => Err(fault),
    }
}

/// The picture of a map and of traces on it, which are chapters as for `view_page`: of all their ticks, or of the state
/// after one tick. Ticks count from the first opening. The faults are those of `view_page`, in the same order.
pub fn view_picture(
    alloc: Global,
    bytes: &[u8],
    texts: &[Vec<u8>],
    tick: Option<u32>,
) -> Result<String, ViewFault>
    ensures picture { IfOk result (λ picture. IsPicture tick bytes.now (map (λ text. text.items) texts.now) (string_bytes picture)) }
    ensures fault { IfErr result (λ fault. IsUnshown bytes.now (map (λ text. text.items) texts.now) fault) }
{
    match ground_of(alloc, bytes) {
        Ok(ground) => picture_on(alloc, &ground, texts, tick),
        Err(fault) => Err(fault),
    }
}
