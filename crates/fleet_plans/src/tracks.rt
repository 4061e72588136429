//! The solution of a plan's text, with one line of move letters for each robot.

ghost use Rattle.std.specs.Prelude.{◌≡◌, ◌≤◌, ◌+◌, ◌<◌, ◌*◌, ◌^◌, ◌⊎◌, ℕ, [], length, slice_index, slice_index_or, map, IfOk, Some, Ok, Err};
ghost use Rattle.std.specs.List.{list_all};
ghost use Rattle.fleet_map.specs.Text.{lines_of};
ghost use Rattle.fleet_plans.specs.Head.{or_line};
ghost use Rattle.fleet_plans.specs.Tracks.{is_move, with_track, tracks_of, moved, letter_at, IsMoved, AreWalked};
ghost use Rattle.fleet_plans.specs.Shown.{Gives, texts};

use crate::fault::PlanTextFault;
use crate::sides::{NO_CELL, Sides};
use fleet_history::Row;
use fleet_map::text::first_line;
use std::alloc::{AllocError, Allocator};

/// Whether all letters are moves.
fn are_moves(line: &[u8]) -> bool
    ensures { result ≡ list_all is_move line.now }
{
    line.iter().all(|letter| {
        *letter == b'u' || *letter == b'd' || *letter == b'l' || *letter == b'r' || *letter == b'w'
    })
}

/// The tracks of n robots in a solution; this is the number of its first line.
#[tactic(auto, unfolding(crate::specs::Tracks::tracks_of))]
pub(crate) fn read_tracks<A: Allocator + Copy>(
    alloc: A,
    robots: usize,
    number: u32,
    text: &[u8],
) -> Result<Vec<&[u8], A>, PlanTextFault>
    requires { number + length text.now < 2 ^ 32 }
    ensures read { Gives (λ tracks. texts tracks.items) result (tracks_of robots [] number (lines_of text.now)) }
    ensures short { IfOk result (λ tracks. (r : ℕ) → length (slice_index_or (texts tracks.items) r []) ≤ length text.now) }
{
    let mut tracks = Vec::new(alloc);
    let mut number = number;
    let mut rest = text;
    while let Some((line, after)) = first_line(rest) {
        if tracks.len() >= robots || !are_moves(line) {
            return Err(PlanTextFault::Line(number));
        }
        tracks.push(line)?;
        number += 1;
        rest = after;
    }
    if tracks.len() == robots {
        Ok(tracks)
    } else {
        Err(PlanTextFault::Line(number))
    }
}

/// The cell to which a move leads.
pub(crate) fn moved(sides: Sides, cell: u32, letter: u8) -> u32
    ensures { result ≡ moved sides.width sides.height cell letter }
{
    let (width, cells) = (sides.width, sides.cells());
    if cell >= cells {
        return cell;
    }
    let (leaves, next) = match letter {
        b'u' => (cell < width, cell.saturating_sub(width)),
        b'd' => (cell + width >= cells, cell + width),
        b'l' => (cell % width == 0, cell.saturating_sub(1)),
        b'r' => ((cell + 1) % width == 0, cell + 1),
        _ => (false, cell),
    };
    if leaves { NO_CELL } else { next }
}
