//! The paths of the robots of a plan in JSON.

ghost use Rattle.std.specs.Prelude.{◌≡◌, ◌≤◌, ◌<◌, ◌^◌, ℕ, [], length, slice_index_or, IfOk, IfSome, codes};
ghost use Rattle.serde_json.specs.View.{view, items_view};
ghost use Rattle.fleet_plans.specs.Cells.{parts_of};
ghost use Rattle.fleet_plans.specs.Runners.{letter_in, step_in, track_of, path_in, paths_of, paths_in};
ghost use Rattle.fleet_plans.specs.Told.{Tells};

use super::fault::{RunnersFault, RunnersKey};
use super::starts::values_of;
use crate::cells::first_part;
use crate::limit::MOST_PLAN_BYTES;
use fleet_history::Row;
use serde_json::Value;
use std::alloc::{AllocError, Global};

/// The letter that plans of moves have for this step.
fn letter_of(part: &[u8]) -> Option<u8>
    ensures { result ≡ step_in part.now }
{
    if part.len() != 1 {
        return None;
    }
    match part[0] {
        b'U' => Some(b'u'),
        b'D' => Some(b'd'),
        b'L' => Some(b'l'),
        b'R' => Some(b'r'),
        b'W' => Some(b'w'),
        _ => None,
    }
}

/// The letters of a path; `None` if a part is not a step.
#[tactic(auto, unfolding(crate::specs::Runners::track_of))]
fn track_of(alloc: Global, text: &[u8]) -> Result<Option<Row<u8>>, AllocError>
    ensures read { IfOk result (λ track. track ≡ track_of [] (parts_of text.now)) }
    ensures few { IfOk result (λ track. IfSome track (λ letters. length letters ≤ length text.now)) }
{
    let mut letters = Vec::new(alloc);
    let mut rest = text;
    while let Some((part, after)) = first_part(rest) {
        let Some(letter) = letter_of(part) else {
            return Ok(None);
        };
        letters.push(letter)?;
        rest = after;
    }
    Ok(Some(Row::from_vec(letters)))
}

/// The letters of a robot's path; `None` if the value is not a path.
fn path_of(alloc: Global, value: &Value) -> Result<Option<Row<u8>>, AllocError>
    ensures read { IfOk result (λ track. track ≡ path_in (view value.now)) }
    ensures few { IfOk result (λ track. IfSome track (λ letters. length letters ≤ MOST_PLAN_BYTES)) }
{
    let Some(text) = value.as_str() else {
        return Ok(None);
    };
    if text.len() > MOST_PLAN_BYTES {
        return Ok(None);
    }
    track_of(alloc, text.as_bytes())
}

/// The paths of n robots, which stand under this key.
#[tactic(auto, unfolding(crate::specs::Runners::paths_of))]
fn all_paths(
    alloc: Global,
    key: RunnersKey,
    robots: usize,
    values: &[Value],
) -> Result<Vec<Row<u8>>, RunnersFault>
    requires { robots ≤ MOST_PLAN_BYTES }
    ensures read { Tells (λ tracks. tracks.items) result (paths_of key robots [] (items_view values.now)) }
    ensures short { IfOk result (λ tracks. (r : ℕ) → length (slice_index_or tracks.items r []) ≤ MOST_PLAN_BYTES) }
{
    let mut tracks = Vec::new(alloc);
    let mut rest = values;
    while let Some((value, after)) = rest.split_first() {
        if tracks.len() >= robots {
            return Err(RunnersFault::Key(key));
        }
        let Some(track) = path_of(alloc, value)? else {
            let robot = tracks.len() as u32;
            return Err(RunnersFault::Item(key, robot));
        };
        tracks.push(track)?;
        rest = after;
    }
    if tracks.len() == robots {
        Ok(tracks)
    } else {
        Err(RunnersFault::Key(key))
    }
}

/// The paths of a plan's n robots, under this key.
pub(super) fn read_paths(
    alloc: Global,
    key: RunnersKey,
    robots: usize,
    plan: &Value,
) -> Result<Vec<Row<u8>>, RunnersFault>
    requires { robots ≤ MOST_PLAN_BYTES }
    ensures read { Tells (λ tracks. tracks.items) result (paths_in key robots (view plan.now)) }
    ensures short { IfOk result (λ tracks. (r : ℕ) → length (slice_index_or tracks.items r []) ≤ MOST_PLAN_BYTES) }
{
    match plan.get(key.word()).and_then(values_of) {
        Some(values) => all_paths(alloc, key, robots, values),
        None => Err(RunnersFault::Key(key)),
    }
}
