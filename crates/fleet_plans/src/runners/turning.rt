//! The directions and the paths of robots that turn.

ghost use Rattle.std.specs.Prelude.{◌≡◌, ◌≤◌, ◌<◌, ◌^◌, ℕ, [], length, slice_get, slice_index_or, IfOk, IfSome, codes};
ghost use Rattle.serde_json.specs.View.{view, items_view};
ghost use Rattle.fleet_plans.specs.Cells.{parts_of};
ghost use Rattle.fleet_plans.specs.Turning.{letter_of, right_of, left_of, act, act_in, turned, turned_in, dir_named, dir_in, dirs_of, dirs_in, told_track, turned_of, turned_paths};
ghost use Rattle.fleet_plans.specs.Told.{Tells};

use super::fault::{RunnersFault, RunnersKey};
use super::starts::values_of;
use crate::cells::first_part;
use crate::limit::MOST_PLAN_BYTES;
use fleet_grid::Dir;
use fleet_history::Row;
use serde_json::Value;
use std::alloc::{AllocError, Global};

/// The letter that plans of moves have for a step in this direction.
fn letter_of(dir: Dir) -> u8
    ensures { result ≡ letter_of dir }
{
    match dir {
        Dir::North => b'u',
        Dir::East => b'r',
        Dir::South => b'd',
        Dir::West => b'l',
    }
}

/// The direction to the right.
fn right_of(dir: Dir) -> Dir
    ensures { result ≡ right_of dir }
{
    match dir {
        Dir::North => Dir::East,
        Dir::East => Dir::South,
        Dir::South => Dir::West,
        Dir::West => Dir::North,
    }
}

/// The direction to the left.
fn left_of(dir: Dir) -> Dir
    ensures { result ≡ left_of dir }
{
    match dir {
        Dir::North => Dir::West,
        Dir::East => Dir::North,
        Dir::South => Dir::East,
        Dir::West => Dir::South,
    }
}

/// The letter of an action of a robot in this direction, and its direction after it.
fn act(dir: Dir, byte: u8) -> Option<(u8, Dir)>
    ensures { result ≡ act dir byte }
{
    match byte {
        b'F' => Some((letter_of(dir), dir)),
        b'R' => Some((b'w', right_of(dir))),
        b'C' => Some((b'w', left_of(dir))),
        b'W' => Some((b'w', dir)),
        _ => None,
    }
}

/// The action that a part of a path is.
fn act_in(dir: Dir, part: &[u8]) -> Option<(u8, Dir)>
    ensures { result ≡ act_in dir part.now }
{
    if part.len() != 1 {
        return None;
    }
    act(dir, part[0])
}

/// The letters of the actions of a robot that begins in this direction; `None` if a part is no action.
fn turned(alloc: Global, dir: Dir, text: &[u8]) -> Result<Option<Row<u8>>, AllocError>
    ensures read { IfOk result (λ track. track ≡ turned dir (parts_of text.now)) }
    ensures few { IfOk result (λ track. IfSome track (λ letters. length letters ≤ length text.now)) }
{
    let mut letters = Vec::new(alloc);
    let mut ahead = dir;
    let mut rest = text;
    while let Some((part, after)) = first_part(rest) {
        let Some((letter, next)) = act_in(ahead, part) else {
            return Ok(None);
        };
        letters.push(letter)?;
        ahead = next;
        rest = after;
    }
    Ok(Some(Row::from_vec(letters)))
}

/// The letters of a robot's path; `None` if the value is not a path.
fn turned_in(alloc: Global, dir: Dir, value: &Value) -> Result<Option<Row<u8>>, AllocError>
    ensures read { IfOk result (λ track. track ≡ turned_in dir (view value.now)) }
    ensures few { IfOk result (λ track. IfSome track (λ letters. length letters ≤ MOST_PLAN_BYTES)) }
{
    let Some(text) = value.as_str() else {
        return Ok(None);
    };
    if text.len() > MOST_PLAN_BYTES {
        return Ok(None);
    }
    turned(alloc, dir, text.as_bytes())
}

/// The direction with a given name.
fn dir_named(name: &str) -> Option<Dir>
    ensures { result ≡ dir_named name.now }
{
    if name == "E" {
        Some(Dir::East)
    } else if name == "S" {
        Some(Dir::South)
    } else if name == "W" {
        Some(Dir::West)
    } else if name == "N" {
        Some(Dir::North)
    } else {
        None
    }
}

/// The direction of a list that has it after a row and a column.
fn dir_in(value: &Value) -> Option<Dir>
    ensures { result ≡ dir_in (view value.now) }
{
    dir_named(value.get(2)?.as_str()?)
}

/// The directions of all robots.
#[tactic(auto, unfolding(crate::specs::Turning::dirs_of))]
fn all_dirs(alloc: Global, values: &[Value]) -> Result<Row<Dir>, RunnersFault>
    ensures read { Tells (λ dirs. dirs) result (dirs_of [] (items_view values.now)) }
    ensures few { IfOk result (λ dirs. length dirs ≤ MOST_PLAN_BYTES) }
{
    let mut dirs = Vec::new(alloc);
    let mut rest = values;
    while let Some((value, after)) = rest.split_first() {
        let fault = RunnersFault::Item(RunnersKey::Start, dirs.len() as u32);
        if dirs.len() >= MOST_PLAN_BYTES {
            return Err(fault);
        }
        let Some(dir) = dir_in(value) else {
            return Err(fault);
        };
        dirs.push(dir)?;
        rest = after;
    }
    Ok(Row::from_vec(dirs))
}

/// The robots' directions.
pub(super) fn read_dirs(alloc: Global, plan: &Value) -> Result<Row<Dir>, RunnersFault>
    ensures read { Tells (λ dirs. dirs) result (dirs_in (view plan.now)) }
    ensures few { IfOk result (λ dirs. length dirs ≤ MOST_PLAN_BYTES) }
{
    match plan.get("start").and_then(values_of) {
        Some(values) => all_dirs(alloc, values),
        None => Err(RunnersFault::Key(RunnersKey::Start)),
    }
}

/// The letters of the robot's path, which stands under this key.
fn told_track(
    alloc: Global,
    key: RunnersKey,
    dirs: &[Dir],
    robot: usize,
    value: &Value,
) -> Result<Row<u8>, RunnersFault>
    requires { robot < 2 ^ 32 }
    ensures read { Tells (λ track. track) result (told_track key robot (view value.now) (slice_get dirs.now robot)) }
    ensures few { IfOk result (λ letters. length letters ≤ MOST_PLAN_BYTES) }
    ensures inside { IfOk result (λ letters. robot < length dirs.now) }
{
    let Some(dir) = dirs.get(robot) else {
        return Err(RunnersFault::Key(key));
    };
    match turned_in(alloc, *dir, value)? {
        Some(track) => Ok(track),
        None => Err(RunnersFault::Item(key, robot as u32)),
    }
}

/// The paths of robots that begin in these directions. They stand under this key.
#[tactic(auto, unfolding(crate::specs::Turning::turned_of))]
fn all_turned(
    alloc: Global,
    key: RunnersKey,
    dirs: &[Dir],
    values: &[Value],
) -> Result<Vec<Row<u8>>, RunnersFault>
    requires { length dirs.now ≤ MOST_PLAN_BYTES }
    ensures read { Tells (λ tracks. tracks.items) result (turned_of key dirs.now [] (items_view values.now)) }
    ensures short { IfOk result (λ tracks. (r : ℕ) → length (slice_index_or tracks.items r []) ≤ MOST_PLAN_BYTES) }
{
    let mut tracks = Vec::new(alloc);
    let mut rest = values;
    while let Some((value, after)) = rest.split_first() {
        let track = told_track(alloc, key, dirs, tracks.len(), value)?;
        tracks.push(track)?;
        rest = after;
    }
    if tracks.len() == dirs.len() {
        Ok(tracks)
    } else {
        Err(RunnersFault::Key(key))
    }
}

/// The paths of a plan's robots, under this key. The robots begin in these directions.
pub(super) fn read_turned(
    alloc: Global,
    key: RunnersKey,
    dirs: &[Dir],
    plan: &Value,
) -> Result<Vec<Row<u8>>, RunnersFault>
    requires { length dirs.now ≤ MOST_PLAN_BYTES }
    ensures read { Tells (λ tracks. tracks.items) result (turned_paths key dirs.now (view plan.now)) }
    ensures short { IfOk result (λ tracks. (r : ℕ) → length (slice_index_or tracks.items r []) ≤ MOST_PLAN_BYTES) }
{
    match plan.get(key.word()).and_then(values_of) {
        Some(values) => all_turned(alloc, key, dirs, values),
        None => Err(RunnersFault::Key(key)),
    }
}
