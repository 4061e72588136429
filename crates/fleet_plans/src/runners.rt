//! Plans in JSON, in the form of the League of Robot Runners.

mod fault;
mod paths;
mod starts;
mod turning;

ghost use Rattle.std.specs.Prelude.{◌≡◌, ◌≤◌, ◌<◌, ◌==◌, ◌||◌, ℕ, map, not, length, slice_index_or, codes, [], None, IfOk, IfErr};
ghost use Rattle.std.specs.List.{position};
ghost use Rattle.serde_json.specs.Find.{get};
ghost use Rattle.serde_json.specs.View.{view};
ghost use Rattle.fleet_plans.specs.Runners.{is_mark, is_json, turns_in, dirs_by, tracks_by, has_size, runners_of, IsToldAs, IsRunnersPlan, IsRunnersFault};
ghost use Rattle.fleet_plans.specs.Shown.{texts};
ghost use Rattle.fleet_plans.specs.Told.{IsToldFault, Tells};
ghost use Rattle.fleet_plans.specs.Judge.{HasJudged};
ghost use Rattle.fleet_plans.specs.inside.Given.{IsGiven};

use crate::judge::PlanJudge;
use crate::limit::MOST_PLAN_BYTES;
use crate::sides::Sides;
use crate::walk::walk;
pub use fault::{RunnersFault, RunnersKey};
use fleet_grid::Dir;
use fleet_history::Row;
use paths::read_paths;
use serde_json::Value;
use starts::read_starts;
use std::alloc::{AllocError, Allocator, Global};
use turning::{read_dirs, read_turned};

/// Whether the byte is not white space of JSON.
fn is_mark(byte: u8) -> bool
    ensures { result ≡ is_mark byte }
{
    byte != b' ' && byte != b'\t' && byte != b'\n' && byte != b'\r'
}

/// The place of the first byte that is not white space.
fn first_mark(text: &[u8]) -> Option<usize>
    ensures { result ≡ position is_mark text.now }
{
    text.iter().position(|byte| is_mark(*byte))
}

/// Whether a text is in JSON: its first byte after white space is `{`.
pub(crate) fn is_json(text: &[u8]) -> bool
    ensures { result ≡ is_json text.now }
{
    match first_mark(text) {
        Some(at) => text[at] == b'{',
        None => false,
    }
}

/// Whether robots turn in the plan's action model, which is MAPF if it is missing; `None` for another model.
fn turns(plan: &Value) -> Option<bool>
    ensures { result ≡ turns_in (get (codes "actionModel") (view plan.now)) }
{
    let Some(model) = plan.get("actionModel") else {
        return Some(false);
    };
    let name = model.as_str()?;
    if name == "MAPF" {
        Some(false)
    } else if name == "MAPF_T" {
        Some(true)
    } else {
        None
    }
}

/// Whether the plan's number of robots is this one or is missing.
fn has_size(plan: &Value, robots: usize) -> bool
    ensures { result ≡ has_size robots (get (codes "teamSize") (view plan.now)) }
{
    let Some(size) = plan.get("teamSize") else {
        return true;
    };
    match size.as_u64() {
        Some(number) => number == robots as u64,
        None => false,
    }
}

/// The tracks, lent.
fn lent(alloc: Global, tracks: &[Row<u8>]) -> Result<Vec<&[u8]>, AllocError>
    ensures { IfOk result (λ lent. texts lent.items ≡ tracks.now) }
{
    let mut lent = Vec::new(alloc);
    for track in tracks {
        lent.push(track.as_slice())?;
    }
    Ok(lent)
}

/// The directions of robots that turn.
fn dirs_by(alloc: Global, turns: bool, plan: &Value) -> Result<Row<Dir>, RunnersFault>
    ensures read { Tells (λ dirs. dirs) result (dirs_by turns (view plan.now)) }
    ensures few { IfOk result (λ dirs. length dirs ≤ MOST_PLAN_BYTES) }
{
    if turns {
        read_dirs(alloc, plan)
    } else {
        Ok(Row::new(alloc))
    }
}

/// The robots' tracks, which stand under this key.
fn tracks_by(
    alloc: Global,
    key: RunnersKey,
    turns: bool,
    robots: usize,
    dirs: &[Dir],
    plan: &Value,
) -> Result<Vec<Row<u8>>, RunnersFault>
    requires robots { robots ≤ MOST_PLAN_BYTES }
    requires few { length dirs.now ≤ MOST_PLAN_BYTES }
    ensures read { Tells (λ tracks. tracks.items) result (tracks_by key turns robots dirs.now (view plan.now)) }
    ensures short { IfOk result (λ tracks. (r : ℕ) → length (slice_index_or tracks.items r []) ≤ MOST_PLAN_BYTES) }
{
    if turns {
        read_turned(alloc, key, dirs, plan)
    } else {
        read_paths(alloc, key, robots, plan)
    }
}

/// Gives the judge the placements of the plan that a JSON value says, with the paths under this key.
fn judge_value<B: Allocator + Copy>(
    alloc: Global,
    key: RunnersKey,
    sides: Sides,
    value: &Value,
    judge: &mut PlanJudge<Global, B>,
) -> Result<(), RunnersFault>
    requires fresh { HasJudged judge.old.floor [] judge.old }
    ensures read { IfOk result (λ _. IsGiven judge.old.floor (IsToldAs sides.width sides.height (runners_of key sides.width sides.height (view value.now)) None) judge.new) }
    ensures fault { IfErr result (λ fault. IsToldFault fault (runners_of key sides.width sides.height (view value.now))) }
{
    let Some(turns) = turns(value) else {
        return Err(RunnersFault::Key(RunnersKey::ActionModel));
    };
    let starts = read_starts(alloc, sides, value)?;
    let dirs = dirs_by(alloc, turns, value)?;
    if !has_size(value, starts.len()) {
        return Err(RunnersFault::Key(RunnersKey::TeamSize));
    }
    let tracks = tracks_by(alloc, key, turns, starts.len(), dirs.as_slice(), value)?;
    let lent = lent(alloc, &tracks)?;
    Ok(walk(alloc, sides, starts.as_slice(), &lent, judge)?)
}

/// Gives the judge the placements of a plan in JSON, in the form of the League of Robot Runners: `start` has each
/// robot's row and column, and `actualPaths` its steps, as letters U, D, L, R, W separated by commas; for robots that
/// turn, `start` has the direction as well, and the letters are F, R, C, W. Such a plan names no goals. The steps may
/// be asked for under another key, `plannerPaths`.
///
/// The fault is the first one, with the keys in the order of `RunnersKey`.
pub(crate) fn read_runners<B: Allocator + Copy>(
    alloc: Global,
    key: RunnersKey,
    sides: Sides,
    text: &[u8],
    judge: &mut PlanJudge<Global, B>,
) -> Result<(), RunnersFault>
    requires fresh { HasJudged judge.old.floor [] judge.old }
    ensures read { IfOk result (λ _. IsGiven judge.old.floor (IsRunnersPlan key sides.width sides.height text.now None) judge.new) }
    ensures fault { IfErr result (λ fault. IsRunnersFault key sides.width sides.height text.now fault) }
{
    match Value::from_slice(alloc, text) {
        Ok(value) => judge_value(alloc, key, sides, &value, judge),
        Err(error) => {
            if error.is_memory() {
                Err(RunnersFault::NoMemory)
            } else {
                Err(RunnersFault::NotJson)
            }
        }
    }
}
