//! What the errands of each robot, or of each client, add up to.

ghost use Rattle.std.specs.Prelude.{◌≡◌, ◌++◌, ◌==◌, codes, count_by, OnOk, IfOk, string_bytes};
ghost use Rattle.fleet_stats.specs.Tallies.{owner_of, owner_name, own_rows, tally_of};
ghost use Rattle.fleet_stats.specs.Text.{tally_line, tallies_below, tallies_head, tallies_table};

use crate::figures::{service_times, travel_times, ways_of};
use crate::rows::{ErrandRow, LeftRow};
use crate::spread::total;
use std::alloc::{AllocError, Global};
use std::fmt::Write;

/// Whose errands are added up.
#[derive(Clone, Copy)]
pub(crate) enum Owner {
    Robot,
    Client,
}

/// What some errands add up to.
#[derive(Clone, Copy)]
pub(crate) struct Tally {
    /// How many were accepted and done in the run.
    pub(crate) errands: u64,
    /// How many are left.
    pub(crate) unfinished: u64,
    /// From the acceptance to the arrival, of those that were done.
    pub(crate) service: u64,
    /// From when the robot began them to the arrival.
    pub(crate) travel: u64,
    pub(crate) steps: u64,
    pub(crate) distance: u64,
}

/// Whose an errand is: of its robot or of its client.
fn owner_of(owner: Owner, client: usize, robot: usize) -> usize
    ensures { result ≡ owner_of owner client robot }
{
    match owner {
        Owner::Robot => robot,
        Owner::Client => client,
    }
}

/// What the owners are called.
fn owner_name(owner: Owner) -> &'static str
    ensures { result.now ≡ owner_name owner }
{
    match owner {
        Owner::Robot => "robot",
        Owner::Client => "client",
    }
}

/// The errands that were done, of one owner.
fn own_rows(
    alloc: Global,
    owner: Owner,
    rows: &[ErrandRow],
    key: usize,
) -> Result<Vec<ErrandRow>, AllocError>
    ensures { IfOk result (λ own. own.items ≡ own_rows owner rows.now key) }
{
    rows.iter()
        .filter(|row| owner_of(owner, row.done.client as usize, row.done.robot as usize) == key)
        .copied()
        .collect(alloc)
}

/// How many errands of one owner are left.
fn own_left(owner: Owner, left: &[LeftRow], key: usize) -> usize
    ensures { result ≡ count_by (λ x. owner_of owner x.left.client x.left.robot == key) left.now }
{
    left.iter()
        .filter(|row| owner_of(owner, row.left.client as usize, row.left.robot) == key)
        .count()
}

/// What the errands of one owner add up to.
fn tally_of(
    alloc: Global,
    owner: Owner,
    rows: &[ErrandRow],
    left: &[LeftRow],
    key: usize,
) -> Result<Tally, AllocError>
    ensures { IfOk result (λ tally. tally ≡ tally_of owner rows.now left.now key) }
{
    let own = own_rows(alloc, owner, rows, key)?;
    let services = service_times(alloc, &own)?;
    let travels = travel_times(alloc, &own)?;
    let (steps, distance) = ways_of(&own);
    Ok(Tally {
        errands: own.len() as u64,
        unfinished: own_left(owner, left, key) as u64,
        service: total(&services),
        travel: total(&travels),
        steps,
        distance,
    })
}

/// The line of an owner.
fn write_tally(out: &mut String, key: usize, tally: &Tally) -> Result<(), AllocError>
    ensures { OnOk result (string_bytes out.new ≡ string_bytes out.old ++ tally_line key tally.now) }
{
    let Tally {
        errands,
        unfinished,
        service,
        travel,
        steps,
        distance,
    } = *tally;
    write!(
        out,
        "{key},{errands},{unfinished},{service},{travel},{steps},{distance}\n"
    )
}

/// A line for each owner.
fn write_tallies(
    alloc: Global,
    out: &mut String,
    owner: Owner,
    rows: &[ErrandRow],
    left: &[LeftRow],
    count: usize,
) -> Result<(), AllocError>
    ensures { OnOk result (string_bytes out.new ≡ string_bytes out.old ++ tallies_below (tally_of owner rows.now left.now) count) }
{
    for key in 0..count {
        let tally = tally_of(alloc, owner, rows, left, key)?;
        write_tally(out, key, &tally)?;
    }
    Ok(())
}

/// Writes the first line of the table.
fn write_head(out: &mut String, owner: Owner) -> Result<(), AllocError>
    ensures { OnOk result (string_bytes out.new ≡ string_bytes out.old ++ tallies_head (owner_name owner)) }
{
    out.push_str(owner_name(owner))?;
    out.push_str(",errands,unfinished,service,travel,steps,distance\n")
}

/// The table of the robots, or of the clients, of which there are this many.
pub(crate) fn tallies_table(
    alloc: Global,
    owner: Owner,
    rows: &[ErrandRow],
    left: &[LeftRow],
    count: usize,
) -> Result<String, AllocError>
    ensures { IfOk result (λ text. string_bytes text ≡ tallies_table (owner_name owner) (tally_of owner rows.now left.now) count) }
{
    let mut out = String::new(alloc);
    write_head(&mut out, owner)?;
    write_tallies(alloc, &mut out, owner, rows, left, count)?;
    Ok(out)
}
