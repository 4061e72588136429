//! What changes make of a chapter's end.

ghost use Rattle.std.specs.Prelude.{◌≡◌, ◌↔◌, IfErr, IfOk, IsTrue, length, slice_get};
ghost use Rattle.std.specs.Option.{option_map};
ghost use Rattle.fleet_grid.specs.Floor.{floor_of_map};
ghost use Rattle.fleet_history.specs.History.{history_of};
ghost use Rattle.fleet_history.specs.Next.{next_opening};
ghost use Rattle.fleet_map.specs.Form.{HasSides};
ghost use Rattle.fleet_map.specs.Grammar.{view};
ghost use Rattle.fleet_trace.specs.Chapters.{IsSound};
ghost use Rattle.fleet_site.specs.Make.{AreUnlike, IsEndFault, IsMade, IsOfRobots, IsSiteAt, IsSiteFault, floor_at, is_held_at, opened, opened_one, opened_site, record_after};
ghost use Rattle.fleet_site.specs.Record.{record_of};
ghost use Rattle.fleet_site.specs.declared.making.MakeFault.TheVariants.{NoMemory};

use crate::after::opening_after;
use crate::record::SiteRecord;
use crate::sums::checksum;
use fleet_grid::Grid;
use fleet_history::{Chapter, Opening, RobotState};
use fleet_map::MapText;
use fleet_refit::{AfterFault, Change, Refit, RefitFault, Site, Standing};
use std::alloc::{AllocError, Global};

/// How many robots there may be.
const MOST_ROBOTS: usize = 512;

/// Changes that were made, and their record.
#[derive(Drop)]
pub struct Made {
    pub refit: Refit,
    pub record: SiteRecord,
}

/// Why no changes were made.
#[derive(Clone, Copy, Debug, PartialEq, Eq)]
pub enum MakeFault {
    /// The chapter is not legal on the map, or its clock may come to 2^63, or it is the last that there can be.
    Chapter,
    /// The chapter is not of the record's robots.
    Robots,
    /// The changes are refused.
    Refit(RefitFault),
    NoMemory,
}

impl From<AllocError> for MakeFault {
    ghost from_gives = { λ _ f. f ≡ NoMemory };

    fn from(_error: AllocError) -> MakeFault {
        MakeFault::NoMemory
    }
}

/// The same map.
fn copy_of(alloc: Global, map: &MapText) -> Result<MapText, AllocError>
    ensures { IfOk result (λ copy. view copy ≡ view map.now) }
{
    Ok(MapText {
        height: map.height,
        width: map.width,
        cells: Vec::from_slice(alloc, &map.cells)?,
    })
}

/// Whether the robot of that number is held.
fn is_held_at(standings: &[Standing], robot: usize) -> bool
    ensures { result ≡ is_held_at standings.now robot }
{
    match standings.get(robot) {
        Some(Standing::Held) => true,
        _ => false,
    }
}

/// The cell of the robot of that number, if there is one.
fn cell_at(robots: &[RobotState], robot: usize) -> Option<u32>
    ensures { result ≡ option_map (λ x. x.cell) (slice_get robots.now robot) }
{
    Some(robots.get(robot)?.cell)
}

/// Makes a cell floor, where there is such a cell.
fn put_floor(letters: &mut Vec<u8>, cell: Option<u32>)
    ensures { letters.new.items ≡ floor_at letters.old.items cell }
{
    let Some(cell) = cell else {
        return;
    };
    if let Some(letter) = letters.get_mut(cell as usize) {
        *letter = b'.';
    }
}

/// Makes the cell of a robot floor, if the robot is held.
fn open_one(letters: &mut Vec<u8>, standings: &[Standing], robots: &[RobotState], robot: usize)
    ensures { letters.new.items ≡ opened_one letters.old.items standings.now robots.now robot }
{
    if is_held_at(standings, robot) {
        put_floor(letters, cell_at(robots, robot));
    }
}

/// Makes the cells of the robots that are held floor again: on the map of their chapter they are walls.
fn open_held(letters: &mut Vec<u8>, standings: &[Standing], robots: &[RobotState])
    ensures exact { letters.new.items ≡ opened letters.old.items standings.now robots.now (length robots.now) }
    ensures length { length letters.new.items ≡ length letters.old.items }
{
    for robot in 0..robots.len() {
        open_one(letters, standings, robots, robot);
    }
}

/// Whether the lists of a record are of the same robots, and these are not too many.
fn is_of_robots(record: &SiteRecord) -> bool
    ensures { IsTrue result ↔ IsOfRobots (record_of record.now) }
{
    let robots = record.everyone.robots.len();
    record.standings.len() == robots && robots <= MOST_ROBOTS
}

/// The site of a record, as its chapter begins.
fn site_of(map: MapText, record: &SiteRecord) -> Result<Site, MakeFault>
    requires { HasSides (view map) }
    ensures ok { IfOk result (λ site. IsOfRobots (record_of record.now) × (site ≡ opened_site (floor_of_map (view map)) (record_of record.now))) }
    ensures fault { IfErr result (λ fault. IsSiteFault (record_of record.now) fault) }
{
    if !is_of_robots(record) {
        return Err(MakeFault::Robots);
    }
    let mut map = map;
    let robots = record.everyone.robots.as_slice();
    open_held(&mut map.cells, &record.standings, robots);
    Ok(Site::of_everyone(map, &record.everyone, &record.standings)?)
}

/// The opening of the chapter that follows on that map.
fn end_of(alloc: Global, map: &MapText, chapter: &Chapter) -> Result<Opening, MakeFault>
    requires { HasSides (view map.now) }
    ensures ok { IfOk result (λ end. IsSound (floor_of_map (view map.now)) (history_of chapter.now) × (end ≡ next_opening (history_of chapter.now))) }
    ensures fault { IfErr result (λ fault. IsEndFault (floor_of_map (view map.now)) (history_of chapter.now) fault) }
{
    let grid = Grid::new(copy_of(alloc, map)?)?;
    match opening_after(alloc, &grid, chapter)? {
        Some(end) => Ok(end),
        None => Err(MakeFault::Chapter),
    }
}

/// The site at the end of a chapter.
fn site_at(map: MapText, before: Option<&SiteRecord>, end: &Opening) -> Result<Site, MakeFault>
    requires { HasSides (view map) }
    ensures ok { IfOk result (λ site. IsSiteAt (floor_of_map (view map)) (option_map (λ r. record_of r.now) before.entry) end.now site) }
    ensures fault { IfErr result (λ fault. AreUnlike (option_map (λ r. record_of r.now) before.entry) end.now fault) }
{
    let alloc = *map.cells.allocator();
    let Some(record) = before else {
        if end.robots.len() > MOST_ROBOTS {
            return Err(MakeFault::Robots);
        }
        return Ok(Site::new(map, end)?);
    };
    let site = site_of(map, record)?;
    match site.after(alloc, end) {
        Ok(site) => Ok(site),
        Err(AfterFault::Robots) => Err(MakeFault::Robots),
        Err(AfterFault::NoMemory) => Err(MakeFault::NoMemory),
    }
}

/// The record of changes that led to a site.
fn recorded(
    alloc: Global,
    chapter: u32,
    changes: &[Change],
    refit: &Refit,
) -> Result<SiteRecord, AllocError>
    ensures { IfOk result (λ kept. record_of kept ≡ record_after chapter changes.now refit.now) }
{
    let everyone = refit.site.everyone(alloc)?;
    let standings = refit.site.standings(alloc)?;
    let dropped = Vec::from_slice(alloc, &refit.dropped)?;
    let changes = Vec::from_slice(alloc, changes)?;
    Ok(SiteRecord {
        chapter,
        map: checksum(&refit.grid),
        changes,
        dropped,
        standings,
        everyone,
    })
}

/// What the changes make of the end of a chapter on a map: the site, what its fleet goes on with, and the record of both,
/// which belongs to the chapter after it. `before` is the record of the last changes before the chapter; without it all
/// robots move.
///
/// Refused in this order: the chapter is not legal on the map, its clock may come to 2^63, or no number follows
/// (`Chapter`); the record is of other robots (`Robots`); the changes are (`Refit`). Out of memory may come at any point.
pub fn make(
    alloc: Global,
    map: MapText,
    before: Option<&SiteRecord>,
    chapter: &Chapter,
    changes: &[Change],
) -> Result<Made, MakeFault>
    requires { HasSides (view map) }
    ensures made { IfOk result (λ made. IsMade (floor_of_map (view map)) (option_map (λ r. record_of r.now) before.entry) chapter.now.number (history_of chapter.now) changes.now made) }
{
    let Some(number) = chapter.number.checked_add(1) else {
        return Err(MakeFault::Chapter);
    };
    let end = end_of(alloc, &map, chapter)?;
    let site = site_at(map, before, &end)?;
    match site.refit(alloc, changes) {
        Ok(refit) => {
            let record = recorded(alloc, number, changes, &refit)?;
            Ok(Made { refit, record })
        }
        Err(RefitFault::NoMemory) => Err(MakeFault::NoMemory),
        Err(fault) => Err(MakeFault::Refit(fault)),
    }
}
