//! How all robots of a fleet stand.

ghost use Rattle.std.specs.Prelude.{◌≡◌, ◌≤◌, ◌<◌, ◌++◌, ◌||◌, ◌==◌, false, IfOk, List, OnOk, Some, map, slice_get, slice_index, slice_index_or, vec_len};
ghost use Rattle.std.specs.List.{flat_map, list_any};
ghost use Rattle.fleet_history.specs.History.{place, robots};
ghost use Rattle.fleet_talk.specs.Said.{under};
ghost use Rattle.live_fleet.specs.declared.speaker.Speaker.{Speaker};
ghost use Rattle.live_fleet.specs.Act.{Act};
ghost use Rattle.live_fleet.specs.Party.{stage_of};
ghost use Rattle.live_fleet.specs.Robots.{HearsRobots, IsRoll, all_open, duty_of, errands_of, goal_of, row_of, rows_of, shut_in};

use crate::answering::kept_mark;
use crate::line::Place;
use crate::outboxes::Outboxes;
use crate::party::{Party, count_of};
use crate::rest::{Listing, Rest, Rows};
use crate::robots::{Duty, RobotRow};
use fleet_core::{Entry, Errand, OpenErrand, RobotState};
use fleet_world::Session;
use std::alloc::{AllocError, Global};

/// Adds the robot that an entry shuts, if it is a shut.
fn add_shut(shut: &mut Vec<u32>, entry: &Entry) -> Result<(), AllocError>
    ensures { OnOk result (shut.new.items ≡ shut.old.items ++ shut_in entry.now) }
{
    match entry {
        Entry::Shut { robot, farewell: _ } => Ok(shut.push(*robot)?),
        Entry::Take { .. } | Entry::Tick { .. } => Ok(()),
    }
}

/// The robots that these entries shut.
fn shut_robots(alloc: Global, entries: &[Entry]) -> Result<Vec<u32>, AllocError>
    ensures { IfOk result (λ shut. shut.items ≡ flat_map shut_in entries.now) }
{
    let mut shut = Vec::new(alloc);
    for entry in entries {
        add_shut(&mut shut, entry)?;
    }
    Ok(shut)
}

/// The open errands of all clients.
fn all_open(alloc: Global, session: &Session) -> Result<Vec<OpenErrand>, AllocError>
    requires { 0 ≤ session.now.world.core.number }
    ensures { IfOk result (λ all. all.items ≡ all_open session.now.world.core.history) }
{
    let mut all = Vec::new(alloc);
    for client in 0..count_of(session) {
        let more = session.world.open_errands(alloc, client)?;
        all.extend_from_slice(&more)?;
    }
    Ok(all)
}

/// How many of these errands are a robot's.
fn errands_of(all: &[OpenErrand], robot: u32) -> usize
    ensures { result ≡ errands_of all.now robot }
{
    all.iter().filter(|errand| errand.robot == robot).count()
}

/// Whether a robot was shut at the opening.
fn was_shut(robots: &[RobotState], robot: u32) -> bool
    ensures { result ≡ slice_index_or (map (λ x. x.shut) robots.now) robot false }
{
    match robots.get(robot as usize) {
        Some(state) => state.shut,
        None => false,
    }
}

/// Whether a robot is one of these.
fn is_among(shut: &[u32], robot: u32) -> bool
    ensures { result ≡ list_any (λ x. x == robot) shut.now }
{
    shut.iter().any(|other| *other == robot)
}

/// Whether a robot is shut: it was at the opening, or is one of these.
fn is_shut(robots: &[RobotState], shut: &[u32], robot: u32) -> bool
    ensures { result ≡ (slice_index_or (map (λ x. x.shut) robots.now) robot false || list_any (λ x. x == robot) shut.now) }
{
    if was_shut(robots, robot) {
        return true;
    }
    is_among(shut, robot)
}

/// Whether a robot is free, busy or shut.
fn duty_of(is_shut: bool, is_busy: bool) -> Duty
    ensures { result ≡ duty_of is_shut is_busy }
{
    if is_shut {
        Duty::Shut
    } else if is_busy {
        Duty::Busy
    } else {
        Duty::Free
    }
}

/// A robot's cell.
fn cell_of(session: &Session, robot: u32) -> u32
    ensures { result ≡ slice_index (place session.now.world.core.history) robot }
{
    match session.world.placement().get(robot as usize) {
        Some(cell) => *cell,
        None => 0,
    }
}

/// The cell of a robot's first errand, or its own.
fn goal_of(cell: u32, front: Option<Errand>) -> u32
    ensures { result ≡ goal_of cell front }
{
    match front {
        Some(errand) => errand.cell,
        None => cell,
    }
}

/// How a robot stands, by the robots that the chapter shuts and all open errands.
fn row_of(session: &Session, shut: &[u32], all: &[OpenErrand], robot: u32) -> RobotRow
    requires number { 0 ≤ session.now.world.core.number }
    requires there { robot < robots session.now.world.core.history }
    requires shut { shut.now ≡ flat_map shut_in session.now.world.core.history.entries }
    requires all { all.now ≡ all_open session.now.world.core.history }
    ensures { result ≡ row_of session.now.world.core robot }
{
    let world = &session.world;
    let is_shut = is_shut(world.chapter().opening.robots.as_slice(), shut, robot);
    let wait = world.wait_of(robot);
    let cell = cell_of(session, robot);
    RobotRow {
        robot,
        cell,
        goal: goal_of(cell, world.front(robot)),
        errands: errands_of(all, robot),
        wait: wait.unwrap_or(0),
        duty: duty_of(is_shut, wait.is_some()),
    }
}

/// How many robots a fleet has.
fn robot_count(session: &Session) -> u32
    requires { 0 ≤ session.now.world.core.number }
    ensures { result ≡ robots session.now.world.core.history }
{
    // Its contract says that there are few.
    let _chapter = session.world.chapter();
    session.world.robots() as u32
}

/// How this many robots stand, which are all, by the robots that the chapter shuts and all open errands.
fn rows_by(
    alloc: Global,
    session: &Session,
    shut: &[u32],
    all: &[OpenErrand],
    count: u32,
) -> Result<Vec<RobotRow>, AllocError>
    requires number { 0 ≤ session.now.world.core.number }
    requires shut { shut.now ≡ flat_map shut_in session.now.world.core.history.entries }
    requires all { all.now ≡ all_open session.now.world.core.history }
    requires count { count ≡ robots session.now.world.core.history }
    ensures { IfOk result (λ rows. rows.items ≡ rows_of session.now.world.core) }
{
    let mut rows = Vec::with_capacity(alloc, count as usize)?;
    for robot in 0..count {
        rows.push_reserved(row_of(session, shut, all, robot));
    }
    Ok(rows)
}

/// How all robots stand.
fn rows_of(alloc: Global, session: &Session) -> Result<Vec<RobotRow>, AllocError>
    requires { 0 ≤ session.now.world.core.number }
    ensures { IfOk result (λ rows. rows.items ≡ rows_of session.now.world.core) }
{
    let shut = shut_robots(alloc, session.world.chapter().entries.as_slice())?;
    let all = all_open(alloc, session)?;
    rows_by(alloc, session, &shut, &all, robot_count(session))
}

/// The list of how all robots stand, before the first line.
fn begin_roll(alloc: Global, session: &Session, mark: Option<&[u8]>) -> Result<Rest, AllocError>
    requires { 0 ≤ session.now.world.core.number }
    ensures { IfOk result (λ rest. IsRoll (under mark.entry) session.now.world.core rest) }
{
    let mark = kept_mark(alloc, mark)?;
    let rows = rows_of(alloc, session)?;
    Ok(Rest::Listing(Listing {
        mark,
        rows: Rows::Robots(rows),
        listed: 0,
    }))
}

impl Party {
    /// Begins to list how each robot stands.
    pub(crate) fn hear_robots(
        &mut self,
        alloc: Global,
        out: &Outboxes,
        place: Place<'_>,
    ) -> Result<(), AllocError>
        requires number { 0 ≤ self.old.fleet.session.world.core.number }
        requires there { place.to < vec_len self.old.speakers }
        ensures ok { OnOk result ((sp : Speaker) → slice_get self.old.speakers.items place.entry.to ≡ Some sp →
            (acts : List Act) × HearsRobots place.entry.to sp (under place.entry.line.mark) (stage_of self.old out.now) acts (stage_of self.new out.now)) }
    {
        // It is read by the contract alone.
        let _out = out;
        let rest = begin_roll(alloc, &self.fleet.session, place.line.mark)?;
        self.speakers[place.to].rest = rest;
        Ok(())
    }
}
