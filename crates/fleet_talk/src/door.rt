//! To which cells posts are refused.

ghost use Rattle.std.specs.Prelude.{◌≡◌, Bool, List, None, true, count_by, min, IfOk, IfSome, string_bytes};
ghost use Rattle.std.specs.List.{position};
ghost use Rattle.fleet_bridge.specs.Roominess.{AreRoomyFor};
ghost use Rattle.fleet_grid.specs.Counts.{floor_count};
ghost use Rattle.fleet_roomy.specs.Unroomy.{AreUnroomy, has};
ghost use Rattle.fleet_talk.specs.Door.{AreRefused, event_let_in, let_in, line_let_in, order_let_in, refused_post_text, unroomy_line};
ghost use Rattle.fleet_talk.specs.Lines.{line_shown};
ghost use Rattle.fleet_talk.specs.Resumed.{NoneWaits, Waits};

use crate::ask::{Asked, Line, line_of};
use fleet_book::{Event, Order};
use fleet_bridge::roominess;
use fleet_core::{OpenErrand, World};
use fleet_grid::Grid;
use fleet_roomy::{UnroomyCells, unroomy_by};
use fleet_script::Repeat;
use fleet_text::{no_client_line, no_room_line};
use std::alloc::{AllocError, Global};

/// A number of robots or clients: there are no more than 64,512 of them.
pub fn counted(number: usize) -> u32
    ensures { result ≡ min number 4294967295 }
{
    u32::try_from(number).unwrap_or(u32::MAX)
}

/// The door of a fleet: to which cells posts are refused, and how many cells are not roomy for its robots.
#[derive(Drop)]
pub struct Door {
    /// Whether posts to cells that are not roomy are refused.
    pub roomy: bool,
    /// To which cells posts are refused.
    pub refused: UnroomyCells,
    /// For how many robots each cell is roomy, as `fleet_bridge::roominess` says it.
    pub roominess: Vec<u32>,
    /// How many floor cells are not roomy, whether or not posts to them are refused.
    pub unroomy: usize,
    pub floor: u32,
    pub robots: u32,
}

/// An errand in a robot's queue whose cell is not roomy.
#[derive(Clone, Copy, Debug, PartialEq, Eq)]
pub struct UnroomyErrand {
    pub client: u32,
    pub robot: u32,
    pub cell: u32,
}

/// The door of a fleet of this many robots. If `roomy`, posts to cells that are not roomy for them are refused, and
/// else no post. `AllocError` if memory runs out.
pub fn door_for(alloc: Global, roomy: bool, grid: &Grid, robots: u32) -> Result<Door, AllocError>
    ensures refused { IfOk result (λ door. AreRefused roomy grid.now robots door.refused.marks.items) }
    ensures roominess { IfOk result (λ door. AreRoomyFor grid.now door.roominess.items) }
    ensures unroomy { IfOk result (λ door. (cells : List Bool) × AreUnroomy grid.now robots cells × (door.unroomy ≡ count_by (λ is_one. is_one) cells)) }
    ensures floor { IfOk result (λ door. door.floor ≡ floor_count grid.now) }
    ensures robots { IfOk result (λ door. door.robots ≡ robots) }
    ensures roomy { IfOk result (λ door. door.roomy ≡ roomy) }
{
    let roominess = roominess(alloc, grid)?;
    let cells = unroomy_by(alloc, grid, &roominess, robots)?;
    let unroomy = cells.count();
    Ok(Door {
        roomy,
        refused: if roomy {
            cells
        } else {
            UnroomyCells::none(alloc)
        },
        roominess,
        unroomy,
        floor: grid.floor_count(),
        robots,
    })
}

/// The line that warns of cells that are not roomy.
pub fn unroomy_line(alloc: Global, door: &Door) -> Result<String, AllocError>
    ensures { IfOk result (λ line. string_bytes line ≡ unroomy_line door.now.unroomy door.now.floor door.now.robots) }
{
    let (unroomy, floor, robots) = (door.unroomy, door.floor, door.robots);
    format!(in alloc;
        "fleet: {unroomy} of {floor} cells are not roomy for {robots} robots: errands there may block the fleet for ever (see --planner turns)\n"
    )
}

/// What a post asks of a fleet that refuses posts to these cells.
fn order_let_in(cells: &UnroomyCells, more: Repeat, client: u32, order: Order) -> Asked
    ensures { result ≡ order_let_in cells.now.marks.items more client order }
{
    match order {
        Order::Go { robot: _, cell } => {
            if cells.has(cell) {
                Asked::NoRoom(client)
            } else {
                Asked::Events(more)
            }
        }
        Order::Close | Order::Withdraw { .. } => Asked::Events(more),
    }
}

/// What events ask of such a fleet.
fn event_let_in(cells: &UnroomyCells, more: Repeat) -> Asked
    ensures { result ≡ event_let_in cells.now.marks.items more more.event }
{
    match more.event {
        Event::Post(client, order) => order_let_in(cells, more, client, order),
        Event::Take(_) | Event::Tick | Event::Give(_) | Event::Collect(_) | Event::Shut(_) =>
            Asked::Events(more),
    }
}

/// What a line asks of such a fleet.
fn let_in(cells: &UnroomyCells, asked: Asked) -> Asked
    ensures { result ≡ let_in cells.now.marks.items asked }
{
    match asked {
        Asked::Events(more) => event_let_in(cells, more),
        asked => asked,
    }
}

/// As `line_of`, but a post to one of these cells is `NoRoom`.
pub fn line_let_in<'a>(cells: &UnroomyCells, number: u64, bytes: &'a [u8]) -> Line<'a>
    ensures { line_shown result ≡ line_let_in cells.now.marks.items number bytes.now }
{
    let line = line_of(number, bytes);
    Line {
        number: line.number,
        mark: line.mark,
        told: line.told,
        asked: let_in(cells, line.asked),
    }
}

/// The answer to a post that is refused: that the cell is not roomy, or `no-client` if there is no such client.
pub(crate) fn refused_post_text(
    alloc: Global,
    world: &World,
    client: u32,
) -> Result<String, AllocError>
    ensures { IfOk result (λ text. string_bytes text ≡ refused_post_text world.now.core client) }
{
    if client as usize >= world.clients() {
        return no_client_line(alloc, client);
    }
    no_room_line(alloc, client)
}

/// The place of the first of these errands whose cell is one of these.
fn first_among(cells: &UnroomyCells, errands: &[OpenErrand]) -> Option<usize>
    ensures { result ≡ position (λ e. has cells.now.marks.items e.cell) errands.now }
{
    errands.iter().position(|errand| cells.has(errand.cell))
}

/// The first errand in the queues of a world that goes to one of these cells: by client, then by robot. `AllocError` if
/// memory runs out.
pub fn unroomy_errand(
    alloc: Global,
    world: &World,
    cells: &UnroomyCells,
) -> Result<Option<UnroomyErrand>, AllocError>
    ensures found { IfOk result (λ found. IfSome found (λ x. Waits world.now.core x × (has cells.now.marks.items x.cell ≡ true))) }
    ensures none { IfOk result (λ found. found ≡ None → NoneWaits cells.now.marks.items world.now.core) }
{
    let Ok(clients) = u32::try_from(world.clients()) else {
        return Err(AllocError);
    };
    for client in 0..clients {
        let errands = world.open_errands(alloc, client)?;
        match first_among(cells, &errands) {
            Some(place) => {
                let OpenErrand { robot, cell, .. } = errands[place];
                return Ok(Some(UnroomyErrand {
                    client,
                    robot,
                    cell,
                }));
            }
            None => {}
        }
    }
    Ok(None)
}
