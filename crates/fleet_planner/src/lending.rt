//! Whose turn is lent, and which door is shut: what goes before a step in which robots take turns in rooms.

ghost use Rattle.std.specs.Prelude.{◌≡◌, ◌≢◌, ℕ, ◌+◌, ◌^◌, ◌<◌, ◌≤◌, ◌↔◌, ◌⊎◌, Some, None, IsTrue, MatchOption, length, slice_index, slice_set};
ghost use Rattle.fleet_pibt.specs.Order.{wait_of};
ghost use Rattle.fleet_pibt.specs.Eldest.{IsEldest};
ghost use Rattle.fleet_planner.specs.Lending.{IsServedFor, IsRank, AreRanks, IsInside, IsNearestOf, IsNearestInside, IsLentTo, IsLent, goal_at};

use crate::waits::eldest;
use fleet_pibt::Door;

/// The rooms of a map in lists by cells, as fleet_bridge finds them, and how far the cells are from their cores.
#[derive(Clone, Copy)]
pub struct RoomLists<'a> {
    /// By each cell the core of its part: a cell outside all rooms.
    pub core: &'a [u32],
    /// By each cell the door of its room, or the core where it is in none.
    pub door: &'a [u32],
    /// By each door the mouth of its room: the cell next to it outside.
    pub mouth: &'a [u32],
    /// By each core for how many robots the cells of its part are served.
    pub capacity: &'a [u32],
    /// By each cell how many edges it is away from the core.
    pub away: &'a [u32],
}

/// What is lent for one tick.
#[derive(Clone, Copy, Debug, PartialEq, Eq)]
pub struct Lending {
    /// The robot that goes first, to the mouth of the room, in place of the eldest.
    pub lender: Option<u32>,
    /// The door that is shut.
    pub door: Option<Door>,
}

impl Lending {
    /// Nothing is lent, and no door is shut.
    const NOTHING: Lending = Lending {
        lender: None,
        door: None,
    };
}

/// The number at a place, or 0 past the end.
fn read(list: &[u32], at: u32) -> u32
    ensures { result ≡ slice_index list.now at }
{
    if (at as usize) < list.len() {
        list[at as usize]
    } else {
        0
    }
}

/// Whether the cell is served for this many robots.
fn is_served(rooms: RoomLists<'_>, robots: usize, cell: u32) -> bool
    ensures { IsTrue result ↔ IsServedFor rooms.entry.core.now rooms.entry.capacity.now robots cell }
{
    robots <= read(rooms.capacity, read(rooms.core, cell)) as usize
}

/// The rank of a robot with this goal and wait.
fn rank(rooms: RoomLists<'_>, robots: usize, goal: Option<u32>, wait: Option<u64>) -> Option<u64>
    requires early { (w : ℕ) → wait ≡ Some w → w + 1 < 2 ^ 63 }
    ensures { IsRank rooms.entry.core.now rooms.entry.capacity.now robots goal wait result }
{
    let wait = wait?;
    let Some(cell) = goal else {
        return Some(wait);
    };
    if is_served(rooms, robots, cell) {
        Some(wait + (1 << 63))
    } else {
        Some(wait)
    }
}

/// Writes the ranks of the robots with these goals and waits.
fn put_ranks(
    rooms: RoomLists<'_>,
    goals: &[Option<u32>],
    waits: &[Option<u64>],
    ranks: &mut [Option<u64>],
)
    requires same_goals { length goals.now ≡ length waits.now }
    requires same_ranks { length ranks.old ≡ length waits.now }
    requires early { (r w : ℕ) → wait_of waits.now r ≡ Some w → w + 1 < 2 ^ 63 }
    ensures { AreRanks rooms.entry.core.now rooms.entry.capacity.now goals.now waits.now ranks.new }
{
    for (robot, slot) in ranks.iter_mut().enumerate() {
        *slot = rank(rooms, waits.len(), goals[robot], waits[robot]);
    }
}

/// Whether the first robot is nearer to the core than the second.
fn is_nearer(rooms: RoomLists<'_>, cells: &[u32], a: u32, b: u32) -> bool
    ensures { IsTrue result ↔ (slice_index rooms.entry.away.now (slice_index cells.now a) < slice_index rooms.entry.away.now (slice_index cells.now b)) }
{
    read(rooms.away, read(cells, a)) < read(rooms.away, read(cells, b))
}

/// Whether another robot than `but` is in the room.
fn is_inside(rooms: RoomLists<'_>, cells: &[u32], room: u32, but: u32, robot: u32) -> bool
    requires { robot < length cells.now }
    ensures { IsTrue result ↔ IsInside rooms.entry.door.now cells.now room but robot }
{
    robot != but && read(rooms.door, read(cells, robot)) == room
}

/// The nearest of some robots in the room of this door and one more, where `found` is that of the others.
#[tactic(auto, using(crate::proofs::Lenders::lenders_skip, crate::proofs::Lenders::lenders_only, crate::proofs::Lenders::lenders_take, crate::proofs::Lenders::lenders_keep))]
fn nearer_of(
    rooms: RoomLists<'_>,
    cells: &[u32],
    room: u32,
    but: u32,
    found: Option<u32>,
    robot: u32,
) -> Option<u32>
    requires known { robot < length cells.now }
    requires found { MatchOption found
        ((r : ℕ) → r < robot → IsInside rooms.door.now cells.now room but r → ⊥)
        (λ x. IsNearestOf rooms.door.now rooms.away.now cells.now room but robot x) }
    ensures { MatchOption result
        ((r : ℕ) → r < robot + 1 → IsInside rooms.entry.door.now cells.now room but r → ⊥)
        (λ x. IsNearestOf rooms.entry.door.now rooms.entry.away.now cells.now room but (robot + 1) x) }
{
    if !is_inside(rooms, cells, room, but, robot) {
        return found;
    }
    match found {
        Some(x) => if is_nearer(rooms, cells, robot, x) {
            Some(robot)
        } else {
            found
        },
        None => Some(robot),
    }
}

/// The robot other than `but` that is in the room of this door, nearest to the mouth, and of several as near the one of
/// least number.
fn nearest_inside(rooms: RoomLists<'_>, cells: &[u32], room: u32, but: u32) -> Option<u32>
    requires { length cells.now ≤ 512 }
    ensures { MatchOption result
        ((r : ℕ) → IsInside rooms.entry.door.now cells.now room but r → ⊥)
        (λ x. IsNearestInside rooms.entry.door.now rooms.entry.away.now cells.now room but x) }
{
    let mut found = None;
    for robot in 0..cells.len() {
        found = nearer_of(rooms, cells, room, but, found, robot as u32);
    }
    found
}

/// What is lent where the eldest robot goes to this goal.
fn lent_to(rooms: RoomLists<'_>, cells: &[u32], eldest: u32, goal: u32) -> Lending
    requires { length cells.now ≤ 512 }
    ensures { IsLentTo rooms.entry.core.now rooms.entry.door.now rooms.entry.mouth.now rooms.entry.away.now cells.now eldest goal result }
{
    let room = read(rooms.door, goal);
    if room == read(rooms.core, goal) {
        return Lending::NOTHING;
    }
    let mouth = read(rooms.mouth, room);
    let door = Some(Door {
        from: mouth,
        to: room,
    });
    match nearest_inside(rooms, cells, room, eldest) {
        Some(lender) => Lending {
            lender: Some(lender),
            door,
        },
        None => if read(cells, eldest) == mouth {
            Lending::NOTHING
        } else {
            Lending { lender: None, door }
        },
    }
}

/// Writes the robots' ranks, by which a step orders them in place of their waits, and returns what is lent for it. Robots whose
/// goals are served come first, the longer wait first, and then the others that wait.
///
/// If the first of them goes into a room where other robots are, the one of these that is nearest to the mouth gets the
/// greatest rank of all, and is to go to the mouth in this step. The door is shut, so that nobody enters. If no other is there,
/// it is shut unless the first robot stands at the mouth. Where no goal is served, and where the first robot's is in no
/// room, nothing is lent, and no door is shut.
pub fn lend(
    rooms: RoomLists<'_>,
    cells: &[u32],
    goals: &[Option<u32>],
    waits: &[Option<u64>],
    ranks: &mut [Option<u64>],
) -> Lending
    requires few { length cells.now ≤ 512 }
    requires same_cells { length cells.now ≡ length waits.now }
    requires same_goals { length goals.now ≡ length waits.now }
    requires same_ranks { length ranks.old ≡ length waits.now }
    requires early { (r w : ℕ) → wait_of waits.now r ≡ Some w → w + 1 < 2 ^ 63 }
    ensures lent { IsLent rooms.entry.core.now rooms.entry.door.now rooms.entry.mouth.now rooms.entry.capacity.now rooms.entry.away.now cells.now goals.now waits.now ranks.new result }
    ensures first { (x : ℕ) → result.lender ≡ Some x → IsEldest ranks.new x }
{
    put_ranks(rooms, goals, waits, ranks);
    let Some(first) = eldest(ranks) else {
        return Lending::NOTHING;
    };
    let Some(goal) = goals[first as usize] else {
        return Lending::NOTHING;
    };
    if !is_served(rooms, waits.len(), goal) {
        return Lending::NOTHING;
    }
    let lending = lent_to(rooms, cells, first, goal);
    if let Some(lender) = lending.lender {
        ranks[lender as usize] = Some(u64::MAX);
    }
    lending
}
