//! A table of robots by the cells to which they move. Nothing rests on how it was filled: a step is free of conflicts
//! if each robot is found in the table for its own cell, since one robot is found for a cell.

ghost use Rattle.std.specs.Prelude.{◌≡◌, length, slice_index};
ghost use Rattle.fleet_check.specs.inside.Slots.{first_slot, found_in, found};

/// What an empty slot has. No robot has this number.
pub(crate) const EMPTY: u32 = 4_294_967_295;

/// In how many slots a cell is looked for.
pub(crate) const REACH: usize = 16;

/// The slot from which on a cell is looked for. Cells with numbers next to each other begin far apart.
fn first_slot(slots: &[u32], cell: u32) -> usize
    ensures { result ≡ first_slot (length slots.now) cell }
{
    let starts = slots.len().saturating_sub(REACH) as u64;
    let hash = cell.wrapping_mul(2_654_435_769) as u64;
    (hash.wrapping_mul(starts) >> 32) as usize
}

/// The robot that moves to the cell, looked for in `left` slots from the slot `at` on. Returns the number of robots if
/// there is none, or none before an empty slot.
#[tactic(auto, unfolding(crate::specs::inside::Slots::found_in))]
fn find_in(slots: &[u32], to: &[u32], cell: u32, at: usize, left: usize) -> usize
    ensures { result ≡ found_in slots.now to.now cell at left }
{
    if left == 0 {
        return to.len();
    }
    let Some(robot) = slots.get(at) else {
        return to.len();
    };
    let robot = *robot as usize;
    if robot >= to.len() {
        return to.len();
    }
    if to[robot] == cell {
        return robot;
    }
    find_in(slots, to, cell, at + 1, left - 1)
}

/// The robot that moves to the cell; the number of robots if none is found.
#[tactic(auto, unfolding(crate::specs::inside::Slots::found))]
pub(crate) fn find(slots: &[u32], to: &[u32], cell: u32) -> usize
    ensures { result ≡ found slots.now to.now cell }
{
    find_in(slots, to, cell, first_slot(slots, cell), REACH)
}

/// Puts the robot into the first empty slot for the cell. Returns whether there is one within reach.
fn seat(slots: &mut [u32], robot: u32, cell: u32) -> bool {
    let first = first_slot(slots, cell);
    for at in first..first + REACH {
        let Some(slot) = slots.get_mut(at) else {
            return false;
        };
        if *slot == EMPTY {
            *slot = robot;
            return true;
        }
    }
    false
}

/// Empties the table, and puts each robot into a slot for the cell to which it moves. Returns whether there is a slot
/// for each.
pub(crate) fn seat_all(slots: &mut [u32], to: &[u32]) -> bool {
    slots.fill(EMPTY);
    let mut robot = 0;
    for cell in to {
        if robot == EMPTY || !seat(slots, robot, *cell) {
            return false;
        }
        robot += 1;
    }
    true
}
