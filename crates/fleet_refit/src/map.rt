//! The letters of a site's map.

ghost use Rattle.std.specs.Prelude.{◌≡◌, IfOk, slice_set};
ghost use Rattle.fleet_grid.specs.Floor.{floor_of, is_floor_letter};
ghost use Rattle.fleet_refit.specs.Map.{plan_map, walled};

use crate::seat::{Seat, is_held};
use crate::site::Site;
use fleet_grid::Grid;
use fleet_map::MapText;
use std::alloc::{AllocError, Allocator};

/// The letter of a wall.
pub(crate) const WALL: u8 = b'@';
/// The letter of floor.
pub(crate) const FLOOR: u8 = b'.';

/// The same map.
pub(crate) fn copied_map<A: Allocator + Copy>(
    alloc: A,
    map: &MapText<A>,
) -> Result<MapText<A>, AllocError>
    ensures height { IfOk result (λ copy. copy.height ≡ map.now.height) }
    ensures width { IfOk result (λ copy. copy.width ≡ map.now.width) }
    ensures cells { IfOk result (λ copy. copy.cells.items ≡ map.now.cells.items) }
{
    Ok(MapText {
        height: map.height,
        width: map.width,
        cells: Vec::from_slice(alloc, &map.cells)?,
    })
}

/// Whether that letter is floor.
pub(crate) fn is_floor_letter(letter: u8) -> bool
    ensures { result ≡ is_floor_letter letter }
{
    letter == b'.' || letter == b'G' || letter == b'S'
}

/// The letters, where each robot that is held stands on its cell like a wall.
fn walled<A: Allocator + Copy>(
    alloc: A,
    letters: &[u8],
    seats: &[Seat<A>],
) -> Result<Vec<u8, A>, AllocError>
    ensures { IfOk result (λ copy. copy.items ≡ walled letters.now seats.now) }
{
    let mut copy = Vec::from_slice(alloc, letters)?;
    for place in 0..seats.len() {
        let seat = &seats[place];
        if is_held(seat.standing) {
            put(&mut copy, seat.robot.cell, WALL);
        }
    }
    Ok(copy)
}

/// Gives a cell that letter, where there is such a cell.
fn put<A: Allocator + Copy>(letters: &mut Vec<u8, A>, cell: u32, letter: u8)
    ensures { letters.new.items ≡ slice_set letters.old.items cell letter }
{
    if let Some(place) = letters.get_mut(cell as usize) {
        *place = letter;
    }
}

impl<A: Allocator + Copy> Site<A> {
    /// The map on which the fleet moves.
    pub(crate) fn grid(&self, alloc: A) -> Result<Grid<A>, AllocError>
        ensures { IfOk result (λ grid. grid ≡ plan_map self.now) }
    {
        Grid::new(MapText {
            height: self.map.height,
            width: self.map.width,
            cells: walled(alloc, &self.map.cells, &self.seats)?,
        })
    }
}
