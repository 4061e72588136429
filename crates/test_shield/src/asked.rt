//! What a shield answers on a small map.

use fleet_grid::Grid;
use fleet_map::read_map;
use fleet_shield::{Preferences, Refusal, Shield};
use std::alloc::{Alloc, Global};
use std::process::Abort;

/// A corridor of five cells above one of two cells, a wall, and two cells:
/// ```text
/// 0 1 2 3 4
/// 5 6 # 8 9
/// ```
pub(crate) const MAP: &str = "type octile\nheight 2\nwidth 5\nmap\n.....\n..@..\n";

/// The grid of that map.
pub(crate) fn grid(rt: &(impl Alloc<A = Global> + Abort)) -> Grid {
    let map = read_map(rt.alloc(), MAP.as_bytes()).expect(rt, "a map");
    Grid::new(map).expect(rt, "memory for a grid")
}

/// Why two robots have no step.
pub(crate) fn refusal(
    rt: &(impl Alloc<A = Global> + Abort),
    from: &[u32],
    order: &[u32],
    each: u16,
    cells: &[u32],
) -> Option<Refusal> {
    let grid = grid(rt);
    let mut shield = Shield::new(rt.alloc(), 10, 2).expect(rt, "memory for a shield");
    let mut to = [77, 78];
    let asked = Preferences { each, cells };
    match shield.step(&grid, from, order, &asked, &mut to) {
        Ok(()) => None,
        Err(refusal) => {
            assert!(rt; to == [77, 78]);
            Some(refusal)
        }
    }
}

/// Whether robots on these cells go to those, by a shield that has made another step before.
pub(crate) fn leads_to(
    rt: &(impl Alloc<A = Global> + Abort),
    from: &[u32],
    order: &[u32],
    each: u16,
    cells: &[u32],
    to: &[u32],
) -> bool {
    let grid = grid(rt);
    let robots = u32::try_from(from.len()).expect(rt, "few robots");
    let mut shield = Shield::new(rt.alloc(), 10, robots).expect(rt, "memory for a shield");
    let mut found = vec![in rt.alloc(); 0; robots as usize].expect(rt, "memory for cells");
    let rest = Preferences {
        each: 0,
        cells: &[],
    };
    let _stays = shield.step(&grid, from, order, &rest, &mut found);
    if found.as_slice() != from {
        return false;
    }
    let asked = Preferences { each, cells };
    match shield.step(&grid, from, order, &asked, &mut found) {
        Ok(()) => found.as_slice() == to,
        Err(_refusal) => false,
    }
}
