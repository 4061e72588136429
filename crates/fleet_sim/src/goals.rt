//! The cells to which robots are sent.

use crate::draw::below;
use crate::setting::Setting;
use crate::tasks::Tasks;
use fleet_grid::Grid;
use fleet_roomy::{UnroomyCells, unroomy_cells};
use rand_xoshiro::Xoshiro256PlusPlus;
use std::alloc::{AllocError, Global};

/// The goals of a fleet, part by part.
#[derive(Drop)]
pub(crate) struct Goals {
    /// Whether the cell of this number is a goal.
    marks: Vec<bool>,
    /// For each robot the first robot that is in its part.
    leaders: Vec<usize>,
    /// The goals in the part of a robot that is the first in its part, by number; of other robots none.
    groups: Vec<Vec<u32>>,
    /// The goals that are handed out in turn, if they are not random.
    tasks: Option<Tasks>,
}

/// Marks the cells of a list.
fn mark_all(marks: &mut [bool], cells: &[u32]) {
    for cell in cells {
        let place = *cell as usize;
        if place < marks.len() {
            marks[place] = true;
        }
    }
}

/// The cells of a list, as marks of all cells of the map.
fn marks_of(alloc: Global, grid: &Grid, cells: Option<&[u32]>) -> Result<Vec<bool>, AllocError> {
    let mut marks = vec![in alloc; cells.is_none(); grid.cell_count() as usize]?;
    if let Some(listed) = cells {
        mark_all(marks.as_mut_slice(), listed);
    }
    Ok(marks)
}

/// The cells to which errands may not go although they are floor.
fn refused_cells(
    alloc: Global,
    grid: &Grid,
    setting: Setting<'_>,
) -> Result<UnroomyCells, AllocError> {
    if setting.roomy {
        unroomy_cells(alloc, grid, setting.robots)
    } else {
        Ok(UnroomyCells::none(alloc))
    }
}

/// Whether the cell of this number has a mark.
fn is_marked(marks: &[bool], cell: u32) -> bool {
    match marks.get(cell as usize) {
        Some(mark) => *mark,
        None => false,
    }
}

/// For each cell of the map, whether it is a goal.
fn goal_marks(alloc: Global, grid: &Grid, setting: Setting<'_>) -> Result<Vec<bool>, AllocError> {
    let listed = marks_of(alloc, grid, setting.stations)?;
    let refused = refused_cells(alloc, grid, setting)?;
    (0..grid.cell_count())
        .map(|cell| is_marked(&listed, cell) && grid.is_floor(cell) && !refused.has(cell))
        .collect(alloc)
}

/// Whether a walk joins two cells.
fn is_joined(grid: &Grid, a: u32, b: u32) -> bool {
    grid.is_floor(a) && grid.is_floor(b) && grid.same_part(a, b)
}

/// The first of these cells that is in the part of the one at a place.
fn leader_of(grid: &Grid, starts: &[u32], place: usize) -> usize {
    if place >= starts.len() {
        return place;
    }
    match starts
        .iter()
        .position(|start| is_joined(grid, *start, starts[place]))
    {
        Some(first) => first,
        None => place,
    }
}

/// The goals in the part of a cell, by number.
fn group_of(
    alloc: Global,
    grid: &Grid,
    marks: &[bool],
    start: u32,
) -> Result<Vec<u32>, AllocError> {
    (0..grid.cell_count())
        .filter(|cell| is_marked(marks, *cell) && is_joined(grid, *cell, start))
        .collect(alloc)
}

/// The goals of each robot that is the first in its part.
fn groups_of(
    alloc: Global,
    grid: &Grid,
    marks: &[bool],
    starts: &[u32],
    leaders: &[usize],
) -> Result<Vec<Vec<u32>>, AllocError> {
    let mut groups = Vec::new(alloc);
    for robot in 0..starts.len() {
        let group = if leaders.get(robot).copied() == Some(robot) {
            group_of(alloc, grid, marks, starts[robot])?
        } else {
            Vec::new(alloc)
        };
        groups.push(group)?;
    }
    Ok(groups)
}

impl Goals {
    /// The goals of robots that start on these cells.
    pub(crate) fn of(
        alloc: Global,
        grid: &Grid,
        starts: &[u32],
        setting: Setting<'_>,
    ) -> Result<Goals, AllocError> {
        let marks = goal_marks(alloc, grid, setting)?;
        let leaders: Vec<usize> = (0..starts.len())
            .map(|robot| leader_of(grid, starts, robot))
            .collect(alloc)?;
        let groups = groups_of(alloc, grid, &marks, starts, &leaders)?;
        let tasks = match setting.tasks {
            Some(cells) => Some(Tasks::of(alloc, cells)?),
            None => None,
        };
        Ok(Goals {
            marks,
            leaders,
            groups,
            tasks,
        })
    }

    /// The goals in the part of a robot.
    fn group(&self, robot: u32) -> &[u32] {
        match self.leaders.get(robot as usize) {
            Some(leader) => match self.groups.get(*leader) {
                Some(group) => group.as_slice(),
                None => &[],
            },
            None => &[],
        }
    }

    /// The next goal of a robot that is not the cell on which it stands: of the tasks, or a random one. `None` if there is
    /// none.
    pub(crate) fn next(
        &mut self,
        grid: &Grid,
        robot: u32,
        own: u32,
        random: &mut Xoshiro256PlusPlus,
    ) -> Option<u32> {
        if let Some(tasks) = &mut self.tasks {
            return tasks.next(grid, &self.marks, own);
        }
        self.draw(robot, own, random)
    }

    /// A random goal of a robot that is not the cell on which it stands; `None` if there is none.
    fn draw(&self, robot: u32, own: u32, random: &mut Xoshiro256PlusPlus) -> Option<u32> {
        let group = self.group(robot);
        if is_marked(&self.marks, own) {
            beside(group, own, random)
        } else {
            any_of(group, random)
        }
    }
}

/// A random cell.
fn any_of(cells: &[u32], random: &mut Xoshiro256PlusPlus) -> Option<u32> {
    if cells.is_empty() {
        return None;
    }
    let place = below(random, cells.len());
    Some(cells[place])
}

/// A random cell of those that are not `own`, which is one of the cells: they rise.
fn beside(cells: &[u32], own: u32, random: &mut Xoshiro256PlusPlus) -> Option<u32> {
    if cells.len() < 2 {
        return None;
    }
    let place = below(random, cells.len() - 1);
    let cell = cells[place];
    Some(if cell < own { cell } else { cells[place + 1] })
}
