//! How far apart cells are, by a field that is searched only as far as it is asked.

ghost use Rattle.std.specs.Prelude.{◌≡◌, ℕ, MatchOption, IfOk, OnOk};
ghost use Rattle.fleet_grid.specs.declared.dir.Dir.{Dir as Way};
ghost use Rattle.fleet_grid.specs.Distance.{distance};
ghost use Rattle.fleet_grid.specs.Floor.{IsFloor, IsNeighbourIn};
ghost use Rattle.fleet_grid.specs.Ways.{IsWay};
ghost use Rattle.fleet_field.specs.Growing.{goal_of, Serves};
ghost use Rattle.fleet_stats.specs.Rows.{away};
ghost use Rattle.fleet_stats.specs.inside.Steps.{IsOnWay, IsNoWay, IsStep};

use fleet_field::GrowingField;
use fleet_grid::{Dir, Grid, Ways};
use std::alloc::{AllocError, Global};

/// The floor cell next to a cell in a direction, if that is one of the ways.
fn next_in(grid: &Grid, ways: Ways, cell: u32, dir: Dir) -> Option<u32>
    ensures { MatchOption result (IsNoWay grid.now ways.byte cell dir) (λ next. IsNeighbourIn grid.now dir cell next × IsWay ways.byte dir) }
{
    if ways.has(dir) {
        grid.neighbour(cell, dir)
    } else {
        None
    }
}

/// The floor cell to which the first of the ways leads.
fn first_next(grid: &Grid, ways: Ways, cell: u32) -> Option<u32>
    ensures { MatchOption result ((dir : Way) → IsNoWay grid.now ways.byte cell dir) (IsOnWay grid.now ways.byte cell) }
{
    if let Some(next) = next_in(grid, ways, cell, Dir::North) {
        return Some(next);
    }
    if let Some(next) = next_in(grid, ways, cell, Dir::East) {
        return Some(next);
    }
    if let Some(next) = next_in(grid, ways, cell, Dir::South) {
        return Some(next);
    }
    next_in(grid, ways, cell, Dir::West)
}

/// The next cell on a shortest walk from a floor cell to the field's goal; `None` at the goal, or if no walk leads there.
fn step(grid: &Grid, field: &mut GrowingField, cell: u32) -> Result<Option<u32>, AllocError>
    requires serves { Serves grid.now field.old }
    requires floor { IsFloor grid.now cell }
    ensures step { IfOk result (IsStep grid.now (goal_of field.old) cell) }
    ensures serves { Serves grid.now field.new }
    ensures goal { goal_of field.new ≡ goal_of field.old }
{
    let outlook = field.outlook(grid, cell)?;
    Ok(first_next(grid, outlook.nearer, cell))
}

/// How many steps a shortest walk from a floor cell to the field's goal has; `None` if there is no walk.
pub(crate) fn steps_to(
    grid: &Grid,
    field: &mut GrowingField,
    from: u32,
) -> Result<Option<u32>, AllocError>
    requires serves { Serves grid.now field.old }
    requires floor { IsFloor grid.now from }
    ensures steps { IfOk result (λ steps. steps ≡ distance grid.now from (goal_of field.old)) }
    ensures serves { Serves grid.now field.new }
    ensures goal { goal_of field.new ≡ goal_of field.old }
{
    let goal = field.goal();
    let mut cell = from;
    for taken in 0..grid.cell_count() {
        if cell == goal {
            return Ok(Some(taken));
        }
        match step(grid, field, cell)? {
            Some(next) => cell = next,
            None => return Ok(None),
        }
    }
    Ok(None)
}

/// How far apart two cells are; `None` if no walk joins them or one is not floor.
pub(crate) fn away(
    alloc: Global,
    grid: &Grid,
    from: u32,
    to: u32,
) -> Result<Option<u32>, AllocError>
    ensures { IfOk result (λ distance. distance ≡ away grid.now from to) }
{
    if !grid.is_floor(from) || !grid.is_floor(to) {
        return Ok(None);
    }
    let mut field = GrowingField::new(alloc, grid, to, from)?;
    steps_to(grid, &mut field, from)
}

/// Makes the field one to this goal, a floor cell: anew, or if it is another's. After an error it is of no use.
fn aim(
    grid: &Grid,
    field: &mut GrowingField,
    goal: u32,
    target: u32,
    anew: bool,
) -> Result<(), AllocError>
    requires serves { Serves grid.now field.old }
    requires floor { IsFloor grid.now goal }
    ensures serves { OnOk result (Serves grid.now field.new) }
    ensures goal { OnOk result (goal_of field.new ≡ goal) }
{
    if anew || field.goal() != goal {
        field.restart(grid, goal, target)?;
    }
    Ok(())
}

/// The same as `away` of two floor cells, by a field in whose memory it is searched: anew, or further if it is one to
/// this goal. After an error it is of no use.
pub(crate) fn away_by(
    grid: &Grid,
    field: &mut GrowingField,
    from: u32,
    to: u32,
    anew: bool,
) -> Result<Option<u32>, AllocError>
    requires serves { Serves grid.now field.old }
    requires from { IsFloor grid.now from }
    requires to { IsFloor grid.now to }
    ensures away { IfOk result (λ distance. distance ≡ away grid.now from to) }
    ensures serves { OnOk result (Serves grid.now field.new) }
{
    aim(grid, field, to, from, anew)?;
    steps_to(grid, field, from)
}
