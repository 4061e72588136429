//! The placements of a chapter.

ghost use Rattle.std.specs.Prelude.{◌≡◌, ◌++◌, map, IfOk, OnOk};
ghost use Rattle.fleet_history.specs.History.{history_of};
ghost use Rattle.fleet_convert.specs.History.{ticks_in, places_in};

use fleet_history::{Chapter, Entry, RobotState};
use fleet_plans::Placements;
use std::alloc::{AllocError, Global};

/// The robots' cells before the first entry.
fn opened_cells(alloc: Global, robots: &[RobotState]) -> Result<Vec<u32>, AllocError>
    ensures { IfOk result (λ cells. cells.items ≡ map (λ x. x.cell) robots.now) }
{
    robots.iter().map(|robot| robot.cell).collect(alloc)
}

/// Adds the cells after each tick of the entries.
fn push_ticks(places: &mut Placements, entries: &[Entry]) -> Result<(), AllocError>
    ensures { OnOk result (places.new ≡ places.old ++ ticks_in entries.now) }
{
    for entry in entries {
        if let Entry::Tick { to, .. } = entry {
            places.push(to.as_slice())?;
        }
    }
    Ok(())
}

/// The robots' cells in a chapter: item 0 at the opening, item t after t ticks. The only error is out of memory.
pub fn places_in(alloc: Global, chapter: &Chapter) -> Result<Placements, AllocError>
    ensures { IfOk result (λ places. places ≡ places_in (history_of chapter.now)) }
{
    let mut places = Placements::new(alloc);
    let cells = opened_cells(alloc, chapter.opening.robots.as_slice())?;
    places.push(&cells)?;
    push_ticks(&mut places, &chapter.entries)?;
    Ok(places)
}
