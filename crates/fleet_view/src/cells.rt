//! Whether the cells of chapters are on the map.

ghost use Rattle.std.specs.Prelude.{◌≡◌, ◌<◌, map, length, IfSome, nat_lt};
ghost use Rattle.std.specs.List.{list_all};
ghost use Rattle.fleet_trace.specs.Trace.{trace_of};
ghost use Rattle.fleet_view.specs.Cells.{are_cells, are_errands_on, is_robot_on, is_entry_on, is_trace_on, first_off};

use fleet_history::{Chapter, Entry, RobotState};

/// Whether a map of `cells` cells has all of these.
fn are_cells(cells: usize, these: &[u32]) -> bool
    ensures { result ≡ are_cells cells these.now }
{
    these.iter().all(|cell| (*cell as usize) < cells)
}

/// Whether the map has the cells of a robot's errands.
fn are_errands_on(cells: usize, robot: &RobotState) -> bool
    ensures { result ≡ are_errands_on cells robot.now }
{
    let errands = robot.errands.as_slice();
    errands.iter().all(|errand| (errand.cell as usize) < cells)
}

/// Whether the map has a robot's cell and those of its errands.
fn is_robot_on(cells: usize, robot: &RobotState) -> bool
    ensures { result ≡ is_robot_on cells robot.now }
{
    (robot.cell as usize) < cells && are_errands_on(cells, robot)
}

/// Whether the map has the cells of a tick.
fn is_entry_on(cells: usize, entry: &Entry) -> bool
    ensures { result ≡ is_entry_on cells entry.now }
{
    match entry {
        Entry::Tick { to, .. } => are_cells(cells, to.as_slice()),
        Entry::Take { .. } | Entry::Shut { .. } => true,
    }
}

/// Whether the map has the cells of these robots.
fn are_robots_on(cells: usize, robots: &[RobotState]) -> bool
    ensures { result ≡ list_all (is_robot_on cells) robots.now }
{
    robots.iter().all(|robot| is_robot_on(cells, robot))
}

/// Whether the map has the cells of these entries.
fn are_entries_on(cells: usize, entries: &[Entry]) -> bool
    ensures { result ≡ list_all (is_entry_on cells) entries.now }
{
    entries.iter().all(|entry| is_entry_on(cells, entry))
}

/// Whether the map has the cells of a chapter's opening and ticks.
pub(crate) fn is_chapter_on(cells: usize, chapter: &Chapter) -> bool
    ensures { result ≡ is_trace_on cells (trace_of chapter.now) }
{
    are_robots_on(cells, chapter.opening.robots.as_slice())
        && are_entries_on(cells, &chapter.entries)
}

/// The place, from 0, of the first chapter with a cell that a map of `cells` cells does not have.
pub(crate) fn first_off(cells: usize, chapters: &[Chapter]) -> Option<usize>
    ensures first { result ≡ first_off cells 0 (map trace_of chapters.now) }
    ensures within { IfSome result (λ p. p < length chapters.now) }
{
    for (place, chapter) in chapters.iter().enumerate() {
        if !is_chapter_on(cells, chapter) {
            return Some(place);
        }
    }
    None
}
