//! The figures for the text of a map and for traces on it.

ghost use Rattle.std.specs.Prelude.{◌≡◌, ◌≤◌, length, map, IfOk, IfErr, string_bytes};
ghost use Rattle.fleet_grid.specs.Floor.{floor_of_map};
ghost use Rattle.fleet_map.specs.Form.{HasSides};
ghost use Rattle.fleet_map.specs.Grammar.{view};
ghost use Rattle.fleet_trace.specs.Trace.{trace_of};
ghost use Rattle.fleet_stats.specs.Chapters.{IsUnfollowed};
ghost use Rattle.fleet_stats.specs.Figures.{rows_in, left_in};
ghost use Rattle.fleet_stats.specs.Rows.{shown};
ghost use Rattle.fleet_stats.specs.Text.{cells_table, unfinished_table};
ghost use Rattle.fleet_stats.specs.Report.{IsSummarized, IsLaterText, IsReport, owners_table, IsReported, IsStatsOn, IsStats, IsNoneOn, IsNone};

use crate::chapters::chapters_in_turn;
use crate::errands::{left_rows, served_rows};
use crate::fault::StatsFault;
use crate::figures::{arrivals_of, clients_in, first_tick, summarize};
use crate::follow::{follow, robots_in};
use crate::later::later_in;
use crate::lines::Style;
use crate::measure::errand_rows;
use crate::notes::Notes;
use crate::pages::{later_text, summary_text};
use crate::rows::{ErrandRow, LeftRow};
use crate::spread::windows_of;
use crate::tables::{cells_table, errands_table, ticks_table, unfinished_table};
use crate::tallies::{Owner, tallies_table};
use fleet_grid::Grid;
use fleet_history::Chapter;
use fleet_map::{MapFault, MapText, read_map};
use std::alloc::{AllocError, Global};

/// What is asked for.
#[derive(Clone, Copy)]
pub enum StatsForm {
    /// All figures, as lines `NAME VALUE`.
    Text,
    /// All figures, as a JSON object.
    Json,
    /// The figures after a warm-up of this many ticks, as lines `NAME VALUE`.
    TextAfter(u64),
    /// The same, as a JSON object.
    JsonAfter(u64),
    /// A table of the errands that were accepted and done.
    Errands,
    /// A table of the errands that are left at the end.
    Unfinished,
    /// A table of the robots, with what their errands add up to.
    Robots,
    /// The same of the clients.
    Clients,
    /// A table of the ticks.
    Ticks,
    /// A table of the cells on which robots with errands stood.
    Cells,
}

/// A row for each errand that the run accepted and did.
fn rows_of(
    alloc: Global,
    grid: &Grid,
    chapters: &[Chapter],
    notes: &Notes,
) -> Result<Vec<ErrandRow>, AllocError>
    ensures { IfOk result (λ rows. rows.items ≡ rows_in grid.now (map trace_of chapters.now) (shown notes.now)) }
{
    let clients = clients_in(chapters);
    let served = served_rows(alloc, clients, &notes.taken, &notes.landed)?;
    errand_rows(alloc, grid, &served)
}

/// A row for each errand that is left at the end of the run.
fn left_in(alloc: Global, chapters: &[Chapter], notes: &Notes) -> Result<Vec<LeftRow>, AllocError>
    ensures { IfOk result (λ rows. rows.items ≡ left_in (map trace_of chapters.now) (shown notes.now)) }
{
    left_rows(alloc, clients_in(chapters), &notes.taken, &notes.left)
}

/// All figures.
fn summarized(
    alloc: Global,
    style: Style,
    grid: &Grid,
    chapters: &[Chapter],
    notes: &Notes,
) -> Result<String, AllocError>
    ensures { IfOk result (λ text. IsSummarized style grid.now (map trace_of chapters.now) (shown notes.now) (string_bytes text)) }
{
    let rows = rows_of(alloc, grid, chapters, notes)?;
    let windows = windows_of(alloc, &arrivals_of(alloc, &notes.ticks)?)?;
    let figures = summarize(alloc, grid, chapters, notes, &rows)?;
    summary_text(alloc, style, &figures, &notes.kinds, &windows)
}

/// The figures after a warm-up.
fn later(
    alloc: Global,
    style: Style,
    warm_up: u64,
    grid: &Grid,
    chapters: &[Chapter],
    notes: &Notes,
) -> Result<String, AllocError>
    ensures { IfOk result (λ text. IsLaterText style warm_up grid.now (map trace_of chapters.now) (shown notes.now) (string_bytes text)) }
{
    let clock = first_tick(chapters).saturating_add(warm_up);
    let figures = later_in(alloc, grid, chapters, notes, clock)?;
    later_text(alloc, style, &figures)
}

/// The table of errands.
fn errands_of(
    alloc: Global,
    grid: &Grid,
    chapters: &[Chapter],
    notes: &Notes,
) -> Result<String, AllocError>
    ensures { IfOk result (λ text. IsReport StatsForm.Errands grid.now (map trace_of chapters.now) (shown notes.now) (string_bytes text)) }
{
    let rows = rows_of(alloc, grid, chapters, notes)?;
    errands_table(alloc, &rows)
}

/// The table of errands that are left.
fn unfinished_of(alloc: Global, chapters: &[Chapter], notes: &Notes) -> Result<String, AllocError>
    ensures { IfOk result (λ text. string_bytes text ≡ unfinished_table (left_in (map trace_of chapters.now) (shown notes.now))) }
{
    let left = left_in(alloc, chapters, notes)?;
    unfinished_table(alloc, &left)
}

/// The table of owners of errands, of whom there are this many.
fn owners_of(
    alloc: Global,
    owner: Owner,
    count: usize,
    grid: &Grid,
    chapters: &[Chapter],
    notes: &Notes,
) -> Result<String, AllocError>
    ensures { IfOk result (λ text. string_bytes text ≡ owners_table owner grid.now (map trace_of chapters.now) (shown notes.now) count) }
{
    let rows = rows_of(alloc, grid, chapters, notes)?;
    let left = left_in(alloc, chapters, notes)?;
    tallies_table(alloc, owner, &rows, &left, count)
}

/// A table of cells.
fn cells_of(alloc: Global, grid: &Grid, notes: &Notes) -> Result<String, AllocError>
    requires { 1 ≤ grid.now.width }
    ensures { IfOk result (λ text. string_bytes text ≡ cells_table grid.now.width (shown notes.now).stood (length grid.now.letters)) }
{
    let (width, cells) = (grid.width() as usize, grid.cell_count() as usize);
    cells_table(alloc, width, &notes.stood, cells)
}

/// The text that is asked for.
fn report(
    alloc: Global,
    form: StatsForm,
    grid: &Grid,
    chapters: &[Chapter],
    notes: &Notes,
) -> Result<String, AllocError>
    requires { 1 ≤ grid.now.width }
    ensures { IfOk result (λ text. IsReport form grid.now (map trace_of chapters.now) (shown notes.now) (string_bytes text)) }
{
    match form {
        StatsForm::Text => summarized(alloc, Style::Text, grid, chapters, notes),
        StatsForm::Json => summarized(alloc, Style::Json, grid, chapters, notes),
        StatsForm::TextAfter(warm_up) => later(alloc, Style::Text, warm_up, grid, chapters, notes),
        StatsForm::JsonAfter(warm_up) => later(alloc, Style::Json, warm_up, grid, chapters, notes),
        StatsForm::Errands => errands_of(alloc, grid, chapters, notes),
        StatsForm::Unfinished => unfinished_of(alloc, chapters, notes),
        StatsForm::Robots => {
            let count = robots_in(chapters).len();
            owners_of(alloc, Owner::Robot, count, grid, chapters, notes)
        }
        StatsForm::Clients => {
            let count = clients_in(chapters).len();
            owners_of(alloc, Owner::Client, count, grid, chapters, notes)
        }
        StatsForm::Ticks => ticks_table(alloc, &notes.ticks),
        StatsForm::Cells => cells_of(alloc, grid, notes),
    }
}

/// The text for chapters.
fn report_on(
    alloc: Global,
    form: StatsForm,
    grid: &Grid,
    chapters: &[Chapter],
) -> Result<String, StatsFault>
    requires { 1 ≤ grid.now.width }
    ensures text { IfOk result (λ text. IsReported form grid.now (map trace_of chapters.now) (string_bytes text)) }
    ensures fault { IfErr result (λ fault. IsUnfollowed grid.now (map trace_of chapters.now) fault) }
{
    match follow(alloc, grid, chapters) {
        Ok(notes) => match report(alloc, form, grid, chapters, &notes) {
            Ok(text) => Ok(text),
            Err(AllocError) => Err(StatsFault::NoMemory),
        },
        Err(fault) => Err(fault),
    }
}

/// The text for traces on a map.
fn stats_on(
    alloc: Global,
    form: StatsForm,
    grid: &Grid,
    texts: &[Vec<u8>],
) -> Result<String, StatsFault>
    requires { 1 ≤ grid.now.width }
    ensures text { IfOk result (λ text. IsStatsOn form grid.now (map (λ text. text.items) texts.now) (string_bytes text)) }
    ensures fault { IfErr result (λ fault. IsNoneOn grid.now (map (λ text. text.items) texts.now) fault) }
{
    match chapters_in_turn(alloc, grid, texts) {
        Ok(chapters) => report_on(alloc, form, grid, &chapters),
        Err(fault) => Err(fault),
    }
}

/// The text for traces on a map that was read.
fn stats_of(
    alloc: Global,
    form: StatsForm,
    floor: MapText,
    texts: &[Vec<u8>],
) -> Result<String, StatsFault>
    requires { HasSides (view floor) }
    ensures text { IfOk result (λ text. IsStatsOn form (floor_of_map (view floor)) (map (λ text. text.items) texts.now) (string_bytes text)) }
    ensures fault { IfErr result (λ fault. IsNoneOn (floor_of_map (view floor)) (map (λ text. text.items) texts.now) fault) }
{
    match Grid::new(floor) {
        Ok(grid) => stats_on(alloc, form, &grid, texts),
        Err(AllocError) => Err(StatsFault::NoMemory),
    }
}

/// The figures of traces on a map. The traces are chapters of one run: each one continues the one before it. The map is
/// read first, then the traces in their order; when all are read, it is checked that each continues the one before it,
/// and then, trace by trace, that its clock stays below 2^63 and that it is legal on the map.
pub fn stats(
    alloc: Global,
    form: StatsForm,
    bytes: &[u8],
    texts: &[Vec<u8>],
) -> Result<String, StatsFault>
    ensures text { IfOk result (λ text. IsStats form bytes.now (map (λ text. text.items) texts.now) (string_bytes text)) }
    ensures fault { IfErr result (λ fault. IsNone bytes.now (map (λ text. text.items) texts.now) fault) }
{
    match read_map(alloc, bytes) {
        Ok(floor) => stats_of(alloc, form, floor, texts),
        Err(MapFault::NoMemory) => Err(StatsFault::NoMemory),
        Err(fault) => Err(StatsFault::Map(fault)),
    }
}
