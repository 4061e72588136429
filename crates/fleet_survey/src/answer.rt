//! What is told of the text of a map.

ghost use Rattle.std.specs.Prelude.{◌≡◌, IfErr, IfOk, string_bytes};
ghost use Rattle.std.specs.Option.{option_copied};
ghost use Rattle.fleet_bridge.specs.Roominess.{AreRoomyFor};
ghost use Rattle.fleet_survey.specs.Answer.{AreFigures, AreListed, IsFault, IsFaultOn, IsListFault, IsListed, IsMapFault, IsMendedText, IsPictured, IsPrunedText, IsTold, IsToldOn, Reads};
ghost use Rattle.fleet_survey.specs.Cells.{IsCellsFault};
ghost use Rattle.fleet_survey.specs.Json.{survey_json};
ghost use Rattle.fleet_survey.specs.Texts.{survey_lines};

use crate::cells::read_cells;
use crate::fault::{CellsFault, SurveyFault};
use crate::json::survey_json;
use crate::least::roomy_for;
use crate::listed::Listed;
use crate::mend::mended;
use crate::page::{mending_lines, survey_lines};
use crate::picture::survey_picture;
use crate::prune::pruned;
use crate::survey::{Survey, survey_of};
use crate::text::map_text;
use fleet_grid::Grid;
use fleet_map::{MapFault, MapText, read_map};
use std::alloc::{AllocError, Global};

/// What is asked for.
#[derive(Clone, Copy, Debug, PartialEq, Eq)]
pub enum SurveyForm {
    /// All figures, as lines.
    Lines,
    /// All figures, as a JSON object.
    Json,
    /// The map without the cells that are not roomy.
    Pruned,
    /// The map as a picture, with its bridges and the cells that are not roomy.
    Picture,
    /// Walls that, opened, make cells roomy.
    Mended,
}

/// What is told of the cells of a list.
fn listed_in(alloc: Global, grid: &Grid, found: &Survey, text: &[u8]) -> Result<Listed, CellsFault>
    requires { AreRoomyFor grid.now found.now.most.items }
    ensures listed { IfOk result (IsListed grid.now text.now) }
    ensures refused { IfErr result (IsCellsFault grid.now text.now) }
{
    let cells = read_cells(alloc, grid, text)?;
    Ok(Listed {
        count: cells.len() as u64,
        roomy_for: roomy_for(grid, &found.most, &cells),
    })
}

/// The same, if there is a list.
fn listed_for(
    alloc: Global,
    grid: &Grid,
    found: &Survey,
    cells: Option<&[u8]>,
) -> Result<Option<Listed>, SurveyFault>
    requires { AreRoomyFor grid.now found.now.most.items }
    ensures listed { IfOk result (AreListed grid.now (option_copied cells.entry)) }
    ensures refused { IfErr result (IsListFault grid.now (option_copied cells.entry)) }
{
    match cells {
        Some(text) => match listed_in(alloc, grid, found, text) {
            Ok(listed) => Ok(Some(listed)),
            Err(CellsFault::Line(number)) => Err(SurveyFault::Cells(number)),
            Err(CellsFault::NoMemory) => Err(SurveyFault::NoMemory),
        },
        None => Ok(None),
    }
}

/// The figures as lines.
fn lines_text(
    alloc: Global,
    grid: &Grid,
    robots: u32,
    cells: Option<&[u8]>,
) -> Result<String, SurveyFault>
    ensures told { IfOk result (λ text. AreFigures survey_lines grid.now robots (option_copied cells.entry) (string_bytes text)) }
    ensures refused { IfErr result (IsListFault grid.now (option_copied cells.entry)) }
{
    let found = survey_of(alloc, grid, robots)?;
    let listed = listed_for(alloc, grid, &found, cells)?;
    Ok(survey_lines(alloc, &found, listed)?)
}

/// The figures as JSON.
fn json_text(
    alloc: Global,
    grid: &Grid,
    robots: u32,
    cells: Option<&[u8]>,
) -> Result<String, SurveyFault>
    ensures told { IfOk result (λ text. AreFigures survey_json grid.now robots (option_copied cells.entry) (string_bytes text)) }
    ensures refused { IfErr result (IsListFault grid.now (option_copied cells.entry)) }
{
    let found = survey_of(alloc, grid, robots)?;
    let listed = listed_for(alloc, grid, &found, cells)?;
    Ok(survey_json(alloc, &found, listed)?)
}

/// The text of the pruned map.
fn pruned_text(alloc: Global, grid: &Grid, robots: u32) -> Result<String, AllocError>
    ensures { IfOk result (λ text. IsPrunedText grid.now robots (string_bytes text)) }
{
    let map = pruned(alloc, grid, robots)?;
    map_text(alloc, &map)
}

/// The picture.
fn picture_text(alloc: Global, grid: &Grid, robots: u32) -> Result<String, AllocError>
    ensures { IfOk result (λ text. IsPictured grid.now robots (string_bytes text)) }
{
    let found = survey_of(alloc, grid, robots)?;
    survey_picture(alloc, &found)
}

/// The text of the walls to be opened.
fn mended_text(alloc: Global, grid: &Grid, robots: u32) -> Result<String, AllocError>
    ensures { IfOk result (λ text. IsMendedText grid.now robots (string_bytes text)) }
{
    let mending = mended(alloc, grid, robots)?;
    mending_lines(alloc, &mending)
}

/// What is told of a map.
fn text_on(
    alloc: Global,
    form: SurveyForm,
    grid: &Grid,
    robots: u32,
    cells: Option<&[u8]>,
) -> Result<String, SurveyFault>
    ensures told { IfOk result (λ text. IsToldOn form grid.now robots (option_copied cells.entry) (string_bytes text)) }
    ensures refused { IfErr result (IsFaultOn form grid.now (option_copied cells.entry)) }
{
    match form {
        SurveyForm::Lines => lines_text(alloc, grid, robots, cells),
        SurveyForm::Json => json_text(alloc, grid, robots, cells),
        SurveyForm::Pruned => Ok(pruned_text(alloc, grid, robots)?),
        SurveyForm::Picture => Ok(picture_text(alloc, grid, robots)?),
        SurveyForm::Mended => Ok(mended_text(alloc, grid, robots)?),
    }
}

/// The map that a text is.
fn grid_of(alloc: Global, map: &[u8]) -> Result<Grid, SurveyFault>
    ensures read { IfOk result (Reads map.now) }
    ensures refused { IfErr result (IsMapFault map.now) }
{
    match read_map(alloc, map) {
        Ok(map) => Ok(Grid::new(map)?),
        Err(MapFault::NoMemory) => Err(SurveyFault::NoMemory),
        Err(fault) => Err(SurveyFault::Map(fault)),
    }
}

/// What is told of the text of a map, and of a list of cells, if there is one: only figures are told of it.
pub fn survey_text(
    alloc: Global,
    form: SurveyForm,
    robots: u32,
    map: &[u8],
    cells: Option<&[u8]>,
) -> Result<String, SurveyFault>
    ensures told { IfOk result (λ text. IsTold form robots map.now (option_copied cells.entry) (string_bytes text)) }
    ensures refused { IfErr result (IsFault form map.now (option_copied cells.entry)) }
{
    let grid = grid_of(alloc, map)?;
    text_on(alloc, form, &grid, robots, cells)
}
