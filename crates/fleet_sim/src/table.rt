//! The table as text.

use crate::cell::{Cell, write_cell};
use crate::column::Column;
use crate::line::Line;
use std::alloc::{AllocError, Global};
use std::fmt::Write;

/// How a table is written.
#[derive(Clone, Copy, Debug, PartialEq, Eq)]
pub enum TableForm {
    /// A line for each figure, with a column for each number of robots.
    Lines,
    /// A line for each number of robots, with commas, after a line of names.
    Csv,
    /// A list of objects.
    Json,
}

/// The names of the first cells.
const COUNTS: [&str; 4] = ["robots", "runs", "ticks", "frozen"];

/// Adds the names of columns.
fn push_names(
    alloc: Global,
    names: &mut Vec<String>,
    columns: &[Column],
) -> Result<(), AllocError> {
    for column in columns {
        let name = column.name();
        names.push(String::from_str(alloc, name)?)?;
        names.push(format!(in alloc; "{name}_deviation")?)?;
    }
    Ok(())
}

/// The names of the cells of a line.
fn names_of(alloc: Global, timed: bool) -> Result<Vec<String>, AllocError> {
    let mut names = Vec::new(alloc);
    for name in COUNTS {
        names.push(String::from_str(alloc, name)?)?;
    }
    push_names(alloc, &mut names, &Column::FIGURES)?;
    if timed {
        push_names(alloc, &mut names, &Column::TIMES)?;
    }
    Ok(names)
}

/// The cell of a line at a place.
fn cell_at(line: &Line, place: usize) -> Cell {
    match line.cells.get(place) {
        Some(cell) => *cell,
        None => Cell::Nothing,
    }
}

/// A cell as text, with this word for nothing.
fn text_at(alloc: Global, line: &Line, place: usize, nothing: &str) -> Result<String, AllocError> {
    let mut text = String::new(alloc);
    write_cell(&mut text, cell_at(line, place), nothing)?;
    Ok(text)
}

/// Writes a line for each figure.
fn write_lines(
    alloc: Global,
    out: &mut String,
    names: &[String],
    lines: &[Line],
) -> Result<(), AllocError> {
    for (place, name) in names.iter().enumerate() {
        write!(out, "{name:<26}")?;
        for line in lines {
            let text = text_at(alloc, line, place, "none")?;
            write!(out, " {text:>10}")?;
        }
        out.push_str("\n")?;
    }
    Ok(())
}

/// Writes a line of names, and one for each number of robots.
fn write_csv(out: &mut String, names: &[String], lines: &[Line]) -> Result<(), AllocError> {
    for (place, name) in names.iter().enumerate() {
        out.push_str(comma_at(place))?;
        out.push_str(name.as_str())?;
    }
    out.push_str("\n")?;
    for line in lines {
        for place in 0..names.len() {
            out.push_str(comma_at(place))?;
            write_cell(out, cell_at(line, place), "")?;
        }
        out.push_str("\n")?;
    }
    Ok(())
}

/// What is before a place of a list.
fn comma_at(place: usize) -> &'static str {
    if place == 0 { "" } else { "," }
}

/// Writes an object for a line.
fn write_object(out: &mut String, names: &[String], line: &Line) -> Result<(), AllocError> {
    out.push_str("{")?;
    for (place, name) in names.iter().enumerate() {
        let comma = comma_at(place);
        write!(out, "{comma}\"{name}\":")?;
        write_cell(out, cell_at(line, place), "null")?;
    }
    out.push_str("}")
}

/// Writes a list of objects.
fn write_json(out: &mut String, names: &[String], lines: &[Line]) -> Result<(), AllocError> {
    out.push_str("[")?;
    for (place, line) in lines.iter().enumerate() {
        out.push_str(comma_at(place))?;
        write_object(out, names, line)?;
    }
    out.push_str("]\n")
}

/// The table of these lines, each of which has times if these are told.
pub fn table_text(
    alloc: Global,
    form: TableForm,
    lines: &[Line],
    timed: bool,
) -> Result<String, AllocError> {
    let names = names_of(alloc, timed)?;
    let mut out = String::new(alloc);
    match form {
        TableForm::Lines => write_lines(alloc, &mut out, &names, lines)?,
        TableForm::Csv => write_csv(&mut out, &names, lines)?,
        TableForm::Json => write_json(&mut out, &names, lines)?,
    }
    Ok(out)
}
