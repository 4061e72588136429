//! What closures are shown: whether each robot's own closures are asked, once for each view, in the order of the rule,
//! with every field of the view in its place, and whether their own answers stand in the history.

mod note;
mod play;
mod row;

use play::play;
use row::{Row, rows};
use std::alloc::{Alloc, AllocError, Global};
use std::fmt::Write;
use test_kit::Finding;

/// The finding in words.
fn text_of(finding: Finding) -> &'static str {
    match finding {
        Finding::AsTheRow => "each view was shown once, in its order, to its robot's own closure",
        Finding::NotPlayed => "the row was not played",
        Finding::Views => "closures were shown other views than the row's",
        Finding::Stamps => "a stamp is not its closure's own",
        Finding::Ways => "the robots stand elsewhere than their own ranks lead",
    }
}

/// The line of a row.
fn tell_row<R: Alloc<A = Global>>(rt: &R, row: &Row, told: &mut String) -> Result<(), AllocError> {
    let words = text_of(play(rt.alloc(), rt, row)?);
    writeln!(told, "{}: {words}", row.name)
}

/// A line for each row.
pub(crate) fn tell<R: Alloc<A = Global>>(rt: &R, told: &mut String) -> Result<(), AllocError> {
    for row in rows() {
        tell_row(rt, row, told)?;
    }
    Ok(())
}
