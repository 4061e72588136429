//! How vehicles carry out turns.

use execution_law::Clearance;

/// How vehicles carry out turns.
#[derive(Clone, Copy, Debug, PartialEq, Eq)]
pub struct Rules {
    /// How many cells the map has.
    pub cells: u32,
    /// When a cell is clear.
    pub clearance: Clearance,
    /// How many turns are made at most that are not carried out.
    pub ahead: u32,
    /// The tick of the placement from which the vehicles set out.
    pub first: u64,
}
