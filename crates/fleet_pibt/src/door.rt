//! An edge of the map that is shut from one side.

/// A door: no robot on the cell `from` may go to the cell `to` in this step. The way back is free.
#[derive(Clone, Copy, Debug, PartialEq, Eq)]
pub struct Door {
    pub from: u32,
    pub to: u32,
}
