//! A robot at the opening of its fleet.

/// Where a robot starts, and how it ranks the ways from a cell. Of two neighbours that are equally near to its goal it
/// tries the one with the lower rank first; if the ranks are equal, the one that comes first of north, east, south and
/// west.
#[repr(C)]
#[derive(Clone, Copy)]
pub struct Robot {
    pub cell: u32,
    /// The ranks of the ways north, east, south and west.
    pub ranks: [u8; 4],
}
