//! An edge of a map.

/// The two cells that an edge joins.
#[repr(C)]
#[derive(Clone, Copy)]
pub struct Edge {
    pub lower: u32,
    pub upper: u32,
}
