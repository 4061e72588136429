//! The maps that scripts are served on.

/// The letter of a floor cell. All others are walls.
pub(crate) const FLOOR: u8 = b'.';

/// A map whose letters fill it.
#[derive(Clone, Copy)]
pub(crate) struct Yard {
    pub(crate) sides: (u32, u32),
    pub(crate) letters: &'static [u8],
    pub(crate) is_bridgeless: bool,
}

pub(crate) const TWO_CELLS: Yard = Yard {
    sides: (1, 2),
    letters: b"..",
    is_bridgeless: false,
};

pub(crate) const CORRIDOR: Yard = Yard {
    sides: (1, 3),
    letters: b"...",
    is_bridgeless: false,
};

pub(crate) const RING: Yard = Yard {
    sides: (3, 3),
    letters: b"....@....",
    is_bridgeless: true,
};

pub(crate) const SQUARE: Yard = Yard {
    sides: (4, 4),
    letters: b"................",
    is_bridgeless: true,
};

pub(crate) const SHELVES: Yard = Yard {
    sides: (5, 7),
    letters: b"........@@.@@.........@@.@@........",
    is_bridgeless: true,
};
