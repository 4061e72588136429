//! The laws within which the answers of closures lie.

/// The least and the greatest rank that a tie closure gives in each direction, in the order of directions.
#[derive(Clone, Copy, Debug, PartialEq, Eq)]
pub struct TieLaw {
    pub low: [u8; 4],
    pub high: [u8; 4],
}

impl TieLaw {
    /// The law that allows every rank.
    pub const ANY: TieLaw = TieLaw {
        low: [0; 4],
        high: [255; 4],
    };
}

/// The least and the greatest stamp that an arrival or farewell closure gives.
#[derive(Clone, Copy, Debug, PartialEq, Eq)]
pub struct StampLaw {
    pub low: u32,
    pub high: u32,
}

impl StampLaw {
    /// The law that allows every stamp.
    pub const ANY: StampLaw = StampLaw {
        low: 0,
        high: 4_294_967_295,
    };
}
