//! What a run is made of, besides its map.

use mover::Manner;

/// The setting of a run.
#[derive(Clone, Copy, Debug)]
pub struct Setting<'a> {
    /// How many robots there are.
    pub robots: u32,
    /// The seed of the random numbers.
    pub seed: u64,
    /// How ticks are planned.
    pub manner: Manner,
    /// Whether errands go to roomy cells only.
    pub roomy: bool,
    /// The cells to which errands go; all floor cells if there is no list.
    pub stations: Option<&'a [u32]>,
    /// The cells on which the robots start, by robot; random ones if there is no list.
    pub starts: Option<&'a [u32]>,
    /// The errands, which are handed out in turn; random ones if there is no list.
    pub tasks: Option<&'a [u32]>,
}
