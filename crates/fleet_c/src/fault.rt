//! Why a call that reads a map was refused.

/// The code of a refusal, and the numbers that it names.
#[repr(C)]
#[derive(Clone, Copy)]
pub struct Fault {
    /// The first number that the refusal names: a line, row or robot; otherwise 0.
    pub first: u64,
    /// The second number that the refusal names: a column or robot; otherwise 0.
    pub second: u64,
    /// Which refusal it is.
    pub code: u32,
}
