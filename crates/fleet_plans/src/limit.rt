//! How long a text may be.

/// The greatest length of a plan or of a scenario, in bytes. The lines, robots and times of such a text are counted in
/// 32 bits.
pub const MOST_PLAN_BYTES: usize = 1_073_741_824;
