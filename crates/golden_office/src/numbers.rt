//! Numbers after their names.

use std::alloc::AllocError;
use std::fmt::Write;

/// These numbers, each after its name, to the end of the line.
pub(crate) fn tell_numbers(told: &mut String, numbers: &[(&str, u64)]) -> Result<(), AllocError> {
    for (name, number) in numbers {
        write!(told, " {name} {number}")?;
    }
    told.push_str("\n")
}
