//! The words of a line.

use std::alloc::{AllocError, Global};

/// The words of a line that are numbers, in their order.
pub(crate) fn numbers_in(alloc: Global, line: &str) -> Result<Vec<u32>, AllocError> {
    let mut numbers = Vec::new(alloc);
    for word in line.split_whitespace() {
        if let Ok(number) = word.parse::<u32>() {
            numbers.push(number)?;
        }
    }
    Ok(numbers)
}
