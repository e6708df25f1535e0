//! Bytes and numbers as the lines write them.

use anyhow::Result;
use std::alloc::{AllocError, Global};

/// Appends a text, and a line feed.
pub fn append_line(bytes: &mut Vec<u8>, text: &str) -> Result<(), AllocError> {
    bytes.extend_from_slice(text.as_bytes())?;
    bytes.push(b'\n')?;
    Ok(())
}

/// The numbers that the words of a line are.
pub fn numbers_of(alloc: Global, rest: &str) -> Result<Vec<u64>> {
    let mut numbers = Vec::new(alloc);
    for word in rest.split_whitespace() {
        numbers.push(word.parse::<u64>()?)?;
    }
    Ok(numbers)
}
