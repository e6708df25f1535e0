//! The parts of a line.

use anyhow::{Context, Result};
use std::alloc::Global;

/// The bytes of these words, each two digits.
pub fn hex(alloc: Global, words: &str) -> Result<Vec<u8>> {
    let mut bytes = Vec::new(alloc);
    for word in words.split_whitespace() {
        bytes.push(u8::from_str_radix(word, 16)?)?;
    }
    Ok(bytes)
}

/// The numbers that these words are.
pub fn numbers(alloc: Global, words: &str) -> Result<Vec<i64>> {
    let mut all = Vec::new(alloc);
    for word in words.split_whitespace() {
        all.push(word.parse::<i64>()?)?;
    }
    Ok(all)
}

/// The text that stands between quotation marks: of several such pieces all, one after the other, and one
/// with `*` and a number behind it so often.
pub fn quoted(alloc: Global, rest: &str) -> Result<Vec<u8>> {
    let mut bytes = Vec::new(alloc);
    let mut piece = None;
    for part in rest.split('"').skip(1) {
        match piece {
            None => piece = Some(part),
            Some(text) => {
                let number = part.trim().strip_prefix("*").unwrap_or("1");
                for _ in 0..number.parse::<u16>().context("a number behind *")? {
                    bytes.extend_from_slice(text.as_bytes())?;
                }
                piece = None;
            }
        }
    }
    Ok(bytes)
}
