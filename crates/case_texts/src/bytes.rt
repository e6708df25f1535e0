//! Bytes as the lines write them.

use anyhow::{Context, Result};
use std::alloc::AllocError;

/// Appends runs of bytes with commas between them, each two hexadecimal digits, and behind a star how often.
pub fn append_runs(bytes: &mut Vec<u8>, runs: &str) -> Result<()> {
    for run in runs.split(',') {
        let (byte, count) = run.split_once('*').unwrap_or((run, "1"));
        let byte = u8::from_str_radix(byte, 16)?;
        append_run(bytes, byte, count.parse::<u32>()?)?;
    }
    Ok(())
}

/// Appends a byte so many times.
pub fn append_run(bytes: &mut Vec<u8>, byte: u8, count: u32) -> Result<(), AllocError> {
    let block = [byte; 1024];
    for _ in 0..count / 1024 {
        bytes.extend_from_slice(&block)?;
    }
    bytes.extend_from_slice(&block[..(count % 1024) as usize])
}

/// Sets the byte at a place to another one, both as a line has them.
pub fn set_byte(bytes: &mut [u8], rest: &str) -> Result<()> {
    let (place, byte) = rest.split_once(' ').context("a place and a byte")?;
    let there = bytes
        .get_mut(place.parse::<usize>()?)
        .context("no such place")?;
    *there = u8::from_str_radix(byte, 16)?;
    Ok(())
}
