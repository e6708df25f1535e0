//! Bytes as the lines write them.

use anyhow::{Context, Result, bail};
use std::alloc::Global;
use std::io::Write;

/// The bytes of a text, in which `\n` is a line feed, and `\x` with two hexadecimal digits a byte.
pub fn bytes_of(alloc: Global, text: &str) -> Result<Vec<u8>> {
    let mut bytes = Vec::new(alloc);
    let mut is_plain = true;
    for part in text.split('\\') {
        if is_plain {
            bytes.extend_from_slice(part.as_bytes())?;
            is_plain = false;
        } else {
            append_escaped(&mut bytes, part)?;
        }
    }
    Ok(bytes)
}

// Appends the bytes behind a backslash.
fn append_escaped(bytes: &mut Vec<u8>, part: &str) -> Result<()> {
    if let Some(rest) = part.strip_prefix('n') {
        bytes.push(b'\n')?;
        bytes.extend_from_slice(rest.as_bytes())?;
        return Ok(());
    }
    let Some((digits, rest)) = part
        .strip_prefix('x')
        .and_then(|hex| hex.split_at_checked(2))
    else {
        bail!("a backslash");
    };
    bytes.push(u8::from_str_radix(digits, 16)?)?;
    bytes.extend_from_slice(rest.as_bytes())?;
    Ok(())
}

/// Appends a text as a line, with a number in the place of each `{}`.
pub fn append_numbered(bytes: &mut Vec<u8>, text: &str, number: u32) -> Result<()> {
    let mut is_first = true;
    for part in text.split("{}") {
        if !is_first {
            write!(bytes, "{number}")?;
        }
        is_first = false;
        bytes.extend_from_slice(part.as_bytes())?;
    }
    bytes.push(b'\n')?;
    Ok(())
}

/// The bytes with the first place of `old` replaced by `new`.
pub fn replaced(alloc: Global, bytes: &[u8], old: &[u8], new: &[u8]) -> Result<Vec<u8>> {
    let at = place_of(bytes, old).context("nothing to replace")?;
    let front = bytes.get(..at).context("a front")?;
    let rest = bytes.get(at..).context("a rest")?;
    let rest = rest.get(old.len()..).context("a rest")?;
    Ok([front, new, rest].concat(alloc)?)
}

// The first place at which some bytes stand.
fn place_of(bytes: &[u8], wanted: &[u8]) -> Option<usize> {
    for at in 0..bytes.len() {
        if bytes[at..].starts_with(wanted) {
            return Some(at);
        }
    }
    None
}
