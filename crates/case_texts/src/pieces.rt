//! Texts, which are put together from pieces.

ghost use Rattle.std.specs.Prelude.{◌<◌, IfSome};

use anyhow::{Context, Result, bail};
use std::alloc::{AllocError, Global};
use std::collections::BTreeMap;

/// A text, and the byte that is marked in it.
#[derive(Drop)]
pub struct Marked {
    pub bytes: Vec<u8>,
    pub mark: Option<u64>,
}

/// The pieces so far by their names, and the name of the last one.
#[derive(Drop)]
pub struct Pieces {
    pieces: BTreeMap<String, Vec<u8>>,
    last: String,
}

impl Pieces {
    pub fn new(alloc: Global) -> Pieces {
        Pieces {
            pieces: BTreeMap::new(alloc),
            last: String::new(alloc),
        }
    }

    /// Keeps the piece of a line, if it has one.
    pub fn keep(&mut self, alloc: Global, line: &str) -> Result<bool> {
        if let Some(rest) = line.strip_prefix("piece ") {
            let (name, text) = rest.split_once(' ').unwrap_or((rest, ""));
            let bytes = self.text(alloc, text)?.bytes;
            self.last = String::from_str(alloc, name)?;
            self.pieces.insert(String::from_str(alloc, name)?, bytes)?;
            return Ok(true);
        }
        let Some(text) = line.strip_prefix("|") else {
            return Ok(false);
        };
        let more = self.text(alloc, text)?.bytes;
        let piece = self
            .pieces
            .get_mut(self.last.as_str())
            .context("no piece to go on with")?;
        piece.extend_from_slice(&more)?;
        piece.push(b'\n')?;
        Ok(true)
    }

    /// The text that a line writes.
    pub fn text(&self, alloc: Global, line: &str) -> Result<Marked> {
        let mut text = Marked {
            bytes: Vec::new(alloc),
            mark: None,
        };
        let mut is_plain = true;
        for part in line.split('{') {
            if is_plain {
                put_plain(&mut text, part)?;
                is_plain = false;
            } else {
                let (name, plain) = part.split_once('}').context("a brace")?;
                self.put_piece(&mut text.bytes, name)?;
                put_plain(&mut text, plain)?;
            }
        }
        Ok(text)
    }

    // A piece by its name, or so often as a number behind a star says.
    fn put_piece(&self, out: &mut Vec<u8>, name: &str) -> Result<()> {
        let (name, count) = name.split_once('*').unwrap_or((name, "1"));
        let piece = self.pieces.get(name).context("no such piece")?;
        for _ in 0..count.parse::<u16>().context("a number behind *")? {
            out.extend_from_slice(piece)?;
        }
        Ok(())
    }
}

// The bytes of a part without pieces.
fn put_plain(text: &mut Marked, plain: &str) -> Result<()> {
    let mut is_plain = true;
    for part in plain.split('\\') {
        if is_plain {
            put_bytes(text, part.as_bytes())?;
            is_plain = false;
        } else {
            put_escaped(text, part.as_bytes())?;
        }
    }
    Ok(())
}

// The bytes behind a backslash: `n` is a line feed, `x` and two hexadecimal digits are a byte.
fn put_escaped(text: &mut Marked, bytes: &[u8]) -> Result<()> {
    match bytes {
        [b'n', rest @ ..] => {
            text.bytes.push(b'\n')?;
            put_bytes(text, rest)?;
        }
        [b'x', high, low, rest @ ..] => {
            let byte = digit(*high).context("a digit")? * 16 + digit(*low).context("a digit")?;
            text.bytes.push(byte)?;
            put_bytes(text, rest)?;
        }
        _ => bail!("a backslash"),
    }
    Ok(())
}

// Bytes as they stand; an `@` is no byte and marks the next one.
fn put_bytes(text: &mut Marked, bytes: &[u8]) -> Result<(), AllocError> {
    for byte in bytes {
        if *byte == b'@' {
            text.mark = Some(text.bytes.len() as u64);
        } else {
            text.bytes.push(*byte)?;
        }
    }
    Ok(())
}

// The value of a hexadecimal digit.
fn digit(byte: u8) -> Option<u8>
    ensures { IfSome result (λ value. value < 16) }
{
    match byte {
        b'0'..=b'9' => Some(byte - b'0'),
        b'a'..=b'f' => Some(byte - b'a' + 10),
        _ => None,
    }
}
