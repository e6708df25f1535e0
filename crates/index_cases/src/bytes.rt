//! The bytes of a file.
ghost use Rattle.std.specs.Prelude.{◌<◌};

use anyhow::{Context, Result};

/// What a frame's line says: its length in bytes, reference epoch, second, number, station, thread and data
/// byte, and whether it is marked invalid or legacy.
#[derive(Clone, Copy)]
pub struct FrameLine {
    len: u32,
    epoch: u32,
    second: u32,
    number: u32,
    station: u32,
    thread: u32,
    data: u8,
    invalid: bool,
    legacy: bool,
}

impl FrameLine {
    /// Read from the line's words.
    pub fn read(rest: &str) -> Result<FrameLine> {
        let mut words = rest.split_whitespace();
        let len = number(words.next())?;
        let epoch = number(words.next())?;
        let second = number(words.next())?;
        let frame = number(words.next())?;
        let station = number(words.next())?;
        let thread = number(words.next())?;
        let data = u8::from_str_radix(words.next().context("data")?, 16)?;
        Ok(FrameLine {
            len,
            epoch,
            second,
            number: frame,
            station,
            thread,
            data,
            invalid: rest.contains("invalid"),
            legacy: rest.contains("legacy"),
        })
    }

    /// Appends the frame: four words, lowest byte first, four words of zeros unless it is legacy, and the
    /// data. It has one channel of two bits.
    pub fn append(&self, bytes: &mut Vec<u8>) -> Result<()> {
        let w0 = mark(self.invalid, 31) | mark(self.legacy, 30) | (self.second % (1 << 30));
        let w1 = ((self.epoch % 64) << 24) | (self.number % (1 << 24));
        let w2 = (self.len / 8) % (1 << 24);
        let w3 = (1 << 26) | ((self.thread % 1024) << 16) | (self.station % 65536);
        for word in [w0, w1, w2, w3] {
            bytes.extend_from_slice(&word.to_le_bytes())?;
        }
        let head = if self.legacy { 16 } else { 32 };
        if !self.legacy {
            append_run(bytes, 16, 0)?;
        }
        append_run(bytes, self.len.saturating_sub(head), self.data)
    }
}

/// Appends the bytes that these words are, each two digits.
pub fn append_hex(bytes: &mut Vec<u8>, words: &str) -> Result<()> {
    for word in words.split_whitespace() {
        bytes.push(u8::from_str_radix(word, 16)?)?;
    }
    Ok(())
}

// Appends a byte so many times.
fn append_run(bytes: &mut Vec<u8>, count: u32, byte: u8) -> Result<()> {
    for _ in 0..count {
        bytes.push(byte)?;
    }
    Ok(())
}

fn mark(set: bool, bit: u32) -> u32
    requires { bit < 32 }
{
    if set { 1 << bit } else { 0 }
}

fn number(word: Option<&str>) -> Result<u32> {
    Ok(word.context("a number")?.parse::<u32>()?)
}
