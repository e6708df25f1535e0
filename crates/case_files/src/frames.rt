//! Frames as the lines write them.
ghost use Rattle.std.specs.Prelude.{◌<◌};

use anyhow::{Result, bail};
use case_texts::{append_run, append_runs};
use rand_core::{Rng, SeedableRng};
use rand_xoshiro::SplitMix64;
use std::alloc::{AllocError, Global};

/// A frame: the fields of its header, and its data, behind which come so many words of noise.
#[derive(Drop)]
pub struct Frame {
    epoch: u32,
    second: u32,
    number: u32,
    station: u32,
    thread: u32,
    bits: u32,
    chans: u32,
    data: Vec<u8>,
    seed: u32,
    noise: u32,
    invalid: bool,
    legacy: bool,
    complex: bool,
}

impl Frame {
    /// Read from the words of a line.
    pub fn read(alloc: Global, words: &str) -> Result<Frame> {
        let mut frame = Frame {
            epoch: 20,
            second: 0,
            number: 0,
            station: 1,
            thread: 0,
            bits: 2,
            chans: 0,
            data: Vec::new(alloc),
            seed: 0,
            noise: 0,
            invalid: false,
            legacy: false,
            complex: false,
        };
        for word in words.split_whitespace() {
            let (name, value) = word.split_once('=').unwrap_or((word, ""));
            frame.set(name, value)?;
        }
        if frame.data.is_empty() && frame.noise == 0 {
            append_run(&mut frame.data, 0xFF, 8)?;
        }
        Ok(frame)
    }

    // Sets a field by its name.
    fn set(&mut self, name: &str, value: &str) -> Result<()> {
        match name {
            "epoch" => self.epoch = value.parse::<u32>()?,
            "second" => self.second = value.parse::<u32>()?,
            "number" => self.number = value.parse::<u32>()?,
            "station" => self.station = value.parse::<u32>()?,
            "thread" => self.thread = value.parse::<u32>()?,
            "bits" => self.bits = value.parse::<u32>()?,
            "chans" => self.chans = value.parse::<u32>()?,
            "data" => append_runs(&mut self.data, value)?,
            "seed" => self.seed = value.parse::<u32>()?,
            "noise" => self.noise = value.parse::<u32>()?,
            "invalid" => self.invalid = true,
            "legacy" => self.legacy = true,
            "complex" => self.complex = true,
            _ => bail!("no such field"),
        }
        Ok(())
    }

    /// Appends the frame.
    pub fn append(&self, bytes: &mut Vec<u8>) -> Result<()> {
        self.append_as(self.number, bytes)
    }

    /// Appends so many such frames, numbered from its own number on.
    pub fn append_many(&self, count: u32, bytes: &mut Vec<u8>) -> Result<()> {
        for number in 0..count {
            self.append_as(self.number.saturating_add(number), bytes)?;
        }
        Ok(())
    }

    // Appends the frame with this number: four words, the lowest byte of each first, four words of zeros unless it is legacy, the
    // data and the noise. The length is that of what is appended.
    fn append_as(&self, number: u32, bytes: &mut Vec<u8>) -> Result<()> {
        let rest = if self.legacy { 0 } else { 16 };
        let units = (16 + rest + self.data.len() + 8 * self.noise as usize) / 8;
        let w0 = mark(self.invalid, 31) | mark(self.legacy, 30) | (self.second % (1 << 30));
        let w1 = ((self.epoch % 64) << 24) | (number % (1 << 24));
        let w2 = ((self.chans % 32) << 24) | ((units % (1 << 24)) as u32);
        let w3 = mark(self.complex, 31)
            | ((self.bits.saturating_sub(1) % 32) << 26)
            | ((self.thread % 1024) << 16)
            | (self.station % 65536);
        for word in [w0, w1, w2, w3] {
            bytes.extend_from_slice(&word.to_le_bytes())?;
        }
        append_run(bytes, 0, rest as u32)?;
        bytes.extend_from_slice(&self.data)?;
        append_noise(bytes, self.state_at(number), self.noise)?;
        Ok(())
    }

    // With what the noise of the frame of this number begins.
    fn state_at(&self, number: u32) -> u64 {
        (u64::from(self.seed) << 32)
            | (u64::from(self.second % 65536) << 16)
            | u64::from(number % 65536)
    }
}

// Appends so many words, the lowest byte of each first.
fn append_noise(bytes: &mut Vec<u8>, state: u64, words: u32) -> Result<(), AllocError> {
    let mut noise = SplitMix64::seed_from_u64(state);
    for _ in 0..words {
        bytes.extend_from_slice(&noise.next_u64().to_le_bytes())?;
    }
    Ok(())
}

// A mark at this bit.
fn mark(set: bool, bit: u32) -> u32
    requires { bit < 32 }
{
    if set { 1 << bit } else { 0 }
}
