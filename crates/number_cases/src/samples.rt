//! Levels, samples and the cells of a scan.
ghost use Rattle.std.specs.Prelude.{◌≡◌, ◌≤◌, ◌==◌, if◌then◌else◌, pos, ◌≤ℤ◌, ◌<ℤ◌, int_lt, unsigned_abs, Some, None};
ghost use Rattle.sample_unpack.specs.Level.{level_at};
ghost use Rattle.corr_model.specs.Cell.{is_inside, IsSmall};

use crate::text::{hex, numbers};
use anyhow::{Context, Result, bail, ensure};
use corr_model::{Cell, Pair, Values, plain_cell};
use sample_unpack::{level, sample_at};
use std::alloc::Global;

/// Prints the answer to a line of these; false where its word is another.
pub fn read_sample(rt: &impl Print, alloc: Global, word: &str, rest: &str) -> Result<bool> {
    match word {
        "level" => {
            let (bits, code) = rest.split_once(' ').context("bits and a code")?;
            println!(rt; "{}", level_of(bits.parse::<u8>()?, code.parse::<u8>()?)?)?;
        }
        "sample" => {
            let (place, bytes) = rest.split_once(':').context("a colon before the bytes")?;
            let x = sample_of(&numbers(alloc, place)?, &hex(alloc, bytes)?)?;
            println!(rt; "{x}")?;
        }
        "cell" => {
            let Cell { re, im, count } = cell_of(&numbers(alloc, rest)?)?;
            println!(rt; "{re} {im} {count}")?;
        }
        "plus" => {
            let Cell { re, im, count } = sum_of(&numbers(alloc, rest)?)?;
            println!(rt; "{re} {im} {count}")?;
        }
        _ => return Ok(false),
    }
    Ok(true)
}

fn level_of(bits: u8, code: u8) -> Result<i8> {
    match bits {
        1 if code < 2 => Ok(level(1, code)),
        2 if code < 4 => Ok(level(2, code)),
        4 if code < 16 => Ok(level(4, code)),
        _ => bail!("no code of one, two or four bits"),
    }
}

// Sample i of channel c, of this many bits and channels: bits, channels, c and i.
fn sample_of(place: &[i64], bytes: &[u8]) -> Result<i8> {
    let [bits, chans, chan, i] = place else {
        bail!("bits, channels, channel and sample");
    };
    let (chans, chan, i) = (
        u32::try_from(*chans)?,
        u32::try_from(*chan)?,
        u32::try_from(*i)?,
    );
    ensure!(chan < chans && chans <= 64, "no such channel");
    ensure!(bytes.len() <= 1024, "too many bytes");
    let at = u64::from(i) * u64::from(chans) + u64::from(chan);
    match *bits {
        1 if at < 8 * bytes.len() as u64 => Ok(sample_at(bytes, 1, chans, chan, i)),
        2 if at < 4 * bytes.len() as u64 => Ok(sample_at(bytes, 2, chans, chan, i)),
        4 if at < 2 * bytes.len() as u64 => Ok(sample_at(bytes, 4, chans, chan, i)),
        _ => bail!("no such sample"),
    }
}

// A scan of 64 samples at two stations: all samples are of one byte, two bits a sample, and the second station's
// begin with sample `start`. Turned values of the first station are imaginary.
#[derive(Drop)]
struct Streams {
    first: [u8; 16],
    second: [u8; 16],
    start: i64,
    turned: bool,
}

impl Values for Streams {
    ghost samples = { λ s. λ station chan n.
        let first = level_at s.first 2 1 0 (unsigned_abs n) in
        let second = level_at s.second 2 1 0 (unsigned_abs n) in
        let turned = if s.turned then (pos 0, first) else (first, pos 0) in
        let held = if int_lt n s.start then None else Some (second, pos 0) in
        let value = if station == 0 then Some turned else held in
        if is_inside n 64 then value else None };

    fn z(&self, station: u32, _chan: u32, n: i64) -> Option<(i8, i8)> {
        if n < 0 || n >= 64 {
            return None;
        }
        if station == 0 {
            let x = two_bits(&self.first, n);
            return if self.turned {
                Some((0, x))
            } else {
                Some((x, 0))
            };
        }
        if n < self.start {
            return None;
        }
        Some((two_bits(&self.second, n), 0))
    }
}

fn two_bits(bytes: &[u8; 16], n: i64) -> i8
    requires low { pos 0 ≤ℤ n }
    requires high { n <ℤ pos 64 }
    ensures value { result ≡ level_at bytes.now 2 1 0 (unsigned_abs n) }
    ensures small { IsSmall result }
{
    sample_at(bytes, 2, 1, 0, n as u32)
}

const PAIR: Pair = Pair {
    a: 0,
    x: 0,
    b: 1,
    y: 0,
};

// The cell of these: the bytes of both stations, the second's first sample, 1 for turned, from, to and the lag.
fn cell_of(values: &[i64]) -> Result<Cell> {
    let [first, second, start, turned, from, to, lag] = values else {
        bail!("bytes, start, turned, from, to and lag");
    };
    let (from, to) = (u64::try_from(*from)?, u64::try_from(*to)?);
    ensure!(from <= to && to <= 64, "a range of the scan");
    let lag = i32::try_from(*lag)?;
    ensure!(-512 <= lag && lag <= 512, "a lag");
    let streams = Streams {
        first: [u8::try_from(*first)?; 16],
        second: [u8::try_from(*second)?; 16],
        start: *start,
        turned: *turned == 1,
    };
    Ok(plain_cell(&streams, &PAIR, from, to, 64, lag))
}

// A cell of 32-bit numbers.
fn small_cell(re: i32, im: i32, count: u32) -> Cell
    ensures { result ≡ record { re = re; im = im; count = count } }
{
    Cell {
        re: i64::from(re),
        im: i64::from(im),
        count: u64::from(count),
    }
}

// The sum of two cells.
fn sum_of(values: &[i64]) -> Result<Cell> {
    let [re, im, count, other_re, other_im, other_count] = values else {
        bail!("two cells");
    };
    let cell = small_cell(
        i32::try_from(*re)?,
        i32::try_from(*im)?,
        u32::try_from(*count)?,
    );
    let other = small_cell(
        i32::try_from(*other_re)?,
        i32::try_from(*other_im)?,
        u32::try_from(*other_count)?,
    );
    Ok(cell.plus(other))
}
