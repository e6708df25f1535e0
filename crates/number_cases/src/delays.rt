//! The values of polynomials and clocks, and the rotation by a delay.

use crate::text::numbers;
use anyhow::{Context, Result, bail, ensure};
use delay_poly::Poly;
use delay_track::nearest;
use fringe_rotator::{rotate, sector};
use station_clock::{ClockEntry, clock_at};
use std::alloc::Global;

/// Prints the answer to a line of these; false where its word is another.
pub fn read_delay(rt: &impl Print, alloc: Global, word: &str, rest: &str) -> Result<bool> {
    match word {
        "coefficients" => {
            let is_poly = Poly::new(&numbers(alloc, rest)?).is_some();
            println!(rt; "{is_poly}")?;
        }
        "nested" => {
            let (j, coeffs) = rest.split_once(':').context("a colon behind the knot")?;
            let j = j.parse::<u32>()?;
            ensure!(j <= 1 << 24, "a knot");
            let poly = Poly::new(&numbers(alloc, coeffs)?).context("no polynomial")?;
            println!(rt; "{}", poly.at(j))?;
        }
        "clock" => println!(rt; "{}", reading(&numbers(alloc, rest)?)?)?,
        "nearest" => println!(rt; "{}", whole_of(rest.parse::<i64>()?)?)?,
        "sector" => {
            let (side, values) = rest.split_once(' ').context("a sideband")?;
            println!(rt; "{}", sector_of(side == "U", &numbers(alloc, values)?)?)?;
        }
        "rotate" => {
            let (x, k) = rest.split_once(' ').context("a level and a sector")?;
            let (x, k) = (x.parse::<i8>()?, k.parse::<u8>()?);
            ensure!(-15 <= x && x <= 15 && k < 16, "a level and a sector");
            println!(rt; "{:?}", rotate(x, k))?;
        }
        _ => return Ok(false),
    }
    Ok(true)
}

// The whole delay of a delay below 2^60.
fn whole_of(delay: i64) -> Result<i64> {
    ensure!(delay.unsigned_abs() < 1 << 60, "a delay");
    Ok(nearest(delay))
}

// What a clock reads: its offset and drift, the samples since its second, and the samples in a second.
fn reading(values: &[i64]) -> Result<i64> {
    let [c0, c1, since, rate] = values else {
        bail!("offset, drift, samples and rate");
    };
    let (since, rate) = (i128::from(*since), u32::try_from(*rate)?);
    ensure!(
        c0.unsigned_abs() < 1 << 57 && c1.unsigned_abs() < 1 << 25,
        "an offset and a drift"
    );
    ensure!(
        0 <= since && since < (1 << 32) * i128::from(rate),
        "samples"
    );
    let entry = ClockEntry {
        second: 0,
        c0: *c0,
        c1: *c1,
    };
    Ok(clock_at(&entry, since, rate))
}

// The sector by a frequency, a delay and the samples in a second.
fn sector_of(upper: bool, values: &[i64]) -> Result<u8> {
    let [hertz, delay, rate] = values else {
        bail!("frequency, delay and rate");
    };
    let (hertz, rate) = (u64::try_from(*hertz)?, u32::try_from(*rate)?);
    ensure!(hertz < 1 << 40 && 0 < rate, "a frequency and a rate");
    ensure!(delay.unsigned_abs() < 1 << 60, "a delay");
    Ok(sector(hertz, upper, *delay, rate))
}
