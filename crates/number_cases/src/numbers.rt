//! Numbers, times and names.

use crate::text::{hex, quoted};
use anyhow::{Context, Result, ensure};
use num_time::{Name, decimal, epoch_second, floor_div, vex_second};
use std::alloc::Global;

/// Prints the answer to a line of these; false where its word is another.
pub fn read_number(rt: &impl Print, alloc: Global, word: &str, rest: &str) -> Result<bool> {
    match word {
        "epoch" => {
            let epoch = rest.parse::<u8>()?;
            ensure!(epoch < 64, "an epoch is below 64");
            println!(rt; "{}", epoch_second(epoch))?;
        }
        "floor" => {
            let (a, b) = rest.split_once(' ').context("two numbers")?;
            let divisor = b.parse::<i128>()?;
            ensure!(0 < divisor, "a divisor is above 0");
            println!(rt; "{}", floor_div(a.parse::<i128>()?, divisor))?;
        }
        "time" => println!(rt; "{:?}", vex_second(&quoted(alloc, rest)?))?,
        "decimal" => {
            let (places, text) = rest.split_once(' ').context("places and a text")?;
            let places = places.parse::<u32>()?;
            ensure!(places <= 6, "six places at most");
            println!(rt; "{:?}", decimal(&quoted(alloc, text)?, places))?;
        }
        "name" => {
            let name = Name::new(alloc, &hex(alloc, rest)?)?;
            println!(rt; "{:?}", name.bytes())?;
        }
        _ => return Ok(false),
    }
    Ok(true)
}
