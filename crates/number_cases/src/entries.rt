//! The entries of a station, and the delays by them.
ghost use Rattle.std.specs.Prelude.{◌≡◌, ◌<◌, ◌≤◌, IfOk, OnOk, IfSome};

use crate::text::numbers;
use anyhow::{Context, Result, bail};
use delay_poly::{Poly, PolyEntry, PolyList};
use delay_track::{StationModel, Track};
use fringe_turns::turns_of;
use pulsar_bins::{bin, bin_runs};
use station_clock::{ClockEntry, ClockList};
use std::alloc::Global;
use std::io;

// The second at which each scan starts: 00:00 of 1 January 2010.
const START: i64 = 1_262_304_000;

/// A station's entries, and the scan that they are for.
#[derive(Drop)]
pub struct Entries {
    polys: PolyList,
    clocks: ClockList,
    rate: u32,
    knot: u32,
    samples: u64,
}

impl Entries {
    pub fn new(alloc: Global) -> Entries {
        Entries {
            polys: PolyList::new(alloc),
            clocks: ClockList::new(alloc),
            rate: 1,
            knot: 1,
            samples: 0,
        }
    }

    /// Prints the answer to a line of these; false where its word is another.
    pub fn read(&mut self, rt: &impl Print, alloc: Global, word: &str, rest: &str) -> Result<bool> {
        match word {
            "station" => {
                *self = Entries::new(alloc);
                println!(rt; "no entries")?;
            }
            "scan" => {
                self.set_scan(&numbers(alloc, rest)?)?;
                println!(rt; "set")?;
            }
            "add_poly" => println!(rt; "{}", self.add_poly(&numbers(alloc, rest)?)?)?,
            "add_clock" => println!(rt; "{}", self.add_clock(&numbers(alloc, rest)?)?)?,
            "poly_for" => print_poly(rt, self.polys.entry_for(rest.parse::<i64>()?))?,
            "clock_for" => print_clock(rt, self.clocks.entry_for(rest.parse::<i64>()?))?,
            "has" => self.print_has(rt)?,
            "delay" => self.print_delay(rt, rest.parse::<u64>()?)?,
            "runs" => self.print_runs(rt, &numbers(alloc, rest)?)?,
            "turns" => {
                let (side, values) = rest.split_once(' ').context("a sideband")?;
                self.print_turns(rt, side == "U", &numbers(alloc, values)?)?;
            }
            "bin" => self.print_bin(rt, alloc, &numbers(alloc, rest)?)?,
            "bins" => self.print_bins(rt, alloc, &numbers(alloc, rest)?)?,
            _ => return Ok(false),
        }
        Ok(true)
    }

    // The samples in a second, those from one knot to the next, and those of the scan.
    fn set_scan(&mut self, values: &[i64]) -> Result<()> {
        let [rate, knot, samples] = values else {
            bail!("rate, knot and samples");
        };
        self.rate = u32::try_from(*rate)?;
        self.knot = u32::try_from(*knot)?;
        self.samples = u64::try_from(*samples)?;
        Ok(())
    }

    fn add_poly(&mut self, values: &[i64]) -> Result<bool> {
        let (second, coeffs) = values.split_first().context("a second")?;
        let poly = Poly::new(coeffs).context("no polynomial")?;
        Ok(
            self.polys.add(PolyEntry {
                second: *second,
                poly,
            })?,
        )
    }

    fn add_clock(&mut self, values: &[i64]) -> Result<bool> {
        let [second, c0, c1] = values else {
            bail!("second, offset and drift");
        };
        Ok(
            self.clocks.add(ClockEntry {
                second: *second,
                c0: *c0,
                c1: *c1,
            })?,
        )
    }

    // Whether the scan has a model, and whether it has a clock too.
    fn print_has(&self, rt: &impl Print) -> Result<()> {
        let model = self.model(&self.clocks).context("out of range")?;
        if !model.has_model() {
            println!(rt; "no model")?;
        } else if !model.has_clock() {
            println!(rt; "a model, no clock")?;
        } else {
            println!(rt; "a model and a clock")?;
        }
        Ok(())
    }

    // The delay at a sample, and its whole samples.
    fn print_delay(&self, rt: &impl Print, n: u64) -> Result<()> {
        let track = self.track(&self.clocks).context("no track")?;
        self.check_sample(n)?;
        println!(rt; "{} {}", track.delay(n), track.whole(n))?;
        Ok(())
    }

    // The runs of one whole delay through these samples.
    fn print_runs(&self, rt: &impl Print, values: &[i64]) -> Result<()> {
        let [from, to] = values else {
            bail!("from and to");
        };
        let (from, to) = self.samples(*from, *to)?;
        let track = self.track(&self.clocks).context("no track")?;
        for run in track.runs(from, to) {
            print!(rt; "{} to {} of {}, ", run.from, run.to, run.whole)?;
        }
        println!(rt; "end")?;
        Ok(())
    }

    // The turns of one direction of a band through these samples.
    fn print_turns(&self, rt: &impl Print, upper: bool, values: &[i64]) -> Result<()> {
        let [hertz, from, to] = values else {
            bail!("frequency, from and to");
        };
        let hertz = u64::try_from(*hertz)?;
        if hertz >= 1 << 40 {
            bail!("no such frequency");
        }
        let (from, to) = self.samples(*from, *to)?;
        let track = self.track(&self.clocks).context("no track")?;
        for turn in turns_of(&track, hertz, upper, from, to) {
            print!(rt; "{} to {} of {}, ", turn.from, turn.to, turn.direction)?;
        }
        println!(rt; "end")?;
        Ok(())
    }

    // The bin of a sample, where the polynomials are those of a phase.
    fn print_bin(&self, rt: &impl Print, alloc: Global, values: &[i64]) -> Result<()> {
        let [count, n] = values else {
            bail!("the number of bins and a sample");
        };
        let (count, n) = (bin_count(*count)?, u64::try_from(*n)?);
        let clocks = ClockList::new(alloc);
        let track = self.track(&clocks).context("no phase")?;
        self.check_sample(n)?;
        println!(rt; "{}", bin(&track, count, n))?;
        Ok(())
    }

    // The runs of one bin through these samples.
    fn print_bins(&self, rt: &impl Print, alloc: Global, values: &[i64]) -> Result<()> {
        let [count, from, to] = values else {
            bail!("the number of bins, from and to");
        };
        let count = bin_count(*count)?;
        let (from, to) = self.samples(*from, *to)?;
        let clocks = ClockList::new(alloc);
        let track = self.track(&clocks).context("no phase")?;
        for run in bin_runs(&track, count, from, to) {
            print!(rt; "{} to {} of {}, ", run.from, run.to, run.bin)?;
        }
        println!(rt; "end")?;
        Ok(())
    }

    // Whether the scan has a sample.
    fn check_sample(&self, n: u64) -> Result<()>
        ensures { OnOk result (n < self.now.samples) }
    {
        if n >= self.samples {
            bail!("no such sample");
        }
        Ok(())
    }

    // Samples of the scan, from one to another.
    fn samples(&self, from: i64, to: i64) -> Result<(u64, u64)>
        ensures { IfOk result (λ r. (r.0 ≤ r.1) × (r.1 ≤ self.now.samples)) }
    {
        let (from, to) = (u64::try_from(from)?, u64::try_from(to)?);
        if from > to || to > self.samples {
            bail!("no such samples");
        }
        Ok((from, to))
    }

    // The model of these polynomials and clocks in a scan from `START` on, None where something is out of its range.
    fn model<'a>(&'a self, clocks: &'a ClockList) -> Option<StationModel<'a>>
        ensures { IfSome result (λ m. m.samples ≡ self.now.samples) }
    {
        let in_years = |second: i64| 0 <= second && second < 4_102_444_800;
        let polys_fit = self.polys.entries().iter().all(|e| in_years(e.second));
        let clocks_fit = clocks.entries().iter().all(|c| {
            in_years(c.second) && c.c0.unsigned_abs() < 1 << 57 && c.c1.unsigned_abs() < 1 << 25
        });
        if polys_fit
            && clocks_fit
            && self.rate > 0
            && 1 <= self.knot
            && self.knot <= 1 << 24
            && self.samples <= 1 << 40
            && self.samples <= (1 << 27) * u64::from(self.rate)
        {
            Some(StationModel {
                polys: &self.polys,
                clocks,
                second: START,
                rate: self.rate,
                knot: self.knot,
                samples: self.samples,
            })
        } else {
            None
        }
    }

    // The track of these polynomials and clocks, None where it has no model or no clock.
    fn track<'a>(&'a self, clocks: &'a ClockList) -> Option<Track<'a>>
        ensures { IfSome result (λ t. t.samples ≡ self.now.samples) }
    {
        let model = self.model(clocks)?;
        if !model.has_model() || !model.has_clock() {
            return None;
        }
        Some(model.track())
    }
}

// A number of bins.
fn bin_count(count: i64) -> Result<u32>
    ensures { IfOk result (λ n. (2 ≤ n) × (n ≤ 64)) }
{
    if 2 <= count && count <= 64 {
        Ok(count as u32)
    } else {
        bail!("no such number of bins")
    }
}

// A polynomial's second, and its values at the first knot and at the last.
fn print_poly(rt: &impl Print, entry: Option<PolyEntry>) -> io::Result<()> {
    match entry {
        None => println!(rt; "none"),
        Some(e) => println!(rt; "{} {} {}", e.second, e.poly.at(0), e.poly.at(1 << 24)),
    }
}

fn print_clock(rt: &impl Print, entry: Option<ClockEntry>) -> io::Result<()> {
    match entry {
        None => println!(rt; "none"),
        Some(e) => println!(rt; "{} {} {}", e.second, e.c0, e.c1),
    }
}
