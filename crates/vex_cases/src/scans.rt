//! Scans, as they are printed.

use case_texts::put_text;
use scan_list::{Chan, Pass, Scan, ScanList};
use std::alloc::{AllocError, Global};

// ` [id hertz side band]`
fn put_chan(alloc: Global, out: &mut String, chan: &Chan) -> Result<(), AllocError> {
    out.push_str(" [")?;
    put_text(alloc, out, chan.id.bytes())?;
    let (hertz, band) = (chan.hertz, chan.band_hertz);
    let side = if chan.upper { 'U' } else { 'L' };
    out.push_str(format!(in alloc; " {hertz} {side} {band}]")?.as_str())
}

// ` (key from to rate [channel] ..)`, and the samples before the rate, if there are any.
fn put_pass(alloc: Global, out: &mut String, pass: &Pass) -> Result<(), AllocError> {
    out.push_str(" (")?;
    put_text(alloc, out, pass.key.bytes())?;
    let (from, to, rate) = (pass.from_us, pass.to_us, pass.rate);
    out.push_str(format!(in alloc; " {from} {to}")?.as_str())?;
    if let Some(samples) = pass.samples {
        out.push_str(format!(in alloc; " samples {samples}")?.as_str())?;
    }
    out.push_str(format!(in alloc; " {rate}")?.as_str())?;
    for chan in pass.chans.items() {
        put_chan(alloc, out, chan)?;
    }
    out.push(')')
}

// `name second (pass) ..; `
fn put_scan(alloc: Global, out: &mut String, scan: &Scan) -> Result<(), AllocError> {
    put_text(alloc, out, scan.name.bytes())?;
    out.push_str(format!(in alloc; " {}", scan.second)?.as_str())?;
    for pass in scan.passes.items() {
        put_pass(alloc, out, pass)?;
    }
    out.push_str("; ")
}

/// Each scan, in the schedule's order.
pub fn put_scans(alloc: Global, out: &mut String, list: &ScanList) -> Result<(), AllocError> {
    for scan in list.scans.items() {
        put_scan(alloc, out, scan)?;
    }
    Ok(())
}
