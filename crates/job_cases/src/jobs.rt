//! Jobs, as they are printed.

use case_texts::put_text;
use job_text::{Job, Station};
use std::alloc::{AllocError, Global};

// ` word name`
fn put_named(alloc: Global, out: &mut String, word: &str, name: &[u8]) -> Result<(), AllocError> {
    out.push(' ')?;
    out.push_str(word)?;
    out.push(' ')?;
    put_text(alloc, out, name)
}

// ` station key id bits chans frame`, and `legacy` for legacy frames.
fn put_station(alloc: Global, out: &mut String, station: &Station) -> Result<(), AllocError> {
    put_named(alloc, out, "station", station.key.bytes())?;
    let (id, bits, frame) = (station.id, station.bits, station.frame_bytes);
    let chans = station.chans_count();
    out.push_str(format!(in alloc; " {id} {bits} {chans} {frame}")?.as_str())?;
    if station.legacy {
        out.push_str(" legacy")?;
    }
    Ok(())
}

// ` file name` for each file, and ` chan name thread index` for each channel.
fn put_recorded(alloc: Global, out: &mut String, station: &Station) -> Result<(), AllocError> {
    for name in &station.files {
        put_named(alloc, out, "file", name.bytes())?;
    }
    for i in 0..station.chans.len() {
        let (name, place) = station.chans.at(i);
        put_named(alloc, out, "chan", name)?;
        out.push_str(format!(in alloc; " {} {}", place.thread, place.index)?.as_str())?;
    }
    Ok(())
}

// ` clock second c0 c1` for each clock entry, and ` poly second p q r` for each polynomial, its values at the knots 0, 2^23 and 2^24.
fn put_entries(alloc: Global, out: &mut String, station: &Station) -> Result<(), AllocError> {
    for entry in station.clocks.entries() {
        let (second, c0, c1) = (entry.second, entry.c0, entry.c1);
        out.push_str(format!(in alloc; " clock {second} {c0} {c1}")?.as_str())?;
    }
    for entry in station.polys.entries() {
        let (second, p) = (entry.second, entry.poly.at(0));
        let (q, r) = (entry.poly.at(1 << 23), entry.poly.at(1 << 24));
        out.push_str(format!(in alloc; " poly {second} {p} {q} {r}")?.as_str())?;
    }
    Ok(())
}

// The products and the scans that are taken, and the scans and bands of a job that states them.
fn put_lists(alloc: Global, out: &mut String, job: &Job) -> Result<(), AllocError> {
    for i in 0..job.products.len() {
        let (x, y) = job.products.at(i);
        put_named(alloc, out, "product", x)?;
        out.push(' ')?;
        put_text(alloc, out, y)?;
    }
    for i in 0..job.takes.len() {
        put_named(alloc, out, "take", job.takes.at(i).0)?;
    }
    for i in 0..job.scans.len() {
        let (name, span) = job.scans.at(i);
        put_named(alloc, out, "scan", name)?;
        out.push_str(format!(in alloc; " {} {}", span.second, span.samples)?.as_str())?;
    }
    for i in 0..job.bands.len() {
        let (name, band) = job.bands.at(i);
        put_named(alloc, out, "band", name)?;
        let side = if band.upper { 'U' } else { 'L' };
        out.push_str(format!(in alloc; " {} {side}", band.hertz)?.as_str())?;
    }
    Ok(())
}

/// What a job says: its numbers, its stations, each with what is said of it, and its lists.
pub fn put_job(alloc: Global, out: &mut String, job: &Job) -> Result<(), AllocError> {
    let (lags, integration, epoch, knot) = (job.lags, job.integration, job.epoch, job.knot);
    out.push_str(format!(in alloc;
        "lags {lags} integration {integration} epoch {epoch} knot {knot}"
    )?.as_str())?;
    if job.auto {
        out.push_str(" auto")?;
    }
    if let Some(rate) = job.rate {
        out.push_str(format!(in alloc; " rate {rate}")?.as_str())?;
    }
    for station in job.stations.items() {
        put_station(alloc, out, station)?;
        put_recorded(alloc, out, station)?;
        put_entries(alloc, out, station)?;
    }
    put_lists(alloc, out, job)
}
