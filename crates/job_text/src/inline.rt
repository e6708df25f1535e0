//! The schedule of a job that states its scans itself.
ghost use Rattle.std.specs.Prelude.{◌≡◌, map, IfOk, IsSome};
ghost use Rattle.job_text.specs.Inline.{chan_of, pass_of, scan_of, scans_of};

use crate::job::Job;
use crate::places::{Band, ScanSpan};
use crate::station::Station;
use item_list::ItemList;
use named_list::Named;
use num_time::Name;
use scan_list::{Chan, ChanList, Pass, Scan, ScanList};
use std::alloc::{AllocError, Global};

// A band as a channel.
fn chan_of(alloc: Global, name: &[u8], band: &Band) -> Result<Chan, AllocError>
    ensures { IfOk result (λ chan. chan ≡ chan_of (name.now, band.now)) }
{
    Ok(Chan {
        id: Name::new(alloc, name)?,
        hertz: band.hertz,
        upper: band.upper,
        band_hertz: 0,
    })
}

// The bands as channels.
fn chans_of(alloc: Global, bands: &Named<Band>) -> Result<ChanList, AllocError>
    ensures { IfOk result (λ chans. chans ≡ map chan_of bands.now) }
{
    let mut chans = Vec::new(alloc);
    for i in 0..bands.len() {
        let (name, band) = bands.at(i);
        let chan = chan_of(alloc, name, band)?;
        chans.push(chan)?;
    }
    ChanList::of(alloc, chans)
}

// A station's part in a scan.
fn pass_of(
    alloc: Global,
    rate: u32,
    chans: &ChanList,
    samples: u64,
    station: &Station,
) -> Result<Pass, AllocError>
    ensures { IfOk result (λ pass. pass ≡ pass_of rate chans.now samples station.now) }
{
    let key = station.key.copy(alloc)?;
    let chans = chans.share()?;
    Ok(Pass {
        key,
        from_us: 0,
        to_us: 0,
        samples: Some(samples),
        rate,
        chans,
    })
}

// The parts of stations in a scan.
fn passes_of(
    alloc: Global,
    rate: u32,
    chans: &ChanList,
    samples: u64,
    stations: &[Station],
) -> Result<ItemList<Pass>, AllocError>
    ensures { IfOk result (λ passes. passes ≡ map (pass_of rate chans.now samples) stations.now) }
{
    let mut passes = Vec::new(alloc);
    for station in stations {
        let pass = pass_of(alloc, rate, chans, samples, station)?;
        passes.push(pass)?;
    }
    Ok(ItemList::of(passes))
}

// A scan in which stations take part.
fn scan_of(
    alloc: Global,
    rate: u32,
    chans: &ChanList,
    stations: &[Station],
    name: &[u8],
    span: &ScanSpan,
) -> Result<Scan, AllocError>
    ensures { IfOk result (λ scan. scan ≡ scan_of rate chans.now stations.now (name.now, span.now)) }
{
    let passes = passes_of(alloc, rate, chans, span.samples, stations)?;
    let name = Name::new(alloc, name)?;
    Ok(Scan {
        name,
        second: span.second,
        passes,
    })
}

// The scans in which stations take part.
fn scans_of(
    alloc: Global,
    rate: u32,
    chans: &ChanList,
    stations: &[Station],
    spans: &Named<ScanSpan>,
) -> Result<ItemList<Scan>, AllocError>
    ensures { IfOk result (λ scans. scans ≡ map (scan_of rate chans.now stations.now) spans.now) }
{
    let mut scans = Vec::new(alloc);
    for i in 0..spans.len() {
        let (name, span) = spans.at(i);
        let scan = scan_of(alloc, rate, chans, stations, name, span)?;
        scans.push(scan)?;
    }
    Ok(ItemList::of(scans))
}

/// The schedule of a job that states its scans itself: in each scan all its stations take part, with all
/// its bands, from the scan's start on. The stations share one list of channels.
pub fn inline_schedule(alloc: Global, job: &Job) -> Result<ScanList, AllocError>
    requires rate { IsSome job.now.rate }
    ensures { IfOk result (λ list. list.scans ≡ scans_of job.now) }
{
    let rate = job.rate.unwrap_or(0);
    let chans = chans_of(alloc, &job.bands)?;
    let stations = job.stations.items();
    let scans = scans_of(alloc, rate, &chans, stations, &job.scans)?;
    Ok(ScanList { scans })
}
