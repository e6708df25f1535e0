//! The parts of a plan.
ghost use Rattle.std.specs.Prelude.{◌≡◌, ◌<◌, ◌/◌, ◌^◌, ℕ, List, map, bytes_eq, option_copied, IfOk};
ghost use Rattle.std.specs.List.{position};
ghost use Rattle.named_list.specs.Named.{named, names};
ghost use Rattle.vdif_frame.specs.Shape.{samples_per_frame};
ghost use Rattle.job_text.specs.Ranges.{shape_of};
ghost use Rattle.job_join.specs.{Spans.{first_sample, end_sample}, Channels.{chan_with}, Joined.{recorded_of, station_plan, band_of, stay_plan}, Places.{stand_of}};

use crate::channels::chan_with;
use crate::frames::{samples_per_frame, shape_of};
use crate::spans::{end_sample, first_sample};
use crate::stands::{Here, number};
use item_list::ItemList;
use job_plan::{Band, Recorded, StationPlan, StayPlan};
use job_text::Station;
use named_list::Named;
use num_time::Name;
use scan_list::{Chan, Pass};
use std::alloc::{AllocError, Global};

// Where a station records a channel.
fn recorded_of(station: &Station, name: &[u8]) -> Option<Recorded>
    ensures { result ≡ recorded_of station.now name.now }
{
    let place = station.chans.get(name)?;
    Some(Recorded {
        thread: place.thread,
        index: place.index,
    })
}

// Where a station records each of some channels.
fn recorded_all(
    alloc: Global,
    station: &Station,
    channels: &Named<()>,
) -> Result<Vec<Option<Recorded>>, AllocError>
    ensures { IfOk result (λ all. all.items ≡ map (recorded_of station.now) (names channels.now)) }
{
    let mut all = Vec::new(alloc);
    for i in 0..channels.len() {
        let (name, _) = channels.at(i);
        all.push(recorded_of(station, name))?;
    }
    Ok(all)
}

// Some names once more.
fn copies(alloc: Global, files: &[Name]) -> Result<Vec<Name>, AllocError>
    ensures { IfOk result (λ all. all.items ≡ files.now) }
{
    let mut all = Vec::new(alloc);
    for file in files {
        let file = file.copy(alloc)?;
        all.push(file)?;
    }
    Ok(all)
}

/// A station of a plan.
pub(crate) fn station_plan(
    alloc: Global,
    rate: u32,
    channels: &Named<()>,
    station: &Station,
) -> Result<StationPlan, AllocError>
    requires { 0 < rate / samples_per_frame (shape_of 0 station.now) }
    ensures { IfOk result (λ plan. plan ≡ station_plan rate (names channels.now) station.now) }
{
    let key = station.key.copy(alloc)?;
    let shape = shape_of(station, rate / samples_per_frame(station));
    let files = copies(alloc, &station.files)?;
    let chans = recorded_all(alloc, station, channels)?;
    let polys = station.polys.copy(alloc)?;
    let clocks = station.clocks.copy(alloc)?;
    Ok(StationPlan {
        key,
        shape,
        files: ItemList::of(files),
        chans: ItemList::of(chans),
        polys,
        clocks,
    })
}

// The band of a channel.
fn band_of(chan: Option<&Chan>) -> Option<Band>
    ensures { result ≡ band_of (option_copied chan.entry) }
{
    let chan = chan?;
    Some(Band {
        hertz: chan.hertz,
        upper: chan.upper,
    })
}

// The band of each of some channels in a station's part.
fn bands_of(
    alloc: Global,
    pass: &Pass,
    channels: &Named<()>,
) -> Result<Vec<Option<Band>>, AllocError>
    ensures { IfOk result (λ bands. bands.items ≡ map (λ name. band_of (chan_with pass.now name)) (names channels.now)) }
{
    let mut bands = Vec::new(alloc);
    for i in 0..channels.len() {
        let (name, _) = channels.at(i);
        bands.push(band_of(chan_with(pass, name)))?;
    }
    Ok(bands)
}

/// A station's part of a scan of a plan.
pub(crate) fn stay_plan(
    alloc: Global,
    rate: u32,
    channels: &Named<()>,
    here: &Here,
) -> Result<StayPlan, AllocError>
    requires number { here.now.number < 2 ^ 32 }
    requires from { first_sample rate here.now.pass.now < 2 ^ 64 }
    requires to { end_sample rate here.now.pass.now < 2 ^ 64 }
    ensures { IfOk result (λ plan. plan ≡ stay_plan rate (names channels.now) (stand_of here.now)) }
{
    let bands = bands_of(alloc, here.pass, channels)?;
    Ok(StayPlan {
        station: here.number as u32,
        from: first_sample(rate, here.pass) as u64,
        to: end_sample(rate, here.pass) as u64,
        bands: ItemList::of(bands),
    })
}

/// The numbers of some channels, by their names.
pub(crate) fn channel_numbers(
    alloc: Global,
    channels: &Named<()>,
) -> Result<Named<usize>, AllocError>
    ensures { IfOk result (λ m. (q : List ℕ) → named m q ≡ position (λ other. bytes_eq other q) (names channels.now)) }
{
    let mut numbers = Named::new(alloc);
    for i in 0..channels.len() {
        let (name, _) = channels.at(i);
        number(alloc, &mut numbers, name, i)?;
    }
    Ok(numbers)
}

/// The names of some channels.
pub(crate) fn channel_names(alloc: Global, channels: &Named<()>) -> Result<Vec<Name>, AllocError>
    ensures { IfOk result (λ all. all.items ≡ names channels.now) }
{
    let mut all = Vec::new(alloc);
    for i in 0..channels.len() {
        let (name, _) = channels.at(i);
        let name = Name::new(alloc, name)?;
        all.push(name)?;
    }
    Ok(all)
}
