//! The values of a station's channels in a window of a scan.
ghost use Rattle.std.specs.Prelude.{◌≡◌, ◌+◌, ◌<◌, ◌≤◌, ◌^◌, ℕ, [], None, Option, IfOk, length, map, min, max, slice_index, slice_index_or};
ghost use Rattle.dev_traits.specs.Told.{WhereTold};
ghost use Rattle.frame_index.specs.Recording.{Shelved};
ghost use Rattle.station_stream.specs.{Part.{IsIndexed, chan_at}, Swept.{AreSwept}, Filled.{IsBlank, AreFilled, AllFilled}, Stream.{AreWhole}, Window.{AreValues}, Faults.{CountsReads}};
ghost use Rattle.value_codes.specs.Codes.{value_of};

use crate::room::take_room;
use crate::swept::{fill_swept, leave_swept, read_swept};
use crate::threads::Threads;
use crate::{StationChan, StationPart, StreamFault};
use dev_traits::Shelf;
use frame_index::Index;
use std::alloc::{AllocError, Global};

/// So many samples of a scan from `from` on.
#[derive(Clone, Copy)]
pub(crate) struct Window {
    pub from: u64,
    pub count: usize,
}

impl Window {
    /// The sample, or the window's begin or end where the sample lies before it or behind it.
    pub(crate) fn clip(&self, n: u64) -> u64
        requires { self.now.from + self.now.count < 2 ^ 64 }
        ensures { result ≡ min (max n self.now.from) (self.now.from + self.now.count) }
    {
        n.max(self.from).min(self.from + self.count as u64)
    }

    /// The place of a sample in the window.
    pub(crate) fn place(&self, n: u64) -> usize
        requires begun { self.now.from ≤ n }
        requires inside { n ≤ self.now.from + self.now.count }
        ensures { self.now.from + result ≡ n }
    {
        (n - self.from) as usize
    }
}

/// Sets the bytes from one place up to, not including, another to 0.
pub(crate) fn clear(at: usize, to: usize, codes: &mut [u8])
    requires order { at ≤ to }
    requires inside { to ≤ length codes.old }
    ensures cleared { (k : ℕ) → at ≤ k → k < to → slice_index codes.new k ≡ 0 }
    ensures before { (k : ℕ) → k < at → slice_index codes.new k ≡ slice_index codes.old k }
{
    codes[at..to].fill(0);
}

/// Sets the bytes at the samples of a window that lie outside the part to 0.
pub(crate) fn clear_outside(part: &StationPart<'_>, window: Window, codes: &mut [u8])
    requires window { window.from + window.count ≤ part.now.track.samples }
    requires long { length codes.old ≡ window.count }
    ensures { IsBlank part.now window codes.new }
{
    let at = window.place(window.clip(part.from));
    let to = window.place(window.clip(part.to));
    clear(0, at, codes);
    clear(to, codes.len(), codes);
}

// The bytes of a channel's values in a window, out of the frames of sweeps, in the room of a spare list; no bytes of a channel that
// the station lacks.
fn filled(
    alloc: Global,
    spare: &mut Vec<Vec<u8>>,
    sweeps: &[Threads],
    part: &StationPart<'_>,
    window: Window,
    chan: &Option<StationChan>,
) -> Result<Vec<u8>, AllocError>
    requires chan { (i : ℕ) × (chan_at part.now.chans.now i ≡ chan.now) }
    requires window { window.from + window.count ≤ part.now.track.samples }
    requires swept { AreSwept None part.now window.from (window.from + window.count) sweeps.now }
    ensures { IfOk result (λ codes. (told : Option Shelved) → AreSwept told part.now window.from (window.from + window.count) sweeps.now
        → AreFilled told part.now chan.now window part.now.to codes.items) }
{
    let Some(chan) = chan else {
        return Ok(Vec::new(alloc));
    };
    let mut codes = take_room(alloc, spare, window.count)?;
    fill_swept(sweeps, part, chan, window, &mut codes);
    Ok(codes)
}

// The same for each channel.
fn all_filled(
    alloc: Global,
    spare: &mut Vec<Vec<u8>>,
    sweeps: &[Threads],
    part: &StationPart<'_>,
    window: Window,
) -> Result<Vec<Vec<u8>>, AllocError>
    requires window { window.from + window.count ≤ part.now.track.samples }
    requires swept { AreSwept None part.now window.from (window.from + window.count) sweeps.now }
    ensures each { IfOk result (λ chans. length chans.items ≡ length part.now.chans.now) }
    ensures filled { IfOk result (λ chans. (told : Option Shelved) → AreSwept told part.now window.from (window.from + window.count) sweeps.now
        → AllFilled told part.now window part.now.to chans.items) }
{
    let mut chans = Vec::new(alloc);
    for chan in part.chans {
        chans.push(filled(alloc, spare, sweeps, part, window, chan)?)?;
    }
    Ok(chans)
}

/// The bytes of each channel's values at `count` samples from `from` on, in the room of spare lists; no bytes of a channel
/// that the station lacks.
pub(crate) fn channels<F: Shelf>(
    alloc: Global,
    spare: &mut Vec<Vec<u8>>,
    shelf: &mut F,
    index: &Index,
    part: &StationPart<'_>,
    from: u64,
    count: usize,
) -> Result<Vec<Vec<u8>>, StreamFault>
    requires inside { from + count ≤ part.now.track.samples }
    requires indexed { WhereTold (F.told shelf.old) (λ told. IsIndexed told part.now index.now) }
    ensures same { F.told shelf.new ≡ F.told shelf.old }
    ensures each { IfOk result (λ chans. length chans.items ≡ length part.now.chans.now) }
    ensures whole { IfOk result (λ chans. AreWhole count chans.items) }
    ensures values { IfOk result (λ chans. WhereTold (F.told shelf.old) (λ told. (chan : ℕ) → chan < length part.now.chans.now
        → AreValues told part.now (chan_at part.now.chans.now chan) from count
        (slice_index_or (map (λ codes. map value_of codes.items) chans.items) chan []))) }
    ensures counts { CountsReads (F.faults shelf.old) (F.faults shelf.new) result }
{
    let window = Window { from, count };
    let sweeps = read_swept(alloc, spare, shelf, index, part, window)?;
    let chans = all_filled(alloc, spare, &sweeps, part, window)?;
    leave_swept(sweeps, spare);
    Ok(chans)
}
