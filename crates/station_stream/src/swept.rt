//! The frames of a station's part in a window, read sweep by sweep, and the values that are taken from them.
ghost use Rattle.std.specs.Prelude.{◌≡◌, ◌+◌, ◌<◌, ◌≤◌, ◌⊎◌, ℕ, Some, None, Option, IfOk, OnOk, length, map, slice_index};
ghost use Rattle.std.specs.{List.{Contains}, Option.{ForSome}};
ghost use Rattle.dev_traits.specs.Told.{WhereTold};
ghost use Rattle.frame_index.specs.Recording.{Shelved};
ghost use Rattle.value_codes.specs.Codes.{value_of};
ghost use Rattle.station_stream.specs.{Ranges.{IsChanOf}, Part.{IsIndexed, chan_at, chan_value}, Sweep.{LieIn}, Threads.{AreThreads}, Swept.{AreSwept, IsIn, IsSwept}, Filled.{IsFilled}};
ghost use Rattle.station_stream.specs.{Window.{AreValues}, Faults.{CountsReads}};

use crate::piece::fill_values;
use crate::sweep::Sweep;
use crate::threads::Threads;
use crate::window::{Window, clear, clear_outside};
use crate::{StationChan, StationPart, StreamFault};
use dev_traits::Shelf;
use frame_index::Index;
use std::alloc::Global;

// Reads the frames of the thread of a channel, where they are not there yet.
fn add_chan<F: Shelf>(
    alloc: Global,
    spare: &mut Vec<Vec<u8>>,
    shelf: &mut F,
    index: &Index,
    part: &StationPart<'_>,
    threads: &mut Threads,
    chan: &Option<StationChan>,
) -> Result<(), StreamFault>
    requires chan { ForSome chan.now (IsChanOf part.now.shape) }
    requires indexed { WhereTold (F.told shelf.old) (λ told. IsIndexed told part.now index.now) }
    requires threads { AreThreads (F.told shelf.old) part.now threads.old }
    ensures same { F.told shelf.new ≡ F.told shelf.old }
    ensures sweep { threads.new.sweep ≡ threads.old.sweep }
    ensures threads { OnOk result (AreThreads (F.told shelf.old) part.now threads.new) }
    ensures there { OnOk result (ForSome chan.now (λ c. Contains threads.new.numbers.items c.thread)) }
    ensures kept { OnOk result ((number : ℕ) → Contains threads.old.numbers.items number → Contains threads.new.numbers.items number) }
    ensures counts { CountsReads (F.faults shelf.old) (F.faults shelf.new) result }
{
    match chan {
        Some(chan) => threads.add(alloc, spare, shelf, index, part, chan.thread),
        None => Ok(()),
    }
}

// Reads the frames of a sweep of each thread that has one of the part's channels, once.
fn read_sweep<F: Shelf>(
    alloc: Global,
    spare: &mut Vec<Vec<u8>>,
    shelf: &mut F,
    index: &Index,
    part: &StationPart<'_>,
    sweep: Sweep,
) -> Result<Threads, StreamFault>
    requires begun { part.now.from ≤ sweep.from }
    requires order { sweep.from ≤ sweep.to }
    requires ends { sweep.to ≤ part.now.to }
    requires lie { LieIn part.now.track sweep.from sweep.to sweep.first sweep.last }
    requires indexed { WhereTold (F.told shelf.old) (λ told. IsIndexed told part.now index.now) }
    ensures same { F.told shelf.new ≡ F.told shelf.old }
    ensures sweep { IfOk result (λ t. t.sweep ≡ sweep) }
    ensures swept { IfOk result (IsSwept (F.told shelf.old) part.now) }
    ensures counts { CountsReads (F.faults shelf.old) (F.faults shelf.new) result }
{
    let mut threads = Threads::new(alloc, sweep);
    for chan in part.chans {
        add_chan(alloc, spare, shelf, index, part, &mut threads, chan)?;
    }
    Ok(threads)
}

/// Reads the frames in which the recorded samples of the part in a window lie.
pub(crate) fn read_swept<F: Shelf>(
    alloc: Global,
    spare: &mut Vec<Vec<u8>>,
    shelf: &mut F,
    index: &Index,
    part: &StationPart<'_>,
    window: Window,
) -> Result<Vec<Threads>, StreamFault>
    requires window { window.from + window.count ≤ part.now.track.samples }
    requires indexed { WhereTold (F.told shelf.old) (λ told. IsIndexed told part.now index.now) }
    ensures same { F.told shelf.new ≡ F.told shelf.old }
    ensures swept { IfOk result (λ sweeps. AreSwept (F.told shelf.old) part.now window.from (window.from + window.count) sweeps.items) }
    ensures counts { CountsReads (F.faults shelf.old) (F.faults shelf.new) result }
{
    let mut sweeps = Vec::new(alloc);
    let to = window.clip(part.to);
    let mut at = window.clip(part.from);
    while at < to {
        let sweep = Sweep::of(part, at, to);
        let threads = read_sweep(alloc, spare, shelf, index, part, sweep)?;
        sweeps.push(threads)?;
        at = sweep.to;
    }
    Ok(sweeps)
}

// Sets the bytes of a channel at the samples of a window that lie in a sweep to the values there.
fn fill_sweep(
    threads: &Threads,
    part: &StationPart<'_>,
    chan: &StationChan,
    window: Window,
    codes: &mut [u8],
)
    requires chan { IsChanOf part.now.shape chan.now }
    requires thread { Contains threads.now.numbers.items chan.now.thread }
    requires window { window.from + window.count ≤ part.now.track.samples }
    requires long { length codes.old ≡ window.count }
    requires swept { IsSwept None part.now threads.now }
    ensures beside { (k : ℕ) → (window.from + k < threads.now.sweep.from) ⊎ (threads.now.sweep.to ≤ window.from + k)
        → slice_index codes.new k ≡ slice_index codes.old k }
    ensures values { (told : Option Shelved) → IsSwept told part.now threads.now → WhereTold told (λ told. (k : ℕ) → k < length codes.old → IsIn (window.from + k) threads.now
        → value_of (slice_index codes.new k) ≡ chan_value told part.now chan.now (window.from + k)) }
{
    let from = window.clip(threads.sweep.from);
    let upto = window.clip(threads.sweep.to);
    let (at, to) = (window.place(from), window.place(upto));
    let place = threads.place(chan.thread);
    fill_values(
        &threads.frames[place],
        part,
        chan,
        threads.sweep,
        from,
        &mut codes[at..to],
    );
}

/// Sets the bytes of a channel in a window to the values there, and to 0 outside the part, out of the frames of sweeps.
pub(crate) fn fill_swept(
    sweeps: &[Threads],
    part: &StationPart<'_>,
    chan: &StationChan,
    window: Window,
    codes: &mut [u8],
)
    requires chan { (i : ℕ) × (chan_at part.now.chans.now i ≡ Some chan.now) }
    requires window { window.from + window.count ≤ part.now.track.samples }
    requires long { length codes.old ≡ window.count }
    requires swept { AreSwept None part.now window.from (window.from + window.count) sweeps.now }
    ensures { (told : Option Shelved) → AreSwept told part.now window.from (window.from + window.count) sweeps.now
        → IsFilled told part.now chan.now window part.now.to codes.new }
{
    clear_outside(part, window, codes);
    for threads in sweeps {
        fill_sweep(threads, part, chan, window, codes);
    }
}

// The channel at a place among the part's; None where the station lacks it.
fn chan_at(part: &StationPart<'_>, chan: usize) -> Option<StationChan>
    ensures { result ≡ chan_at part.now.chans.now chan }
{
    match part.chans.get(chan) {
        Some(chan) => *chan,
        None => None,
    }
}

/// The same for a channel by its place among the part's: 0 everywhere where the station lacks it.
pub(crate) fn fill_chan(
    sweeps: &[Threads],
    part: &StationPart<'_>,
    chan: usize,
    window: Window,
    codes: &mut [u8],
)
    requires window { window.from + window.count ≤ part.now.track.samples }
    requires long { length codes.old ≡ window.count }
    requires swept { AreSwept None part.now window.from (window.from + window.count) sweeps.now }
    ensures { (told : Option Shelved) → AreSwept told part.now window.from (window.from + window.count) sweeps.now
        → WhereTold told (λ told. AreValues told part.now (chan_at part.now.chans.now chan) window.from window.count (map value_of codes.new)) }
{
    match chan_at(part, chan) {
        Some(chan) => fill_swept(sweeps, part, &chan, window, codes),
        None => clear(0, codes.len(), codes),
    }
}

/// Gives the room of the frames to the spare lists.
pub(crate) fn leave_swept(sweeps: Vec<Threads>, spare: &mut Vec<Vec<u8>>) {
    for threads in sweeps {
        threads.leave(spare);
    }
}
