//! Streams.
ghost use Rattle.std.specs.Prelude.{◌≡◌, ◌<◌, ◌^◌, ◌⊎◌, ◌≤ℤ◌, ◌<ℤ◌, ◌+ℤ◌, ◌-ℤ◌, ℕ, ℤ, pos, unsigned_abs, [], length, map, slice_index_or, IfOk, IfSome};
ghost use Rattle.dev_traits.specs.Told.{WhereTold};
ghost use Rattle.corr_model.specs.Cell.{AreSmall};
ghost use Rattle.station_stream.specs.{Part.{IsIndexed, part_value}, Stream.{AreLevelled, AreWhole, stream_value, windowed}, Faults.{CountsReads}};
ghost use Rattle.value_codes.specs.Codes.{value_of};

use crate::room::leave_room;
use crate::window::channels;
use crate::{StationPart, StreamFault};
use dev_traits::Shelf;
use frame_index::Index;
use std::alloc::Global;
use std::marker::Model;
use value_codes::value_at;

/// The values of a station's channels at the samples from one up to, not including, another.
#[derive(Drop)]
pub struct Stream {
    from: i64,
    to: i64,
    chans: Vec<Vec<u8>>,
    ghost begin: { pos 0 ≤ℤ from },
    ghost order: { from ≤ℤ to },
    ghost end: { to ≤ℤ pos (2 ^ 40) },
    ghost whole: { AreWhole (unsigned_abs (to -ℤ from)) chans.items },
}

impl Model for Stream {
    ghost use Rattle.std.specs.Prelude.{map};
    ghost use Rattle.station_stream.specs.Stream.{StreamFields};
    ghost use Rattle.value_codes.specs.Codes.{value_of};

    ghost Value = { StreamFields };

    ghost view = { λ s. record {
      from = s.from;
      to = s.to;
      values = map (λ chan. map value_of chan.items) s.chans.items;
    } };
}

impl Stream {
    /// Reads the values of a station's channels at the samples from `from` up to, not including, `to` of a scan. They are at most
    /// 4,195,328: those of an epoch, and 512 on each side.
    pub fn load<F: Shelf>(
        alloc: Global,
        shelf: &mut F,
        index: &Index,
        part: &StationPart<'_>,
        from: i64,
        to: i64,
    ) -> Result<Stream, StreamFault>
        requires indexed { WhereTold (F.told shelf.old) (λ told. IsIndexed told part.now index.now) }
        requires begin { pos 0 ≤ℤ from }
        requires order { from ≤ℤ to }
        requires end { to ≤ℤ pos part.now.track.samples }
        requires few { (to -ℤ from) ≤ℤ pos 4195328 }
        ensures same { F.told shelf.new ≡ F.told shelf.old }
        ensures window { IfOk result (λ s. (s.from ≡ from) × ((s.to ≡ to) × (length s.values ≡ length part.now.chans.now))) }
        ensures values { IfOk result (λ s. WhereTold (F.told shelf.old) (λ told. (chan : ℕ) (n : ℤ) → from ≤ℤ n → n <ℤ to
            → stream_value s chan n ≡ part_value told part.now chan n)) }
        ensures counts { CountsReads (F.faults shelf.old) (F.faults shelf.new) result }
    {
        Stream::load_in(alloc, &mut Vec::new(alloc), shelf, index, part, from, to)
    }

    /// The same, in the room of spare lists. `spare` keeps those that are not needed.
    pub fn load_in<F: Shelf>(
        alloc: Global,
        spare: &mut Vec<Vec<u8>>,
        shelf: &mut F,
        index: &Index,
        part: &StationPart<'_>,
        from: i64,
        to: i64,
    ) -> Result<Stream, StreamFault>
        requires indexed { WhereTold (F.told shelf.old) (λ told. IsIndexed told part.now index.now) }
        requires begin { pos 0 ≤ℤ from }
        requires order { from ≤ℤ to }
        requires end { to ≤ℤ pos part.now.track.samples }
        requires few { (to -ℤ from) ≤ℤ pos 4195328 }
        ensures same { F.told shelf.new ≡ F.told shelf.old }
        ensures window { IfOk result (λ s. (s.from ≡ from) × ((s.to ≡ to) × (length s.values ≡ length part.now.chans.now))) }
        ensures values { IfOk result (λ s. WhereTold (F.told shelf.old) (λ told. (chan : ℕ) (n : ℤ) → from ≤ℤ n → n <ℤ to
            → stream_value s chan n ≡ part_value told part.now chan n)) }
        ensures counts { CountsReads (F.faults shelf.old) (F.faults shelf.new) result }
    {
        let count = (to - from) as usize;
        let chans = channels(alloc, spare, shelf, index, part, from as u64, count)?;
        Ok(Stream { from, to, chans })
    }

    /// Gives the room of the stream to the spare lists, from which `load_in` takes it.
    pub fn leave(self, spare: &mut Vec<Vec<u8>>) {
        for codes in self.chans {
            leave_room(spare, codes);
        }
    }

    /// The first sample of the window.
    pub fn from(&self) -> i64
        ensures { result ≡ self.now.from }
    {
        self.from
    }

    /// The sample at which the window ends, the first one behind it.
    pub fn to(&self) -> i64
        ensures { result ≡ self.now.to }
    {
        self.to
    }

    /// The number of the station's channels.
    pub fn chans(&self) -> usize
        ensures { result ≡ length self.now.values }
    {
        self.chans.len()
    }

    /// The codes of a channel's values, by its place among the station's, from the window's first sample on; none of a channel
    /// that the station lacks.
    pub fn codes(&self, chan: u32) -> &[u8]
        requires { chan < length self.now.values }
        ensures codes { slice_index_or self.now.values chan [] ≡ map value_of result.now }
        ensures each { (length result.now ≡ 0) ⊎ ((self.now.from +ℤ pos (length result.now)) ≡ self.now.to) }
    {
        &self.chans[chan as usize]
    }

    /// The value of a channel, by its place among the station's, at sample `n`; None where the station has none there.
    pub fn z(&self, chan: u32, n: i64) -> Option<(i8, i8)>
        requires chan { chan < length self.now.values }
        requires begin { self.now.from ≤ℤ n }
        requires end { n <ℤ self.now.to }
        ensures value { result ≡ stream_value self.now chan n }
        ensures small { IfSome result AreSmall }
    {
        value_at(self.codes(chan), self.place(n))
    }

    /// The value of a channel, by its place among the station's, at sample `n`; None outside the window and past the last
    /// channel.
    pub fn value(&self, chan: u32, n: i64) -> Option<(i8, i8)>
        ensures value { result ≡ windowed self.now chan n }
        ensures small { IfSome result AreSmall }
    {
        if n < self.from() || n >= self.to() || chan as usize >= self.chans() {
            None
        } else {
            self.z(chan, n)
        }
    }

    /// Each value is a level turned by a sector. The call does nothing: it brings this law.
    pub fn is_levelled(&self)
        ensures { (chan : ℕ) (n : ℤ) → IfSome (windowed self.now chan n) AreLevelled }
    {
        let _ = &self.chans;
    }

    /// The window is one of a scan, which has at most 2^40 samples. The call does nothing: it brings this law.
    pub fn is_in_scan(&self)
        ensures begin { pos 0 ≤ℤ self.now.from }
        ensures order { self.now.from ≤ℤ self.now.to }
        ensures end { self.now.to ≤ℤ pos (2 ^ 40) }
    {
        let _ = &self.chans;
    }

    // The place of sample `n` in the list of a channel.
    fn place(&self, n: i64) -> usize
        requires { self.now.from ≤ℤ n }
        ensures { result ≡ unsigned_abs (n -ℤ self.now.from) }
    {
        (n - self.from) as usize
    }
}
