//! The planes of all channels of an epoch's stations.
ghost use Rattle.std.specs.Prelude.{◌≡◌, ◌*◌, ℤ, None, IfOk, length};
ghost use Rattle.std.specs.List.{All};
ghost use Rattle.bit_planes.specs.Planes.{plane_value};
ghost use Rattle.epoch_run.specs.{Streamed.{streamed}, Levelled.{AllLevelled}, Planes.{HoldStreams, planed}, Rows.{HoldRows, IsRowOf}};

use crate::coded::stations_of_rows;
use crate::copied::stations_of_streams;
use bit_planes::Planes;
use station_stream::Stream;
use std::alloc::{AllocError, Global};
use std::marker::Model;

/// The planes of each channel of each station of an epoch, and those of nothing.
#[derive(Drop)]
pub struct EpochPlanes {
    stations: Vec<Vec<Planes>>,
    nothing: Planes,
    ghost none: { (n : ℤ) → plane_value nothing n ≡ None },
}

impl Model for EpochPlanes {
    ghost use Rattle.std.specs.Prelude.{List, map};
    ghost use Rattle.bit_planes.specs.Planes.{PlanesFields};
    ghost use Rattle.epoch_run.specs.{Levelled.{AllLevelled}, Planes.{planed}};

    ghost Value = { List (List PlanesFields) };

    ghost view = { λ p. map (λ chans. chans.items) p.stations.items };

    ghost invariant = { λ p. AllLevelled (planed (map (λ chans. chans.items) p.stations.items)) };
}

impl EpochPlanes {
    /// The planes of streams: station `a` is the stream at place `a`. They hold copies of the streams' codes.
    pub fn build(alloc: Global, streams: &[Stream]) -> Result<EpochPlanes, AllocError>
        ensures { IfOk result (λ p. HoldStreams p streams.now) }
    {
        are_levelled(streams);
        let nothing = no_values(alloc);
        let stations = stations_of_streams(alloc, streams)?;
        Ok(EpochPlanes { stations, nothing })
    }

    /// The planes of rows of codes, one a sample from sample `from` on: `chans` rows for each of so many stations, station by station.
    /// The codes stay where they are in memory.
    pub fn of_rows(
        alloc: Global,
        from: u64,
        stations: usize,
        chans: usize,
        rows: Vec<Vec<u8>>,
    ) -> Result<EpochPlanes, AllocError>
        requires count { length rows.items ≡ stations * chans }
        requires end { All (IsRowOf from) rows.items }
        ensures count { IfOk result (λ p. length p ≡ stations) }
        ensures rows { IfOk result (HoldRows from chans rows.items) }
    {
        let nothing = no_values(alloc);
        let stations = stations_of_rows(alloc, from, stations, chans, rows)?;
        Ok(EpochPlanes { stations, nothing })
    }

    /// Gives the room of the planes to spare lists, as rows of codes.
    pub fn leave(self, spare: &mut Vec<Vec<u8>>) {
        for chans in self.stations {
            leave_chans(chans, spare);
        }
    }

    /// The planes of a channel of a station, those of nothing where there is no such channel.
    pub(crate) fn channel(&self, station: u32, chan: u32) -> &Planes
        ensures { (n : ℤ) → plane_value result.now n ≡ planed self.now station chan n }
    {
        match self.stations.get(station as usize) {
            Some(chans) => chans.get(chan as usize).unwrap_or(&self.nothing),
            None => &self.nothing,
        }
    }

    /// Each value is a level turned by a sector. The call does nothing: it brings this law.
    pub(crate) fn is_levelled(&self)
        ensures { AllLevelled (planed self.now) }
    {
        let _ = &self.stations;
    }
}

// Planes without a value.
fn no_values(alloc: Global) -> Planes
    ensures { (n : ℤ) → plane_value result n ≡ None }
{
    Planes::of_codes(0, Vec::new(alloc))
}

// Gives the room of the planes of a station's channels to spare lists.
fn leave_chans(chans: Vec<Planes>, spare: &mut Vec<Vec<u8>>) {
    for planes in chans {
        planes.leave(spare);
    }
}

// Each value of the streams has components of a magnitude of at most 15.
fn are_levelled(streams: &[Stream])
    ensures { AllLevelled (streamed streams.now) }
{
    for stream in streams {
        stream.is_levelled();
    }
}
