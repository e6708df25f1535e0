//! Planes of copies of the codes of streams.
ghost use Rattle.std.specs.Prelude.{◌≡◌, ◌<◌, ℕ, ℤ, IfOk, length};
ghost use Rattle.bit_planes.specs.Planes.{plane_value};
ghost use Rattle.station_stream.specs.Stream.{windowed};
ghost use Rattle.epoch_run.specs.Planes.{HoldChans, HoldEach};

use bit_planes::Planes;
use station_stream::Stream;
use std::alloc::{AllocError, Global};

// The planes of a copy of a channel's codes.
fn chan_of_stream(alloc: Global, stream: &Stream, chan: u32) -> Result<Planes, AllocError>
    requires { chan < length stream.now.values }
    ensures { IfOk result (λ p. (n : ℤ) → plane_value p n ≡ windowed stream.now chan n) }
{
    stream.is_in_scan();
    let codes = stream.codes(chan).to_vec(alloc)?;
    Ok(Planes::of_codes(stream.from(), codes))
}

// The planes of each channel that a pair can have.
fn chans_of_stream(alloc: Global, stream: &Stream) -> Result<Vec<Planes>, AllocError>
    ensures { IfOk result (λ chans. HoldChans stream.now chans.items) }
{
    let mut chans = Vec::new(alloc);
    for chan in 0..stream.chans().min(1 << 32) {
        chans.push(chan_of_stream(alloc, stream, chan as u32)?)?;
    }
    Ok(chans)
}

/// The planes of each stream that a pair can have.
pub(crate) fn stations_of_streams(
    alloc: Global,
    streams: &[Stream],
) -> Result<Vec<Vec<Planes>>, AllocError>
    ensures { IfOk result (λ stations. HoldEach streams.now stations.items) }
{
    let mut stations = Vec::new(alloc);
    for station in 0..streams.len().min(1 << 32) {
        stations.push(chans_of_stream(alloc, &streams[station])?)?;
    }
    Ok(stations)
}
