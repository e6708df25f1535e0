//! The bin of a sample.
ghost use Rattle.std.specs.Prelude.{◌≡◌, ◌≤◌, ◌<◌};
ghost use Rattle.delay_track.specs.Track.{model_of};
ghost use Rattle.pulsar_bins.specs.Bin.{bin_of, bin_at};

use delay_track::Track;

// The units of a turn.
const TURN: u64 = 1 << 32;

// The bin of a phase, in units of 2^-32 turn.
#[tactic(auto, unfolding(crate::specs::Bin::bin_of))]
pub(crate) fn bin_of(phase: i64, count: u32) -> u32
    requires some { 2 ≤ count }
    requires few { count ≤ 64 }
    ensures value { result ≡ bin_of count phase }
    ensures within { result < count }
{
    let past = phase.rem_euclid(1 << 32) as u64;
    (u64::from(count) * past / TURN) as u32
}

/// The bin, counted from 0, of sample `n` of a scan, where a turn of the pulse has `count` bins. The track has the phase's
/// entries in place of a station's polynomials, and no clock: one would be added to the phase.
pub fn bin(track: &Track<'_>, count: u32, n: u64) -> u32
    requires inside { n < track.now.samples }
    requires some { 2 ≤ count }
    requires few { count ≤ 64 }
    ensures value { result ≡ bin_at count (model_of track.now) n }
    ensures within { result < count }
{
    bin_of(track.delay(n), count)
}
