//! Runs of one bin.
ghost use Rattle.std.specs.Prelude.{◌≡◌, ℕ, ◌≤◌, ◌<◌, ◌-◌};
ghost use Rattle.delay_track.specs.{Piece.{IsPiece}, Track.{model_of}};
ghost use Rattle.pulsar_bins.specs.{Bin.{bin_at}, Runs.{IsBinRun, IsNextBinRun}};

use crate::edge;
use crate::phase::bin_of;
use delay_track::{Piece, Track};
use std::marker::Model;

/// The samples from `from` up to, not including, `to`, all of which are of one bin, counted from 0.
#[derive(Clone, Copy, Debug, PartialEq, Eq)]
pub struct BinRun {
    pub from: u64,
    pub to: u64,
    pub bin: u32,
}

/// The longest runs of one bin, in order, through the samples that are left.
#[derive(Drop)]
pub struct BinRuns<'a> {
    track: Track<'a>,
    count: u32,
    at: u64,
    to: u64,
    piece: Piece,
    ghost some: { 2 ≤ count },
    ghost few: { count ≤ 64 },
    ghost order: { at ≤ to },
    ghost inside: { to ≤ track.samples },
    ghost within: { piece.to ≤ to },
    ghost line: { IsPiece (model_of track) piece },
}

impl<'a> Model for BinRuns<'a> {
    ghost use Rattle.delay_track.specs.Track.{model_of};
    ghost use Rattle.pulsar_bins.specs.Runs.{BinRunsFields};

    ghost Value = { BinRunsFields };

    ghost view = { λ r. record { model = model_of r.track; count = r.count; at = r.at; to = r.to } };
}

// The bin of sample `n` of a piece.
fn bin_on(track: &Track<'_>, count: u32, piece: &Piece, n: u64) -> u32
    requires some { 2 ≤ count }
    requires few { count ≤ 64 }
    requires begun { piece.now.from ≤ n }
    requires before { n < piece.now.to }
    requires line { IsPiece (model_of track.now) piece.now }
    ensures { result ≡ bin_at count (model_of track.now) n }
{
    bin_of(piece.delay(n), count)
}

// Up to which sample of a piece the bin is that of sample `n`; it may be the same behind that.
fn bin_end(track: &Track<'_>, count: u32, piece: &Piece, n: u64) -> u64
    requires some { 2 ≤ count }
    requires begun { piece.now.from ≤ n }
    requires before { n < piece.now.to }
    requires line { IsPiece (model_of track.now) piece.now }
    ensures after { n < result }
    ensures within { result ≤ piece.now.to }
    ensures same { (i : ℕ) → n ≤ i → i < result → bin_at count (model_of track.now) i ≡ bin_at count (model_of track.now) n }
{
    let past = piece.past(n);
    n + u64::from(edge::bin_end(&piece.line, count, past, piece.past(piece.to)) - past)
}

// The run of sample `from`, before `to`, and the piece at its end. A run goes on from one piece to the next, and from one turn
// to another that is met in the same bin.
fn run_from(track: &Track<'_>, count: u32, piece: Piece, from: u64, to: u64) -> (BinRun, Piece)
    requires some { 2 ≤ count }
    requires few { count ≤ 64 }
    requires order { from < to }
    requires inside { to ≤ track.now.samples }
    requires within { piece.to ≤ to }
    requires line { IsPiece (model_of track.now) piece }
    ensures run { IsBinRun (model_of track.now) count from to result.0 }
    ensures within { result.1.to ≤ to }
    ensures line { IsPiece (model_of track.now) result.1 }
{
    let mut piece = track.piece_with(piece, from, to);
    let bin = bin_on(track, count, &piece, from);
    let mut end = bin_end(track, count, &piece, from);
    while end < to {
        piece = track.piece_with(piece, end, to);
        if bin_on(track, count, &piece, end) != bin {
            return (BinRun { from, to: end, bin }, piece);
        }
        end = bin_end(track, count, &piece, end);
    }
    (BinRun { from, to, bin }, piece)
}

/// The longest runs of one bin, in order, through the samples from `from` up to, not including, `to`, where a turn of the pulse
/// has `count` bins. The track has the phase's entries in place of a station's polynomials, and no clock: one would be
/// added to the phase. The end of a run is found by division, with no walk over the samples.
pub fn bin_runs<'a>(track: &Track<'a>, count: u32, from: u64, to: u64) -> BinRuns<'a>
    requires some { 2 ≤ count }
    requires few { count ≤ 64 }
    requires order { from ≤ to }
    requires inside { to ≤ track.now.samples }
    ensures { result ≡ record { model = model_of track.now; count = count; at = from; to = to } }
{
    BinRuns {
        track: *track,
        count,
        at: from,
        to,
        piece: Piece::none(),
    }
}

impl Iterator for BinRuns<'_> {
    ghost use Rattle.std.specs.Iterator.{at_most};

    type Item = BinRun;

    ghost next_gives = { λ s run t. IsNextBinRun s run t };

    ghost remaining = { λ s. at_most (s.to - s.at) };

    fn next(&mut self) -> Option<BinRun> {
        if self.at == self.to {
            return None;
        }
        let (run, piece) = run_from(&self.track, self.count, self.piece, self.at, self.to);
        self.piece = piece;
        self.at = run.to;
        Some(run)
    }
}
