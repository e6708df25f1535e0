ghost use Rattle.std.specs.Prelude.{◌≡◌, true};
ghost use Rattle.corr_model.specs.Delay.{IsDelayModel, has_model, has_clock};
ghost use Rattle.delay_track.specs.Model.{delay_model};

use crate::piece::Piece;
use crate::{Run, Runs, StationModel, nearest};
use delay_poly::PolyList;
use station_clock::ClockList;

/// The delay of a station through a scan all of whose samples have a model and a clock. The scan starts
/// at `second`, counted from 1970-01-01 00:00; `rate` is the samples in a second, `knot` the samples from
/// one knot to the next, `samples` those of the scan.
#[derive(Clone, Copy)]
pub struct Track<'a> {
    pub polys: &'a PolyList,
    pub clocks: &'a ClockList,
    pub second: i64,
    pub rate: u32,
    pub knot: u32,
    pub samples: u64,
    ghost is_model: { IsDelayModel (delay_model polys.now clocks.now second rate knot) samples },
    ghost modelled: { has_model (delay_model polys.now clocks.now second rate knot) samples ≡ true },
    ghost clocked: { has_clock (delay_model polys.now clocks.now second rate knot) samples ≡ true },
}

impl<'a> Track<'a> {
    ghost use Rattle.std.specs.Prelude.{◌≡◌, ℕ, ◌^◌, ◌≤◌, ◌<◌, unsigned_abs};
    ghost use Rattle.corr_model.specs.Delay.{delay_at, whole_at};
    ghost use Rattle.delay_track.specs.{StationModel.{delay_model_of}, Track.{model_of}, Piece.{IsPiece}, Runs.{IsRun}};

    // What the track's delays depend on.
    fn model(&self) -> StationModel<'a>
        ensures same { delay_model_of result ≡ model_of self.now }
        ensures samples { result.samples ≡ self.now.samples }
    {
        StationModel {
            polys: self.polys,
            clocks: self.clocks,
            second: self.second,
            rate: self.rate,
            knot: self.knot,
            samples: self.samples,
        }
    }

    /// The delay at sample `n` of the scan, in units of 2^-32 sample.
    pub fn delay(&self, n: u64) -> i64
        requires { n < self.now.samples }
        ensures value { result ≡ delay_at (model_of self.now) n }
        ensures bound { unsigned_abs result < 2 ^ 60 }
    {
        self.model().delay(n)
    }

    /// The whole samples of the delay at sample `n` of the scan.
    pub fn whole(&self, n: u64) -> i64
        requires { n < self.now.samples }
        ensures value { result ≡ whole_at (model_of self.now) n }
        ensures bound { unsigned_abs result ≤ 2 ^ 28 }
    {
        nearest(self.delay(n))
    }

    /// The longest runs of one whole delay, in order, through the samples from `from` up to, not including, `to`.
    pub fn runs(&self, from: u64, to: u64) -> Runs<'a>
        requires order { from ≤ to }
        requires inside { to ≤ self.now.samples }
        ensures { result ≡ record { model = model_of self.now; at = from; to = to } }
    {
        Runs::new(self, from, to)
    }

    /// The piece that has sample `n`, before `to`: this one, or else the one that begins there. It ends at a knot, or where the
    /// next polynomial begins.
    pub fn piece_with(&self, piece: Piece, n: u64, to: u64) -> Piece
        requires order { n < to }
        requires inside { to ≤ self.now.samples }
        requires within { piece.to ≤ to }
        requires line { IsPiece (model_of self.now) piece }
        ensures begun { result.from ≤ n }
        ensures before { n < result.to }
        ensures within { result.to ≤ to }
        ensures line { IsPiece (model_of self.now) result }
    {
        if piece.has(n) {
            piece
        } else {
            self.model().piece(n, to)
        }
    }

    // The whole samples of the delay at sample `n` of a piece.
    fn whole_on(&self, piece: &Piece, n: u64) -> i64
        requires begun { piece.now.from ≤ n }
        requires before { n < piece.now.to }
        requires line { IsPiece (model_of self.now) piece.now }
        ensures value { result ≡ whole_at (model_of self.now) n }
        ensures bound { unsigned_abs result ≤ 2 ^ 28 }
    {
        nearest(piece.delay(n))
    }

    // Up to which sample of a piece the whole delay is that of sample `n`.
    fn whole_end(&self, piece: &Piece, n: u64) -> u64
        requires begun { piece.now.from ≤ n }
        requires before { n < piece.now.to }
        requires line { IsPiece (model_of self.now) piece.now }
        ensures after { n < result }
        ensures within { result ≤ piece.now.to }
        ensures same { (i : ℕ) → n ≤ i → i < result → whole_at (model_of self.now) i ≡ whole_at (model_of self.now) n }
    {
        piece.whole_end(n)
    }

    // The run of sample `from`, before `to`, and the piece at its end. A run goes on from one piece to the next.
    pub(crate) fn run_from(&self, piece: Piece, from: u64, to: u64) -> (Run, Piece)
        requires order { from < to }
        requires inside { to ≤ self.now.samples }
        requires within { piece.to ≤ to }
        requires line { IsPiece (model_of self.now) piece }
        ensures run { IsRun (model_of self.now) from to result.0 }
        ensures within { result.1.to ≤ to }
        ensures line { IsPiece (model_of self.now) result.1 }
    {
        let mut piece = self.piece_with(piece, from, to);
        let whole = self.whole_on(&piece, from);
        let mut end = self.whole_end(&piece, from);
        while end < to {
            piece = self.piece_with(piece, end, to);
            if self.whole_on(&piece, end) != whole {
                return (
                    Run {
                        from,
                        to: end,
                        whole,
                    },
                    piece,
                );
            }
            end = self.whole_end(&piece, end);
        }
        (Run { from, to, whole }, piece)
    }
}
