//! What the workers of an epoch read, and what a worker does.
ghost use Rattle.std.specs.Prelude.{◌≡◌, ◌<◌, ◌≤◌, ◌+◌, ◌-◌, ◌*◌, [], true, Some, None, length, slice_get, IfOk};
ghost use Rattle.std.specs.List.{All};
ghost use Rattle.piece_claim.specs.{State.{new_seat}, Moves.{CanDraw}};
ghost use Rattle.atomic_sums.specs.Seats.{seat_of};
ghost use Rattle.lag_kernel.specs.Planes.{plane_pair, plane_samples};
ghost use Rattle.piece_plan.specs.Pieces.{per_group, pieces_of};
ghost use Rattle.delay_track.specs.Track.{model_of};
ghost use Rattle.corr_model.proofs.CellLemmas.{IsGrown};
ghost use Rattle.epoch_run.specs.{Sums.{IsSummed, pieces_in_epoch}, Binned.{bin_by, bin_cells, bins_of, stretch_of}};
ghost use Rattle.epoch_run.specs.{Amounts.{IsBoardOf, HaveAmounts, amounts_of, cells_of, cells_over, cut_of, work_cells}, Levelled.{AllLevelled}, Part.{IsPart}};

use crate::amounts::write_amounts;
use crate::phase::{Phase, bin_lags};
use crate::planes::EpochPlanes;
use atomic_sums::{BoardSeat, EpochSums, SumBoard};
use bit_planes::Planes;
use corr_model::{Cell, Pair};
use delay_track::Track;
use dev_traits::Gate;
use lag_kernel::plane_lags;
use piece_plan::{EpochPlan, Piece, PiecePlan};
use std::alloc::{AllocError, Global};
use std::marker::Model;

/// What the workers of an epoch read: the planes of its stations' channels, the pair of each group in the order of the groups'
/// numbers, the scan's length in samples, the epoch, the most samples in a piece, and the phase by whose bins the sums are sorted.
#[derive(Drop)]
pub struct Work<'a> {
    planes: &'a EpochPlanes,
    pairs: &'a [Pair],
    samples: u64,
    epoch: &'a EpochPlan,
    piece: u64,
    phase: Option<Phase<'a>>,
}

impl<'a> Model for Work<'a> {
    ghost use Rattle.epoch_run.specs.{Amounts.{WorkFields}, Binned.{phase_of}, Levelled.{IsWork}};

    ghost Value = { WorkFields };

    ghost view = { λ w. record {
      planes = w.planes.now;
      pairs = w.pairs.now;
      samples = w.samples;
      epoch = w.epoch.now;
      piece = w.piece;
      phase = phase_of w.phase;
    } };

    ghost invariant = { λ w. IsWork (record {
      planes = w.planes.now;
      pairs = w.pairs.now;
      samples = w.samples;
      epoch = w.epoch.now;
      piece = w.piece;
      phase = phase_of w.phase;
    }) };
}

impl<'a> Work<'a> {
    /// What the workers of an epoch read. In a pair `a` and `b` are places among the stations of `planes`, and `x` and `y` are
    /// channels of these.
    pub fn new(
        planes: &'a EpochPlanes,
        pairs: &'a [Pair],
        samples: u64,
        plan: &'a EpochPlan,
        piece: u64,
    ) -> Work<'a>
        requires { IsSummed pairs.now samples plan.now piece }
        ensures { result ≡ record {
          planes = planes.now;
          pairs = pairs.now;
          samples = samples;
          epoch = plan.now;
          piece = piece;
          phase = None;
        } }
    {
        planes.is_levelled();
        Work {
            planes,
            pairs,
            samples,
            epoch: plan,
            piece,
            phase: None,
        }
    }

    /// The same, where the sums are sorted by the phase of a pulse into `count` bins, 2 to 64. The track has the phase's entries in
    /// place of a station's polynomials, and no clock.
    pub fn by_bins(
        planes: &'a EpochPlanes,
        pairs: &'a [Pair],
        samples: u64,
        plan: &'a EpochPlan,
        piece: u64,
        track: &Track<'a>,
        count: u32,
    ) -> Work<'a>
        requires epoch { IsSummed pairs.now samples plan.now piece }
        requires some { 2 ≤ count }
        requires few { count ≤ 64 }
        requires track { track.now.samples ≡ samples }
        requires room { plan.now.products * plan.now.baselines * plan.now.lags * count ≤ 4194304 }
        ensures { result ≡ record {
          planes = planes.now;
          pairs = pairs.now;
          samples = samples;
          epoch = plan.now;
          piece = piece;
          phase = Some (record { model = model_of track.now; samples = samples; count = count });
        } }
    {
        planes.is_levelled();
        let phase = Phase {
            track: *track,
            count,
        };
        Work {
            planes,
            pairs,
            samples,
            epoch: plan,
            piece,
            phase: Some(phase),
        }
    }

    // How many bins there are.
    fn bins(&self) -> u32
        ensures value { result ≡ bins_of self.now.phase }
        ensures some { 1 ≤ result }
        ensures few { result ≤ 64 }
    {
        match &self.phase {
            None => 1,
            Some(phase) => phase.count,
        }
    }

    /// How many cells a group has.
    pub(crate) fn cells(&self) -> usize
        ensures value { result ≡ cells_of self.now }
        ensures some { 1 ≤ result }
        ensures few { result ≤ 65536 }
    {
        self.bins() as usize * self.epoch.lags as usize
    }

    /// How many cells a run of one bin is summed in before they are added to those of its bin.
    pub(crate) fn stretch(&self) -> usize
        ensures value { result ≡ stretch_of self.now.phase self.now.epoch.lags }
        ensures few { result ≤ 1024 }
    {
        match &self.phase {
            None => 0,
            Some(_) => self.epoch.lags as usize,
        }
    }

    /// The epoch's board, and its first seat, which has all shares, 1 to 64.
    pub fn board(&self, alloc: Global, shares: u64) -> Result<(SumBoard, BoardSeat), AllocError>
        requires { (0 < shares) × (shares ≤ 64) }
        ensures board { IfOk result (λ made. IsBoardOf self.now made.0.sizes × (made.0.sizes.shares ≡ shares)) }
        ensures seat { IfOk result (λ made. made.1 ≡ seat_of made.0 (new_seat shares) None) }
    {
        let pieces = PiecePlan::new(self.epoch, self.piece);
        SumBoard::new(
            alloc,
            u64::from(self.epoch.products) * u64::from(self.epoch.baselines),
            pieces.per_group(),
            3 * self.cells() as u64,
            900 * self.piece,
            shares,
        )
    }

    // Piece `n`.
    fn piece_at(&self, n: u64) -> Piece
        requires { n < self.now.epoch.products * self.now.epoch.baselines * per_group (cut_of self.now) }
        ensures at { slice_get (pieces_of (cut_of self.now)) n ≡ Some result }
        ensures part { IsPart self.now result }
        ensures group { result.product * self.now.epoch.baselines + result.baseline < length self.now.pairs }
    {
        PiecePlan::new(self.epoch, self.piece).piece(n)
    }

    // The pair of a piece's group.
    fn pair_of(&self, piece: &Piece) -> Pair
        requires { piece.now.product * self.now.epoch.baselines + piece.now.baseline < length self.now.pairs }
        ensures { slice_get self.now.pairs (piece.now.product * self.now.epoch.baselines + piece.now.baseline) ≡ Some result }
    {
        let first = u64::from(piece.product) * u64::from(self.epoch.baselines);
        self.pairs[(first + u64::from(piece.baseline)) as usize]
    }

    // Sets `cells` to those of the planes of two channels over the samples of a piece.
    fn sum_channels(
        &self,
        piece: &Piece,
        a: &Planes,
        b: &Planes,
        stretch: &mut [Cell],
        cells: &mut [Cell],
    )
        requires part { IsPart self.now piece.now }
        requires levelled { AllLevelled (plane_samples a.now b.now) }
        requires stretch { length stretch.old ≡ stretch_of self.now.phase self.now.epoch.lags }
        requires cells { length cells.old ≡ cells_of self.now }
        ensures { cells.new ≡ bin_cells (bin_by self.now.phase) (bins_of self.now.phase) (plane_samples a.now b.now)
            self.now.samples self.now.epoch.lags piece.now.from piece.now.to plane_pair }
    {
        match &self.phase {
            None => plane_lags(a, b, piece.from, piece.to, self.samples, cells),
            Some(phase) => bin_lags(phase, a, b, piece.from, piece.to, stretch, cells),
        }
    }

    // Sets `cells` to those of a pair over the samples of a piece.
    fn sum_piece(&self, piece: &Piece, pair: &Pair, stretch: &mut [Cell], cells: &mut [Cell])
        requires part { IsPart self.now piece.now }
        requires stretch { length stretch.old ≡ stretch_of self.now.phase self.now.epoch.lags }
        requires cells { length cells.old ≡ cells_of self.now }
        ensures cells { cells.new ≡ cells_over self.now piece.now.from piece.now.to pair.now }
        ensures few { length cells.new ≤ 65536 }
        ensures within { All (λ c. IsGrown c (piece.now.to - piece.now.from)) cells.new }
    {
        let first = self.planes.channel(pair.a, pair.x);
        let second = self.planes.channel(pair.b, pair.y);
        self.sum_channels(piece, first, second, stretch, cells);
    }

    // Sets `amounts` to those of piece `n`, from its cells, which are left in `cells`.
    fn amounts(&self, n: u64, stretch: &mut [Cell], cells: &mut [Cell], amounts: &mut [u64])
        requires piece { n < self.now.epoch.products * self.now.epoch.baselines * per_group (cut_of self.now) }
        requires stretch { length stretch.old ≡ stretch_of self.now.phase self.now.epoch.lags }
        requires cells { length cells.old ≡ cells_of self.now }
        requires room { length amounts.old ≡ 3 * cells_of self.now }
        ensures amounts { amounts.new ≡ amounts_of self.now n }
        ensures within { All (λ a. a ≤ 900 * self.now.piece) amounts.new }
    {
        let piece = self.piece_at(n);
        let pair = self.pair_of(&piece);
        self.sum_piece(&piece, &pair, stretch, cells);
        write_amounts(cells, piece.to - piece.from, amounts);
    }

    /// The epoch's sums, from its board and the one seat in which all pieces are finished.
    pub(crate) fn sums(
        &self,
        alloc: Global,
        board: SumBoard,
        seat: BoardSeat,
    ) -> Result<EpochSums, AllocError>
        requires board { IsBoardOf self.now board.sizes }
        requires of { seat.board ≡ board }
        requires over { seat.state.done ≡ true }
        requires shares { seat.state.shares ≡ board.sizes.shares }
        requires amounts { HaveAmounts self.now seat.state.finished }
        ensures cells { IfOk result (λ sums. sums.cells ≡ work_cells self.now) }
        ensures pieces { IfOk result (λ sums. sums.pieces ≡ pieces_in_epoch self.now.epoch self.now.piece) }
    {
        let bias = 450 * (self.epoch.to - self.epoch.from);
        let totals = board.close(alloc, seat)?;
        Ok(totals.unbias(bias))
    }
}

/// Draws pieces and posts their cells until no piece is left. Before each piece it passes the gate as worker `worker`. `cells`
/// has a place for each bin and lag, and `amounts` three; `stretch` has a place for each lag where the work has bins. It takes no
/// memory.
pub fn work_pieces<G: Gate>(
    work: &Work<'_>,
    board: &SumBoard,
    seat: &mut BoardSeat,
    worker: u32,
    stretch: &mut [Cell],
    cells: &mut [Cell],
    amounts: &mut [u64],
    gate: &G,
)
    requires board { IsBoardOf work.now board.now.sizes }
    requires of { seat.old.board ≡ board.now }
    requires idle { CanDraw seat.old.state }
    requires fresh { seat.old.state.finished ≡ [] }
    requires stretch { length stretch.old ≡ stretch_of work.now.phase work.now.epoch.lags }
    requires cells { length cells.old ≡ cells_of work.now }
    requires amounts { length amounts.old ≡ 3 * cells_of work.now }
    ensures of { seat.new.board ≡ board.now }
    ensures over { seat.new.state.done ≡ true }
    ensures shares { seat.new.state.shares ≡ seat.old.state.shares }
    ensures amounts { HaveAmounts work.now seat.new.state.finished }
{
    while let Some(n) = board.draw(seat) {
        gate.piece(worker, n);
        work.amounts(n, stretch, cells, amounts);
        board.post(seat, amounts);
    }
}
