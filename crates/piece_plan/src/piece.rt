//! The pieces of an epoch.
ghost use Rattle.std.specs.Prelude.{◌≡◌, ◌+◌, ◌*◌, ◌/◌, ◌<◌, length, slice_get, Some};

use crate::EpochPlan;
use std::marker::Model;

/// The samples from `from` up to, not including, `to`, of one product and one baseline, by their numbers
/// in the scan.
#[derive(Clone, Copy, Debug, PartialEq, Eq)]
pub struct Piece {
    pub product: u32,
    pub baseline: u32,
    pub from: u64,
    pub to: u64,
}

/// The pieces of an epoch: a group for each product and baseline, with the number
/// `product * baselines + baseline`, and each group cut in order.
#[derive(Clone, Copy)]
pub struct PiecePlan {
    epoch: EpochPlan,
    piece: u64,
}

impl Model for PiecePlan {
    ghost use Rattle.piece_plan.specs.Pieces.{PieceSizes, IsCut};

    ghost Value = { PieceSizes };

    ghost view = { λ p. record { epoch = p.epoch; piece = p.piece } };

    ghost invariant = { λ p. IsCut (record { epoch = p.epoch; piece = p.piece }) };

    ghost inverse = { λ s. record { epoch = s.epoch; piece = s.piece } };
}

impl PiecePlan {
    ghost use Rattle.piece_plan.specs.{Parts.{GoThrough, parts}, Epochs.{IsOfPlan}, Pieces.{IsCut, pieces_of, group_count, per_group}};

    /// The pieces of an epoch, of at most `piece` samples each.
    pub fn new(e: &EpochPlan, piece: u64) -> PiecePlan
        requires epoch { IsOfPlan e.now }
        requires some { 0 < piece }
        ensures sizes { result ≡ record { epoch = e.now; piece = piece } }
        ensures partition { GoThrough e.now.from e.now.to (parts e.now.from e.now.to piece) }
    {
        PiecePlan { epoch: *e, piece }
    }

    /// The number of pieces in a group.
    pub fn per_group(&self) -> u64
        ensures count { result ≡ per_group self.now }
        ensures some { 0 < result }
    {
        (self.epoch.to - self.epoch.from).div_ceil(self.piece)
    }

    /// The number of pieces: those of a group for each group.
    pub fn count(&self) -> u64
        ensures many { result ≡ length (pieces_of self.now) }
        ensures groups { result ≡ group_count self.now * per_group self.now }
    {
        u64::from(self.epoch.products) * u64::from(self.epoch.baselines) * self.per_group()
    }

    /// Piece `n`, counted from 0 through all groups: it belongs to group `n / per_group`.
    pub fn piece(&self, n: u64) -> Piece
        requires { n < length (pieces_of self.now) }
        ensures at { slice_get (pieces_of self.now) n ≡ Some result }
        ensures group { result.product * self.now.epoch.baselines + result.baseline ≡ n / per_group self.now }
    {
        let per_group = self.per_group();
        let group = n / per_group;
        let baselines = u64::from(self.epoch.baselines);
        let from = self.epoch.from + n % per_group * self.piece;
        Piece {
            product: (group / baselines) as u32,
            baseline: (group % baselines) as u32,
            from,
            to: from + self.piece.min(self.epoch.to - from),
        }
    }
}
