//! Runs of one whole delay.
ghost use Rattle.std.specs.Prelude.{◌≡◌, ◌≤◌, ◌<◌, ◌-◌};
ghost use Rattle.delay_track.specs.{Track.{model_of}, Piece.{IsPiece}, Runs.{IsNextRun}};

use crate::Track;
use crate::piece::Piece;
use std::marker::Model;

/// The samples from `from` up to, not including, `to`, all of which have the delay of so many whole samples.
#[derive(Clone, Copy, Debug, PartialEq, Eq)]
pub struct Run {
    pub from: u64,
    pub to: u64,
    pub whole: i64,
}

/// The longest runs of one whole delay, in order, through the samples that are left.
#[derive(Drop)]
pub struct Runs<'a> {
    track: Track<'a>,
    at: u64,
    to: u64,
    piece: Piece,
    ghost order: { at ≤ to },
    ghost inside: { to ≤ track.samples },
    ghost within: { piece.to ≤ to },
    ghost line: { IsPiece (model_of track) piece },
}

impl<'a> Model for Runs<'a> {
    ghost use Rattle.delay_track.specs.{Track.{model_of}, Runs.{RunsFields}};

    ghost Value = { RunsFields };

    ghost view = { λ r. record { model = model_of r.track; at = r.at; to = r.to } };
}

impl<'a> Runs<'a> {
    /// Those of the samples from `from` up to, not including, `to`.
    pub(crate) fn new(track: &Track<'a>, from: u64, to: u64) -> Runs<'a>
        requires order { from ≤ to }
        requires inside { to ≤ track.now.samples }
        ensures { result ≡ record { model = model_of track.now; at = from; to = to } }
    {
        Runs {
            track: *track,
            at: from,
            to,
            piece: Piece::none(),
        }
    }
}

impl Iterator for Runs<'_> {
    ghost use Rattle.std.specs.Iterator.{at_most};

    type Item = Run;

    ghost next_gives = { λ s run t. IsNextRun s run t };

    ghost remaining = { λ s. at_most (s.to - s.at) };

    fn next(&mut self) -> Option<Run> {
        if self.at == self.to {
            return None;
        }
        let (run, piece) = self.track.run_from(self.piece, self.at, self.to);
        self.piece = piece;
        self.at = run.to;
        Some(run)
    }
}
