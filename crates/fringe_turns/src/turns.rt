//! Turns of one direction.
ghost use Rattle.std.specs.Prelude.{◌≡◌, ◌≤◌, ◌<◌, ◌-◌, ◌^◌};
ghost use Rattle.delay_track.specs.{Track.{model_of}, Piece.{IsPiece}};
ghost use Rattle.fringe_turns.specs.Turns.{IsNextTurn};

use crate::fringe::Fringe;
use delay_track::{Piece, Track};
use std::marker::Model;

/// The samples from `from` up to, not including, `to`, all of which are turned by the direction, an eighth of a turn, 0 to 7.
#[derive(Clone, Copy, Debug, PartialEq, Eq)]
pub struct Turn {
    pub from: u64,
    pub to: u64,
    pub direction: u8,
}

/// Stretches of one direction, in order, through the samples that are left. The band's edge is at `hertz`, and it goes up
/// from there or down.
#[derive(Drop)]
pub struct Turns<'a> {
    track: Track<'a>,
    fringe: Fringe,
    at: u64,
    to: u64,
    piece: Piece,
    ghost order: { at ≤ to },
    ghost inside: { to ≤ track.samples },
    ghost within: { piece.to ≤ to },
    ghost line: { IsPiece (model_of track) piece },
    ghost rate: { fringe.rate ≡ track.rate },
}

impl<'a> Model for Turns<'a> {
    ghost use Rattle.delay_track.specs.Track.{model_of};
    ghost use Rattle.fringe_turns.specs.{Eighths.{band_of}, Turns.{TurnsFields}};

    ghost Value = { TurnsFields };

    ghost view = { λ r. record {
      model = model_of r.track;
      band = band_of r.fringe;
      at = r.at;
      to = r.to;
    } };
}

/// Stretches of one direction of a band, in order, through the samples of a track from `from` up to, not including, `to`. The
/// band's edge is at `hertz`, and it goes up from there or down. The direction may be the same behind a stretch.
pub fn turns_of<'a>(track: &Track<'a>, hertz: u64, upper: bool, from: u64, to: u64) -> Turns<'a>
    requires frequency { hertz < 2 ^ 40 }
    requires order { from ≤ to }
    requires inside { to ≤ track.now.samples }
    ensures { result ≡ record { model = model_of track.now; band = record { hertz = hertz; upper = upper }; at = from; to = to } }
{
    Turns {
        track: *track,
        fringe: Fringe {
            hertz,
            upper,
            rate: track.rate,
        },
        at: from,
        to,
        piece: Piece::none(),
    }
}

impl Fringe {
    ghost use Rattle.std.specs.Prelude.{◌≤◌, ◌<◌};
    ghost use Rattle.fringe_turns.specs.Turns.{IsTurnOn};

    // The stretch of one direction from sample `n` of a piece on.
    fn turn_on(&self, piece: &Piece, n: u64) -> Turn
        requires begun { piece.now.from ≤ n }
        requires before { n < piece.now.to }
        ensures { IsTurnOn self.now piece.now n result }
    {
        let past = piece.past(n);
        let turn = self.line_turn(&piece.line, past, piece.past(piece.to));
        Turn {
            from: n,
            to: n + u64::from(turn.end - past),
            direction: turn.direction,
        }
    }
}

impl Iterator for Turns<'_> {
    ghost use Rattle.std.specs.Iterator.{at_most};

    type Item = Turn;

    ghost next_gives = { λ s turn t. IsNextTurn s turn t };

    ghost remaining = { λ s. at_most (s.to - s.at) };

    fn next(&mut self) -> Option<Turn> {
        if self.at == self.to {
            return None;
        }
        self.piece = self.track.piece_with(self.piece, self.at, self.to);
        let turn = self.fringe.turn_on(&self.piece, self.at);
        self.at = turn.to;
        Some(turn)
    }
}
