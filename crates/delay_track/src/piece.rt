//! Pieces of a scan, in each of which the delay lies on one line.
ghost use Rattle.std.specs.Prelude.{◌≤◌, ◌+◌, ◌-◌};

use delay_line::Line;

/// The samples from `from` up to, not including, `to`, the first of them `past` samples behind the first knot of a line.
#[derive(Clone, Copy)]
pub struct Piece {
    pub from: u64,
    pub to: u64,
    pub past: u32,
    pub line: Line,
    ghost order: { from ≤ to },
    ghost within: { past + (to - from) ≤ line.knot },
}

impl Piece {
    ghost use Rattle.std.specs.Prelude.{◌≡◌, ◌^◌, ◌<◌, ◌≤◌, ◌+◌, ◌-◌, ◌↔◌, IsTrue, unsigned_abs};
    ghost use Rattle.corr_model.specs.Delay.{nearest};
    ghost use Rattle.delay_line.specs.Stretch.{IsStretch};
    ghost use Rattle.delay_track.specs.Piece.{delay_on};

    /// A piece without samples.
    pub fn none() -> Piece
        ensures { result.to ≡ 0 }
    {
        Piece {
            from: 0,
            to: 0,
            past: 0,
            line: Line {
                first: 0,
                next: 0,
                knot: 1,
            },
        }
    }

    /// Whether sample `n` is one of the piece.
    pub fn has(&self, n: u64) -> bool
        ensures { IsTrue result ↔ ((self.now.from ≤ n) × (n < self.now.to)) }
    {
        self.from <= n && n < self.to
    }

    /// How far sample `n` is behind the first knot of the line.
    pub fn past(&self, n: u64) -> u32
        requires begun { self.now.from ≤ n }
        requires within { n ≤ self.now.to }
        ensures { result ≡ self.now.past + (n - self.now.from) }
    {
        self.past + (n - self.from) as u32
    }

    /// The delay at sample `n`.
    pub fn delay(&self, n: u64) -> i64
        requires begun { self.now.from ≤ n }
        requires within { n < self.now.to }
        ensures value { result ≡ delay_on self.now n }
        ensures bound { unsigned_abs result < 2 ^ 59 }
    {
        self.line.delay(self.past(n))
    }

    // The end of the longest stretch of one whole delay from sample `n` on, and in the piece.
    pub(crate) fn whole_end(&self, n: u64) -> u64
        requires begun { self.now.from ≤ n }
        requires within { n < self.now.to }
        ensures { IsStretch (λ i. nearest (delay_on self.now i)) n self.now.to result }
    {
        let past = self.past(n);
        n + u64::from(self.line.whole_end(past, self.past(self.to)) - past)
    }
}
