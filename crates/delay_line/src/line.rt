ghost use Rattle.std.specs.Prelude.{◌≡◌, ◌^◌, ◌<◌, pos, ◌*ℤ◌, unsigned_abs};
ghost use Rattle.std.specs.Int.{int_div_euclid};

use crate::interval::{Interval, whole_interval};
use crate::reach::{first_past, first_reaching, gap, rise};

// A rise times `past` / `knot`, rounded down.
fn part(rise: i64, past: u32, knot: u32) -> i128
    requires { past < knot }
    ensures { result ≡ int_div_euclid (rise *ℤ pos past) (pos knot) }
{
    (i128::from(rise) * i128::from(past)).div_euclid(i128::from(knot))
}

/// The delays between two knots, in units of 2^-32 sample: `first` at the one and `next` at the other, `knot` samples on.
#[derive(Clone, Copy, Debug, PartialEq, Eq)]
pub struct Line {
    pub first: i64,
    pub next: i64,
    pub knot: u32,
    ghost some: { 0 < knot },
    ghost bound_first: { unsigned_abs first < 2 ^ 59 },
    ghost bound_next: { unsigned_abs next < 2 ^ 59 },
}

impl Line {
    ghost use Rattle.std.specs.Prelude.{◌≡◌, ◌^◌, ◌≤◌, ◌<◌, unsigned_abs};
    ghost use Rattle.corr_model.specs.Delay.{between, nearest};
    ghost use Rattle.delay_line.specs.{Interval.{IsIn}, Stretch.{IsExit, IsStretch}};

    /// The delay `past` samples behind the first knot.
    pub fn delay(&self, past: u32) -> i64
        requires { past < self.now.knot }
        ensures value { result ≡ between self.now.first self.now.next past self.now.knot }
        ensures bound { unsigned_abs result < 2 ^ 59 }
    {
        self.first + part(self.next - self.first, past, self.knot) as i64
    }

    // The first sample behind `from`, or else `to`, whose delay is not among these.
    fn leaves(&self, from: u32, to: u32, delays: Interval) -> u32
        requires order { from < to }
        requires within { to ≤ self.now.knot }
        requires least { unsigned_abs delays.least < 2 ^ 90 }
        requires end { unsigned_abs delays.end < 2 ^ 90 }
        requires begins { IsIn delays.least delays.end (between self.now.first self.now.next from self.now.knot) }
        ensures { IsExit (λ n. IsIn delays.least delays.end (between self.now.first self.now.next n self.now.knot)) from to result }
    {
        let first = i128::from(self.first);
        if self.first < self.next {
            let rise = rise(self.first, self.next);
            first_reaching(rise, gap(first, delays.end), self.knot, to)
        } else if self.next < self.first {
            let fall = rise(self.next, self.first);
            first_past(fall, gap(delays.least, first), self.knot, to)
        } else {
            to
        }
    }

    /// The samples from `from` on, up to the one that is answered and at most up to `to`, have one whole delay; it is
    /// another there.
    pub fn whole_end(&self, from: u32, to: u32) -> u32
        requires order { from < to }
        requires within { to ≤ self.now.knot }
        ensures { IsStretch (λ n. nearest (between self.now.first self.now.next n self.now.knot)) from to result }
    {
        self.leaves(from, to, whole_interval(self.delay(from)))
    }
}
