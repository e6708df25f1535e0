ghost use Rattle.corr_model.specs.Delay.{IsDelayModel};
ghost use Rattle.delay_track.specs.Model.{delay_model};

use crate::Track;
use crate::line::{samples_in, samples_to};
use crate::piece::Piece;
use crate::polynomial::{poly_value, zero_poly};
use delay_line::Line;
use delay_poly::{PolyEntry, PolyList};
use station_clock::{ClockEntry, ClockList, clock_at};

/// What the delay of a station in a scan depends on: its polynomials and its clock entries, the second at
/// which the scan starts, counted from 1970-01-01 00:00, the samples in a second, the samples from one
/// knot to the next, and the samples of the scan.
#[derive(Clone, Copy)]
pub struct StationModel<'a> {
    pub polys: &'a PolyList,
    pub clocks: &'a ClockList,
    pub second: i64,
    pub rate: u32,
    pub knot: u32,
    pub samples: u64,
    ghost is_model: { IsDelayModel (delay_model polys.now clocks.now second rate knot) samples },
}

impl<'a> StationModel<'a> {
    ghost use Rattle.std.specs.Prelude.{◌≡◌, ℕ, ◌+◌, ◌*◌, ◌^◌, ◌≤◌, ◌<◌, ◌↔◌, ◌≤ℤ◌, ◌<ℤ◌, pos, ◌-ℤ◌, ◌*ℤ◌, unsigned_abs, true, Some, IsSome, IfSome};
    ghost use Rattle.num_time.specs.Times.{IsSecond};
    ghost use Rattle.corr_model.specs.Delay.{second_at, poly_at, samples_since, knot_before, past_knot, clock_of, clock_samples, clock_at_knot, knot_delay, delay_by, delay_at, is_modelled, has_model, has_clock};
    ghost use Rattle.delay_track.specs.{Model.{IsKnot}, StationModel.{delay_model_of}, Track.{model_of}, Piece.{IsPiece}};

    // The second in which sample `n` lies.
    fn second_at(&self, n: u64) -> i64
        requires { n < self.now.samples }
        ensures { result ≡ second_at (delay_model_of self.now) n }
    {
        self.second + (n / u64::from(self.rate)) as i64
    }

    // The sample at which a second begins, which is not before the scan's start.
    fn sample_at(&self, second: i64) -> u64
        requires second { IsSecond second }
        requires begun { self.now.second ≤ℤ second }
        ensures { result ≡ unsigned_abs (second -ℤ self.now.second) * self.now.rate }
    {
        (second - self.second) as u64 * u64::from(self.rate)
    }

    // The polynomial in force at sample `n`.
    fn poly_at(&self, n: u64) -> Option<PolyEntry>
        requires { n < self.now.samples }
        ensures { result ≡ poly_at (delay_model_of self.now) n }
    {
        if self.polys.is_empty() {
            Some(zero_poly(self.second))
        } else {
            self.polys.entry_for(self.second_at(n))
        }
    }

    // The samples from the polynomial's second to sample `n`, at which it is in force.
    fn samples_since(&self, e: &PolyEntry, n: u64) -> u64
        requires inside { n < self.now.samples }
        requires poly { poly_at (delay_model_of self.now) n ≡ Some e.now }
        ensures { result ≡ samples_since (delay_model_of self.now) e.now n }
    {
        (i128::from(n) - samples_in(e.second - self.second, self.rate)) as u64
    }

    // The clock entry in force at a polynomial's second.
    fn clock_for(&self, e: &PolyEntry) -> Option<ClockEntry>
        ensures { result ≡ clock_of (delay_model_of self.now) e.now }
    {
        self.clocks.entry_for(e.second)
    }

    // The samples from a clock entry's second to knot `j` of a polynomial.
    fn clock_samples(&self, e: &PolyEntry, c: &ClockEntry, j: u64) -> i128
        requires knot { IsKnot (delay_model_of self.now) e.now j }
        requires clock { clock_of (delay_model_of self.now) e.now ≡ Some c.now }
        ensures value { result ≡ clock_samples (delay_model_of self.now) e.now c.now j }
        ensures begun { pos 0 ≤ℤ result }
        ensures within { result <ℤ pos (2 ^ 32 * self.now.rate) }
    {
        samples_in(e.second - c.second, self.rate) + samples_to(j, self.knot)
    }

    // What the clock is ahead at knot `j` of a polynomial.
    fn clock_at_knot(&self, e: &PolyEntry, j: u64) -> i64
        requires { IsKnot (delay_model_of self.now) e.now j }
        ensures value { result ≡ clock_at_knot (delay_model_of self.now) e.now j }
        ensures bound { unsigned_abs result < 2 ^ 58 }
    {
        match self.clock_for(e) {
            None => 0,
            Some(c) => clock_at(&c, self.clock_samples(e, &c, j), self.rate),
        }
    }

    // Polynomial and clock at knot `j`.
    fn knot_delay(&self, e: &PolyEntry, j: u64) -> i64
        requires { IsKnot (delay_model_of self.now) e.now j }
        ensures value { result ≡ knot_delay (delay_model_of self.now) e.now j }
        ensures bound { unsigned_abs result < 2 ^ 59 }
    {
        poly_value(&e.poly, j) + self.clock_at_knot(e, j)
    }

    // The line between the two knots about sample `n`, at which the polynomial is in force.
    fn line_about(&self, e: &PolyEntry, n: u64) -> Line
        requires inside { n < self.now.samples }
        requires poly { poly_at (delay_model_of self.now) n ≡ Some e.now }
        requires modelled { is_modelled (delay_model_of self.now) n ≡ true }
        ensures first { result.first ≡ knot_delay (delay_model_of self.now) e.now (knot_before (delay_model_of self.now) e.now n) }
        ensures next { result.next ≡ knot_delay (delay_model_of self.now) e.now (knot_before (delay_model_of self.now) e.now n + 1) }
        ensures knot { result.knot ≡ self.now.knot }
    {
        let j = self.samples_since(e, n) / u64::from(self.knot);
        let first = self.knot_delay(e, j);
        let next = self.knot_delay(e, j + 1);
        Line {
            first,
            next,
            knot: self.knot,
        }
    }

    // How far sample `n`, at which the polynomial is in force, is behind the knot before it.
    fn past_knot(&self, e: &PolyEntry, n: u64) -> u32
        requires inside { n < self.now.samples }
        requires poly { poly_at (delay_model_of self.now) n ≡ Some e.now }
        ensures value { result ≡ past_knot (delay_model_of self.now) e.now n }
        ensures within { result < self.now.knot }
    {
        (self.samples_since(e, n) % u64::from(self.knot)) as u32
    }

    // The delay at sample `n`, at which the polynomial is in force.
    fn delay_by(&self, e: &PolyEntry, n: u64) -> i64
        requires inside { n < self.now.samples }
        requires poly { poly_at (delay_model_of self.now) n ≡ Some e.now }
        requires modelled { is_modelled (delay_model_of self.now) n ≡ true }
        ensures value { result ≡ delay_by (delay_model_of self.now) e.now n }
        ensures bound { unsigned_abs result < 2 ^ 59 }
    {
        self.line_about(e, n).delay(self.past_knot(e, n))
    }

    // Up to which sample, and at most up to `to`, the polynomial stays in force that is so at sample `n`.
    fn poly_end(&self, n: u64, to: u64) -> u64
        requires order { n < to }
        requires inside { to ≤ self.now.samples }
        requires modelled { is_modelled (delay_model_of self.now) n ≡ true }
        ensures after { n < result }
        ensures within { result ≤ to }
        ensures same { (i : ℕ) → n ≤ i → i < result → poly_at (delay_model_of self.now) i ≡ poly_at (delay_model_of self.now) n }
    {
        match self.polys.next_second(self.second_at(n)) {
            None => to,
            Some(next) => to.min(self.sample_at(next)),
        }
    }

    // The piece from sample `n` on, at which the polynomial is in force, and at most up to `to`.
    fn piece_by(&self, e: &PolyEntry, n: u64, to: u64) -> Piece
        requires order { n < to }
        requires inside { to ≤ self.now.samples }
        requires poly { poly_at (delay_model_of self.now) n ≡ Some e.now }
        requires modelled { is_modelled (delay_model_of self.now) n ≡ true }
        ensures from { result.from ≡ n }
        ensures after { n < result.to }
        ensures within { result.to ≤ to }
        ensures line { IsPiece (delay_model_of self.now) result }
    {
        let past = self.past_knot(e, n);
        Piece {
            from: n,
            to: self.poly_end(n, to).min(n + u64::from(self.knot - past)),
            past,
            line: self.line_about(e, n),
        }
    }

    // The piece from sample `n` on, which has a model, and at most up to `to`: it ends at the next knot, or at the second at
    // which the next polynomial begins.
    pub(crate) fn piece(&self, n: u64, to: u64) -> Piece
        requires order { n < to }
        requires inside { to ≤ self.now.samples }
        requires modelled { is_modelled (delay_model_of self.now) n ≡ true }
        ensures from { result.from ≡ n }
        ensures after { n < result.to }
        ensures within { result.to ≤ to }
        ensures line { IsPiece (delay_model_of self.now) result }
    {
        match self.poly_at(n) {
            None => Piece::none(),
            Some(e) => self.piece_by(&e, n, to),
        }
    }

    // The delay at sample `n`, which has a model.
    pub(crate) fn delay(&self, n: u64) -> i64
        requires inside { n < self.now.samples }
        requires modelled { is_modelled (delay_model_of self.now) n ≡ true }
        ensures value { result ≡ delay_at (delay_model_of self.now) n }
        ensures bound { unsigned_abs result < 2 ^ 59 }
    {
        match self.poly_at(n) {
            None => 0,
            Some(e) => self.delay_by(&e, n),
        }
    }

    // Whether sample `n` has a model, where the polynomial is in force.
    fn reaches(&self, e: &PolyEntry, n: u64) -> bool
        requires inside { n < self.now.samples }
        requires poly { poly_at (delay_model_of self.now) n ≡ Some e.now }
        ensures { result ≡ is_modelled (delay_model_of self.now) n }
    {
        self.polys.is_empty() || self.samples_since(e, n) / u64::from(self.knot) < 1 << 24
    }

    // The first sample at which the polynomial has begun, which is in force at sample `n`.
    fn first_sample(&self, e: &PolyEntry, n: u64) -> u64
        requires inside { n < self.now.samples }
        requires poly { poly_at (delay_model_of self.now) n ≡ Some e.now }
        ensures within { result ≤ n }
        ensures begun { (i : ℕ) → result ≤ i → e.now.second ≤ℤ second_at (delay_model_of self.now) i }
    {
        if e.second <= self.second {
            0
        } else {
            self.sample_at(e.second)
        }
    }

    // Where sample `n` has a model, a sample from which on all up to it have one.
    fn stretch_from(&self, n: u64) -> Option<u64>
        requires { n < self.now.samples }
        ensures some { IsSome result ↔ (is_modelled (delay_model_of self.now) n ≡ true) }
        ensures within { IfSome result (λ first. first ≤ n) }
        ensures stretch { IfSome result
            (λ first. (i : ℕ) → first ≤ i → i ≤ n → is_modelled (delay_model_of self.now) i ≡ true) }
    {
        let e = self.poly_at(n)?;
        if self.reaches(&e, n) {
            Some(self.first_sample(&e, n))
        } else {
            None
        }
    }

    /// Whether each sample of the scan has a model: a polynomial is in force there, and the knot behind it
    /// is at most knot 2^24. A station without polynomials has one at each sample.
    pub fn has_model(&self) -> bool
        ensures { result ≡ has_model (delay_model_of self.now) self.now.samples }
    {
        let mut end = self.samples;
        while end > 0 {
            match self.stretch_from(end - 1) {
                Some(first) => end = first,
                None => return false,
            }
        }
        true
    }

    /// Whether each sample of the scan has a clock: an entry is in force at the second of its polynomial.
    /// A station without clock entries has one at each sample.
    pub fn has_clock(&self) -> bool
        requires { has_model (delay_model_of self.now) self.now.samples ≡ true }
        ensures { result ≡ has_clock (delay_model_of self.now) self.now.samples }
    {
        if self.samples == 0 || self.clocks.is_empty() {
            return true;
        }
        match self.poly_at(0) {
            None => true,
            Some(e) => self.clock_for(&e).is_some(),
        }
    }

    /// The delays of the scan's samples.
    pub fn track(&self) -> Track<'a>
        requires model { has_model (delay_model_of self.now) self.now.samples ≡ true }
        requires clock { has_clock (delay_model_of self.now) self.now.samples ≡ true }
        ensures same { model_of result ≡ delay_model_of self.now }
        ensures samples { result.samples ≡ self.now.samples }
    {
        Track {
            polys: self.polys,
            clocks: self.clocks,
            second: self.second,
            rate: self.rate,
            knot: self.knot,
            samples: self.samples,
        }
    }
}
