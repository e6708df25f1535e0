//! Whether each sample of a scan has a delay at a station, however many samples there are. (Thompson, Moran and Swenson,
//! chapters 8 and 9.)
ghost use Rattle.std.specs.Prelude.{◌≡◌, ◌<◌, ◌^◌, pos, ◌*ℤ◌};
ghost use Rattle.corr_model.specs.Delay.{IsDelayModel};
ghost use Rattle.delay_track.specs.Model.{delay_model};

use delay_poly::PolyList;
use station_clock::ClockList;

/// What each sample of a scan needs at a station: a delay model, and a clock.
#[derive(Clone, Copy)]
pub(crate) enum Need {
    Delay,
    Clock,
}

/// What the delay of a station in a scan depends on: its polynomials and its clock entries, the second at which the scan
/// starts, counted from 1970-01-01 00:00, the samples in a second, and the samples from one knot to the next.
#[derive(Clone, Copy)]
pub(crate) struct Reach<'a> {
    pub polys: &'a PolyList,
    pub clocks: &'a ClockList,
    pub second: i64,
    pub rate: u32,
    pub knot: u32,
    ghost is_model: { IsDelayModel (delay_model polys.now clocks.now second rate knot) 0 },
}

impl Reach<'_> {
    ghost use Rattle.std.specs.Prelude.{ℕ, ◌/◌, ◌≤◌, ◌≤ℤ◌, ◌+ℤ◌, ◌-ℤ◌, min, true, option_map};
    ghost use Rattle.corr_model.specs.Delay.{poly_second, poly_at, second_at, is_modelled, is_clocked};
    ghost use Rattle.job_join.specs.{declared.reach.Need.{Need}, Reach.{reach_model}, Needs.{is_met, are_met}};

    // The second in which sample `n` lies, at most 2^40 seconds behind the scan's start: there all entries have begun.
    fn second_near(&self, n: u128) -> i64
        ensures { result ≡ self.now.second +ℤ pos (min (n / self.now.rate) (2 ^ 40)) }
    {
        self.second + (n / u128::from(self.rate)).min(1 << 40) as i64
    }

    // The second from which on the polynomial of sample `n` is in force.
    fn poly_second(&self, n: u128) -> Option<i64>
        ensures { result ≡ option_map poly_second (poly_at (reach_model self.now) n) }
    {
        if self.polys.is_empty() {
            return Some(self.second);
        }
        match self.polys.entry_for(self.second_near(n)) {
            None => None,
            Some(e) => Some(e.second),
        }
    }

    // The samples from the second of its polynomial to sample `n`.
    fn samples_since(&self, second: i64, n: u128) -> u128
        requires inside { n < 2 ^ 96 }
        requires poly { option_map poly_second (poly_at (reach_model self.now) n) ≡ Some second }
        ensures { pos n ≡ (second -ℤ self.now.second) *ℤ pos self.now.rate +ℤ pos result }
    {
        (n as i128 - samples_in_seconds(second - self.second, self.rate)) as u128
    }

    // Whether sample `n` has a delay model, whose polynomial is in force from this second on.
    fn is_modelled(&self, second: i64, n: u128) -> bool
        requires inside { n < 2 ^ 96 }
        requires poly { option_map poly_second (poly_at (reach_model self.now) n) ≡ Some second }
        ensures { result ≡ is_modelled (reach_model self.now) n }
    {
        self.polys.is_empty() || self.samples_since(second, n) / u128::from(self.knot) < 1 << 24
    }

    // Whether sample `n` has a clock, whose polynomial is in force from this second on.
    fn is_clocked(&self, second: i64, n: u128) -> bool
        requires { option_map poly_second (poly_at (reach_model self.now) n) ≡ Some second }
        ensures { result ≡ is_clocked (reach_model self.now) n }
    {
        self.clocks.is_empty() || self.clocks.entry_for(second).is_some()
    }

    // Whether sample `n` has what is needed, where no polynomial is in force.
    fn is_met_without(&self, need: Need, n: u128) -> bool
        requires { poly_at (reach_model self.now) n ≡ None }
        ensures { result ≡ is_met need (reach_model self.now) n }
    {
        match need {
            Need::Delay => false,
            Need::Clock => true,
        }
    }

    // Whether sample `n` has what is needed, whose polynomial is in force from this second on.
    fn is_met_from(&self, need: Need, second: i64, n: u128) -> bool
        requires inside { n < 2 ^ 96 }
        requires poly { option_map poly_second (poly_at (reach_model self.now) n) ≡ Some second }
        ensures { result ≡ is_met need (reach_model self.now) n }
    {
        match need {
            Need::Delay => self.is_modelled(second, n),
            Need::Clock => self.is_clocked(second, n),
        }
    }

    // Whether sample `n` has what is needed.
    fn is_met(&self, need: Need, n: u128) -> bool
        requires { n < 2 ^ 96 }
        ensures { result ≡ is_met need (reach_model self.now) n }
    {
        match self.poly_second(n) {
            None => self.is_met_without(need, n),
            Some(second) => self.is_met_from(need, second, n),
        }
    }

    // The first sample at which the polynomial of sample `n` has begun.
    fn first_sample(&self, second: i64, n: u128) -> u128
        requires { option_map poly_second (poly_at (reach_model self.now) n) ≡ Some second }
        ensures within { result ≤ n }
        ensures begun { (i : ℕ) → result ≤ i → second ≤ℤ second_at (reach_model self.now) i }
    {
        if second <= self.second {
            0
        } else {
            (second - self.second) as u128 * u128::from(self.rate)
        }
    }

    // A sample from which on all up to sample `n` have what that has.
    fn stretch_start(&self, n: u128) -> u128
        ensures within { result ≤ n }
        ensures stretch { (need : Need) (i : ℕ) → result ≤ i → i ≤ n
            → is_met need (reach_model self.now) n ≡ true → is_met need (reach_model self.now) i ≡ true }
    {
        match self.poly_second(n) {
            None => 0,
            Some(second) => self.first_sample(second, n),
        }
    }

    /// Whether each sample of a scan has what is needed. It may have far more samples than a plan can hold.
    pub(crate) fn are_met(&self, need: Need, samples: u128) -> bool
        requires { samples < 2 ^ 96 }
        ensures { result ≡ are_met need (reach_model self.now) samples }
    {
        let mut end = samples;
        while end > 0 {
            if !self.is_met(need, end - 1) {
                return false;
            }
            end = self.stretch_start(end - 1);
        }
        true
    }
}

// The samples of so many seconds, `rate` in each.
fn samples_in_seconds(seconds: i64, rate: u32) -> i128
    ensures { result ≡ seconds *ℤ pos rate }
{
    i128::from(seconds) * i128::from(rate)
}
