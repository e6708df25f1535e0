//! Samples of a scan.
ghost use Rattle.std.specs.Prelude.{◌≡◌, ◌<◌, ◌^◌, max, fold};
ghost use Rattle.job_join.specs.{declared.stands.Here.{Here}, Spans.{samples_in, first_sample, end_sample}};

use crate::stands::Here;
use scan_list::Pass;

// The whole samples in so many microseconds.
fn samples_in(rate: u32, us: i64) -> u128
    ensures value { result ≡ samples_in rate us }
    ensures most { result < 2 ^ 95 }
{
    u128::from(us.unsigned_abs()) * u128::from(rate) / 1_000_000
}

/// The first sample of a station's part.
#[tactic(auto, unfolding(crate::specs::Spans::first_sample))]
pub(crate) fn first_sample(rate: u32, pass: &Pass) -> u128
    ensures { result ≡ first_sample rate pass.now }
{
    match pass.samples {
        Some(_) => 0,
        None => samples_in(rate, pass.from_us),
    }
}

/// The sample behind a station's part.
#[tactic(auto, unfolding(crate::specs::Spans::end_sample))]
pub(crate) fn end_sample(rate: u32, pass: &Pass) -> u128
    ensures value { result ≡ end_sample rate pass.now }
    ensures most { result < 2 ^ 95 }
{
    match pass.samples {
        Some(samples) => u128::from(samples),
        None => samples_in(rate, pass.to_us),
    }
}

/// As far as one of some stations goes.
pub(crate) fn samples_of(stands: &[Here], rate: u32) -> u128
    ensures value { result ≡ fold (λ most (h : Here). max most (end_sample rate h.pass.now)) 0 stands.now }
    ensures most { result < 2 ^ 95 }
{
    let mut most = 0;
    for here in stands {
        let end = end_sample(rate, here.pass);
        if end > most {
            most = end;
        }
    }
    most
}
