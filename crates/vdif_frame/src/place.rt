//! The place of a frame in a scan.
ghost use Rattle.std.specs.Prelude.{◌≡◌, ◌≤◌, ◌^◌, pos, ◌+ℤ◌, ◌-ℤ◌, unsigned_abs};
ghost use Rattle.num_time.specs.Numbers.{epoch_second_of};
ghost use Rattle.vdif_frame.specs.Place.{place_of};

use crate::{Header, Shape};
use num_time::epoch_second;

// Seconds from `scan_second` to the second of a frame.
fn seconds_since(h: &Header, scan_second: i64) -> i128
    ensures value { result ≡ (epoch_second_of h.now.epoch +ℤ pos h.now.seconds) -ℤ scan_second }
    ensures bound { unsigned_abs result ≤ 2 ^ 66 }
{
    i128::from(epoch_second(h.epoch)) + i128::from(h.seconds) - i128::from(scan_second)
}

/// The number of a frame's first sample, counted from the second `scan_second` on at `rate` samples a
/// second; negative for a frame from before.
pub fn first_sample(h: &Header, s: &Shape, scan_second: i64, rate: u32) -> i128
    ensures { result ≡ place_of h.now s.now scan_second rate }
{
    let second = seconds_since(h, scan_second) * i128::from(rate);
    let within = i128::from(h.frame) * i128::from(s.samples_per_frame());
    second + within
}
