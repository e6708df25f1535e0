//! The sums at all lags.
ghost use Rattle.std.specs.Prelude.{◌≡◌, ◌<◌, ◌≤◌, ◌+◌, ◌*◌, ◌^◌, ℕ, length, slice_index};
ghost use Rattle.byte_sums.specs.Sums.{AreAtMost, lag_sum};

use crate::dots::{four_dot_sums, one_sum};
use crate::levels::level_sums;
use crate::shorts::four_short_sums;

// The greatest byte for lanes of 16 bits.
const SHORT: u8 = 12;

// The sums at four lags from `at` on.
#[inline(always)]
fn four_sums(greatest: u8, a: &[u8], b: &[u8], at: usize) -> [u32; 4]
    requires greatest { greatest ≤ 60 }
    requires a { AreAtMost greatest a.now }
    requires b { AreAtMost greatest b.now }
    requires size { length a.now ≤ 7168 }
    requires room { at + length a.now + 4 ≤ length b.now + 1 }
    ensures { (k : ℕ) → k < 4 → slice_index result k ≡ lag_sum a.now b.now (at + k) (length a.now) }
{
    if greatest <= SHORT {
        four_short_sums(a, b, at)
    } else {
        four_dot_sums(a, b, at)
    }
}

/// Sets each place of `out` to the sum of the products of a's bytes with b's, each as many places on. `greatest` is what a byte
/// is at most: 12 or less is faster, and most of all where bytes are even and at most 6.
pub fn lag_sums(greatest: u8, a: &[u8], b: &[u8], out: &mut [u32])
    requires greatest { greatest ≤ 60 }
    requires a { AreAtMost greatest a.now }
    requires b { AreAtMost greatest b.now }
    requires size { length a.now ≤ 7168 }
    requires room { length a.now + length out.old ≤ length b.now + 1 }
    ensures len { length out.new ≡ length out.old }
    ensures sums { (i : ℕ) → i < length out.old → slice_index out.new i ≡ lag_sum a.now b.now i (length a.now) }
{
    if greatest <= SHORT && level_sums(a, b, out) {
        return;
    }
    let fours = out.len() / 4;
    for q in 0..fours {
        let sums = four_sums(greatest, a, b, 4 * q);
        out[4 * q] = sums[0];
        out[4 * q + 1] = sums[1];
        out[4 * q + 2] = sums[2];
        out[4 * q + 3] = sums[3];
    }
    for i in 4 * fours..out.len() {
        out[i] = one_sum(a, b, i);
    }
}
