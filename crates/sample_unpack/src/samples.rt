//! Samples out of a data array.
ghost use Rattle.std.specs.Prelude.{◌≡◌, ◌<◌, ◌≤◌, ◌*◌, ◌+◌, ℕ, pos, length, slice_index_or};
ghost use Rattle.sample_unpack.specs.Level.{IsWidth, level_of, code_at, level_at, bit_of};

use crate::level;

/// Sample `i` of channel `chan` in a data array of `chans` channels with `bits` bits a sample (VDIF
/// 1.1.1, data array).
pub fn sample_at(bytes: &[u8], bits: u8, chans: u32, chan: u32, i: u32) -> i8
    requires width { IsWidth bits }
    requires channel { chan < chans }
    requires channels { chans ≤ 64 }
    requires inside { bit_of bits chans chan i + bits ≤ 8 * length bytes.now }
    ensures { result ≡ level_at bytes.now bits chans chan i }
{
    let at = (u64::from(i) * u64::from(chans) + u64::from(chan)) * u64::from(bits);
    level_in(bytes, bits, u128::from(at))
}

/// The first samples of channel `chan` in a data array of `chans` channels with `bits` bits a sample, as
/// many as `out` has room for: `out[i]` becomes the level of sample `i` (VDIF 1.1.1, data array).
pub fn unpack(bytes: &[u8], bits: u8, chans: u32, chan: u32, out: &mut [i8])
    requires width { IsWidth bits }
    requires channel { chan < chans }
    requires channels { chans ≤ 64 }
    requires inside { (i : ℕ) → i < length out.old → bit_of bits chans chan i + bits ≤ 8 * length bytes.now }
    ensures samples { (i : ℕ) → i < length out.old → slice_index_or out.new i (pos 0) ≡ level_at bytes.now bits chans chan i }
    ensures length { length out.new ≡ length out.old }
{
    for (i, sample) in out.iter_mut().enumerate() {
        let at = (i as u128 * u128::from(chans) + u128::from(chan)) * u128::from(bits);
        *sample = level_in(bytes, bits, at);
    }
}

// The level of the code whose lowest bit is bit `at` of a data array.
fn level_in(bytes: &[u8], bits: u8, at: u128) -> i8
    requires width { IsWidth bits }
    requires inside { at + bits ≤ 8 * length bytes.now }
    ensures { result ≡ level_of bits (code_at bytes.now bits at) }
{
    let byte = bytes[(at / 8) as usize];
    level(bits, (byte >> (at % 8)) % (1 << bits))
}
