//! The levels of codes.
ghost use Rattle.std.specs.Prelude.{◌≡◌, ◌<◌, ◌^◌};
ghost use Rattle.sample_unpack.specs.Level.{IsWidth, level_of};

/// The level of a code: -1, +1 for one bit, -3, -1, +1, +3 for two, -15, -13, .., +15 for four (VDIF 1.1.1, data array).
pub fn level(bits: u8, code: u8) -> i8
    requires width { IsWidth bits }
    requires code { code < 2 ^ bits }
    ensures { result ≡ level_of bits code }
{
    let top = (1 << bits) - 1;
    2 * code as i8 - top
}
