//! Codes into a data array.
ghost use Rattle.std.specs.Prelude.{◌≡◌, ◌<◌, ◌*◌, ◌^◌, ℕ, All, length, slice_index};
ghost use Rattle.sample_unpack.specs.{Level.{IsWidth, code_at}, Packed.{packed}};

/// Packs codes of `bits` bits into bytes, the first code into the lowest bits of the first byte; `out` has
/// as many bytes as the codes fill (VDIF 1.1.1, data array).
pub fn pack(codes: &[u8], bits: u8, out: &mut [u8])
    requires width { IsWidth bits }
    requires codes { (i : ℕ) → i < length codes.now → slice_index codes.now i < 2 ^ bits }
    requires room { bits * length codes.now ≡ 8 * length out.old }
    ensures codes { (i : ℕ) → i < length codes.now → code_at out.new bits (i * bits) ≡ slice_index codes.now i }
    ensures length { length out.new ≡ length out.old }
{
    let per_byte = usize::from(8 / bits);
    for (k, byte) in out.iter_mut().enumerate() {
        *byte = packed(&codes[k * per_byte..(k + 1) * per_byte], bits);
    }
}

// The byte of the codes that fill one.
fn packed(codes: &[u8], bits: u8) -> u8
    requires width { IsWidth bits }
    requires codes { (i : ℕ) → i < length codes.now → slice_index codes.now i < 2 ^ bits }
    requires full { bits * length codes.now ≡ 8 }
    ensures { result ≡ packed bits codes.now }
{
    let mut byte = 0;
    for i in (0..codes.len()).rev() {
        byte = byte * (1 << bits) + codes[i];
    }
    byte
}
