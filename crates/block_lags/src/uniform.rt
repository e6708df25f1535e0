//! Whether bytes are all the same, told stretch by stretch.
ghost use Rattle.std.specs.Prelude.{◌≡◌, ◌<◌, ◌≤◌, ℕ, true, length, slice_index};

// How many bytes are looked at in one go.
const CHUNK: usize = 512;

// Whether the bytes of a stretch are all this one.
#[inline(always)]
fn are_all_in(bytes: &[u8], from: usize, to: usize, byte: u8) -> bool
    requires { to ≤ length bytes.now }
    ensures { result ≡ true → (k : ℕ) → k < to → from ≤ k → slice_index bytes.now k ≡ byte }
{
    let mut same = true;
    for k in from..to {
        same &= bytes[k] == byte;
    }
    same
}

/// Whether all bytes are this one.
pub(crate) fn are_all(bytes: &[u8], byte: u8) -> bool
    ensures { result ≡ true → (k : ℕ) → k < length bytes.now → slice_index bytes.now k ≡ byte }
{
    let mut from = 0;
    while from < bytes.len() {
        let to = from + CHUNK.min(bytes.len() - from);
        if !are_all_in(bytes, from, to, byte) {
            return false;
        }
        from = to;
    }
    true
}
