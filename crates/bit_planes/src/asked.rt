//! Values that are asked for one by one.
ghost use Rattle.std.specs.Prelude.{◌≡◌, ◌<◌, ◌≤◌, ◌+◌, ◌^◌, ℕ, None, length, pos, slice_index_or, IfOk};
ghost use Rattle.bit_planes.specs.Held.{AreHeld, values_in};

use crate::held::Held;
use corr_model::Values;
use packed_values::pack;
use std::alloc::{AllocError, Global};

// The values at `size` samples from sample `n` on.
pub(crate) fn ask<V: Values>(
    alloc: Global,
    v: &V,
    station: u32,
    chan: u32,
    n: usize,
    size: usize,
) -> Result<Held, AllocError>
    requires scan { n + size ≤ 2 ^ 40 }
    ensures held { IfOk result AreHeld }
    ensures long { IfOk result (λ h. length (values_in h) ≡ size) }
    ensures values { IfOk result (λ h. (k : ℕ) → k < size → slice_index_or (values_in h) k None ≡ V.samples v.now station chan (pos (n + k))) }
{
    let mut words = Vec::with_capacity(alloc, size)?;
    for k in 0..size {
        words.push(pack(v.z(station, chan, (n + k) as i64)))?;
    }
    Ok(Held::Words(words))
}
