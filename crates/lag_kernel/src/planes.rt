//! All lags of a range, from the planes of two channels.
ghost use Rattle.std.specs.Prelude.{◌≡◌, ℕ, ℤ, ◌-◌, ◌%◌, ◌≤◌, ◌^◌, length, map};
ghost use Rattle.std.specs.List.{range_with_len};
ghost use Rattle.bit_planes.specs.Planes.{plane_value};
ghost use Rattle.corr_model.specs.{Cell.{cell_in}, Lags.{lag_of}};
ghost use Rattle.lag_kernel.specs.{Planes.{plane_samples, plane_pair}, Rows.{row_value}};

use crate::row::Row;
use crate::rows::row_lags;
use bit_planes::Planes;
use corr_model::Cell;

/// Sets `out[i]` to the cell of lag `i - L/2`, as `plain_lags` does, from the planes of the first station's channel and the
/// second's. Where planes hold no value, also outside their range, there is none.
pub fn plane_lags(a: &Planes, b: &Planes, from: u64, to: u64, samples: u64, out: &mut [Cell])
    requires even { length out.old % 2 ≡ 0 }
    requires most { length out.old ≤ 1024 }
    requires order { from ≤ to }
    requires inside { to ≤ samples }
    requires scan { samples ≤ 2 ^ 40 }
    requires range { to - from ≤ 2 ^ 36 }
    ensures { out.new ≡ map (λ i. cell_in (plane_samples a.now b.now) plane_pair samples (lag_of (length out.old) i) from to) (range_with_len 0 (length out.old)) }
{
    row_lags(&row_of(a), &row_of(b), from, to, samples, out);
}

// The row of the planes' values.
fn row_of(p: &Planes) -> Row<'_>
    ensures values { (n : ℤ) → row_value result n ≡ plane_value p.now n }
{
    Row {
        packed: p.packed(),
        from: p.from() as u64,
    }
}
