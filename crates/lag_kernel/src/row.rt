//! The row of a station's values.
ghost use Rattle.std.specs.Prelude.{◌≤◌, ◌^◌, length};
ghost use Rattle.packed_values.specs.Packed.{values_of};

use packed_values::Packed;

/// A station's values from sample `from` of a scan on.
#[derive(Clone, Copy)]
pub(crate) struct Row<'a> {
    pub packed: Packed<'a>,
    pub from: u64,
    ghost begin: { from ≤ 2 ^ 40 },
    ghost held: { length (values_of packed) ≤ 2 ^ 40 },
}

impl<'a> Row<'a> {
    ghost use Rattle.std.specs.Prelude.{◌≡◌, ◌≤◌, ◌^◌, ℤ, pos, ◌-ℤ◌, length};
    ghost use Rattle.packed_values.specs.{From.{value_from}, Packed.{values_of}};
    ghost use Rattle.lag_kernel.specs.Rows.{row_inside};

    /// The values of the row that are inside the scan, from the row's first sample on.
    pub fn inside(&self, samples: u64) -> Packed<'_>
        requires scan { samples ≤ 2 ^ 40 }
        ensures held { length (values_of result) ≤ 2 ^ 40 }
        ensures values { (n : ℤ) → value_from (values_of result) (n -ℤ pos self.now.from) ≡ row_inside self.now samples n }
    {
        let before_end = samples.saturating_sub(self.from) as usize;
        self.packed.first(self.packed.len().min(before_end))
    }
}
