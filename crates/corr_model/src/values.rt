//! The values of a scan.
ghost use Rattle.std.specs.Prelude.{◌≡◌, IfSome};
ghost use Rattle.corr_model.specs.Cell.{Samples, AreSmall};

/// The rotated values of a scan, sample by sample.
pub trait Values {
    /// The value of a station's channel at each sample number of the scan.
    ghost samples: { Self → Samples };

    /// The two components of the value of a station's channel at sample `n` of the scan; None where
    /// there is none. `station` and `chan` are numbers of the plan.
    fn z(&self, station: u32, chan: u32, n: i64) -> Option<(i8, i8)>
        ensures value { result ≡ samples self.now station chan n }
        ensures small { IfSome result AreSmall };
}
