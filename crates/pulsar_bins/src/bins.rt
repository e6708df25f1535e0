//! Bins, as they are kept.
use delay_poly::PolyList;
use station_clock::ClockList;
use std::alloc::Global;
use std::marker::Model;

/// The bins of a pulse: how many a turn has, 2 to 64, and the phase's entries, each in force from a second on and in units of
/// 2^-32 turn.
#[derive(Drop)]
pub struct Bins {
    pub count: u32,
    pub phases: PolyList,
    clocks: ClockList,
}

impl Model for Bins {
    ghost use Rattle.std.specs.Prelude.{◌≡◌, []};
    ghost use Rattle.pulsar_bins.specs.Bins.{BinsFields, AreBins};

    ghost Value = { BinsFields };

    ghost view = { λ bins. record { count = bins.count; phases = bins.phases } };

    ghost invariant = { λ bins. AreBins (record { count = bins.count; phases = bins.phases }) × (bins.clocks ≡ []) };
}

impl Bins {
    ghost use Rattle.std.specs.Prelude.{◌≡◌, []};
    ghost use Rattle.pulsar_bins.specs.Bins.{AreBins};

    /// The bins of these numbers.
    pub(crate) fn new(alloc: Global, count: u32, phases: PolyList) -> Bins
        requires { AreBins (record { count = count; phases = phases }) }
        ensures { result ≡ record { count = count; phases = phases } }
    {
        Bins {
            count,
            phases,
            clocks: ClockList::new(alloc),
        }
    }

    /// The clock entries of the phase: it has none.
    pub fn clocks(&self) -> &ClockList
        ensures none { result.now ≡ [] }
        ensures ranges { AreBins self.now }
    {
        &self.clocks
    }
}
