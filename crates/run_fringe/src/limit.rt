//! The limit on what is searched.
ghost use Rattle.std.specs.Prelude.{IfErr, OnOk};
ghost use Rattle.fringe_search.specs.Peaks.{AreSmall};
ghost use Rattle.run_notes.specs.Refusals.{IsCause};
ghost use Rattle.run_fringe.specs.Searched.{SmallOf, IsVerdict};

use fringe_search::amplitude;
use run_notes::{Due, Measure, Refusal};
use vis_records::Vis;

// Whether each lag's amplitude is within what is searched.
pub(crate) fn check_amplitudes(vis: &Vis) -> Result<(), Refusal>
    ensures small { OnOk result (AreSmall vis.now) }
    ensures cause { IfErr result (λ r. IsCause r (SmallOf vis.now)) }
    ensures verdict { IfErr result IsVerdict }
{
    match amplitude(vis) {
        Some(value) => Err(Refusal::Due(Due::Limit(Measure::Amplitude, value))),
        None => Ok(()),
    }
}
