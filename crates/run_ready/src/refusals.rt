//! The refusal of each thing that may be wrong. None of these takes memory: the name that a refusal tells is handed in.
ghost use Rattle.std.specs.Prelude.{◌≡◌, ◌≢◌, ◌≤◌, ◌<◌, Some, None, IfOk, IfErr, OnOk};
ghost use Rattle.run_ready.specs.Refused.{recording_refusal, join_refusal};

use frame_index::IndexFault;
use job_join::JoinFault;
use num_time::Name;
use run_notes::{Due, Measure, Refusal};

/// The length of the file of a name, where it is there.
pub fn there(size: Option<u64>, name: Name) -> Result<u64, Refusal>
    ensures there { IfOk result (λ length. size ≡ Some length) }
    ensures missing { IfErr result (λ r. (size ≡ None) × (r ≡ Refusal.Due (Due.NoFile name))) }
{
    match size {
        Some(length) => Ok(length),
        None => Err(Refusal::Due(Due::NoFile(name))),
    }
}

/// Whether a measure is at most its greatest value.
pub fn within(measure: Measure, most: u128, value: u128) -> Result<(), Refusal>
    ensures within { OnOk result (value ≤ most) }
    ensures past { IfErr result (λ r. (most < value) × (r ≡ Refusal.Due (Due.Limit measure value))) }
{
    if value > most {
        return Err(Refusal::Due(Due::Limit(measure, value)));
    }
    Ok(())
}

/// The refusal of a job and a schedule that do not go together, for a cause that speaks of this name.
pub fn join_refusal(fault: JoinFault, name: Name) -> Refusal
    ensures { result ≡ join_refusal fault name }
{
    match fault {
        JoinFault::Limit(quantity, value) => {
            Refusal::Due(Due::Limit(Measure::Job(quantity), value))
        }
        JoinFault::Memory => Refusal::Memory,
        _ => Refusal::Due(Due::Join(fault, name)),
    }
}

/// The refusal of the recording of the station with this key, of which there is no index.
pub fn recording_refusal(fault: IndexFault, key: Name) -> Refusal
    requires counted { fault ≢ IndexFault.TooManySlots }
    ensures { recording_refusal key fault ≡ Some result }
{
    match fault {
        IndexFault::Read => Refusal::Read,
        IndexFault::NoFrameAgrees(field) => Refusal::Due(Due::Recording(key, field)),
        IndexFault::TooManySlots => unreachable!(),
        IndexFault::Memory => Refusal::Memory,
    }
}
