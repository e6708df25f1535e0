//! The index of each station's recording.
ghost use Rattle.std.specs.Prelude.{◌≡◌, ◌≤◌, ◌^◌, None, IfOk, IfErr, OnOk};
ghost use Rattle.std.specs.List.{All, AllZip};
ghost use Rattle.dev_traits.specs.Told.{WhereTold};
ghost use Rattle.frame_index.specs.Recording.{AreOnShelf};
ghost use Rattle.station_stream.specs.Part.{IsNamedBy, IsRecordingOf};
ghost use Rattle.run_notes.specs.Counted.{CountsReads};
ghost use Rattle.run_ready.specs.{Due.{IsDue}, Recordings.{foreign_answer, first_foreign}, Sizes.{IsSizedBy, AreShelved}, Stage.{IsOfFiles}};

use crate::recordings::{StationFiles, add};
use crate::refusals::recording_refusal;
use dev_traits::Shelf;
use frame_index::Index;
use job_plan::StationPlan;
use run_notes::Refusal;
use station_stream::Recording;
use std::alloc::Global;

// The recording of a station.
fn index_of<F: Shelf>(
    alloc: Global,
    shelf: &mut F,
    station: &StationPlan,
    sized: StationFiles,
) -> Result<Recording, Refusal>
    requires sized { IsSizedBy station.now sized }
    requires few_slots { sized.slots ≤ 2 ^ 26 }
    requires shelved { WhereTold (F.told shelf.old) (AreOnShelf sized.files) }
    ensures same { F.told shelf.new ≡ F.told shelf.old }
    ensures named { IfOk result (IsNamedBy station.now) }
    ensures recorded { IfOk result (λ r. WhereTold (F.told shelf.old) (λ files. IsRecordingOf files station.now r)) }
    ensures agrees { OnOk result (WhereTold (F.told shelf.old) (λ files. foreign_answer files station.now ≡ None)) }
    ensures due { IfErr result (λ r. WhereTold (F.told shelf.old) (λ files. IsDue r (foreign_answer files station.now))) }
    ensures stage { IfErr result IsOfFiles }
    ensures counts { CountsReads (F.faults shelf.old) (F.faults shelf.new) result }
{
    let StationFiles { files, slots: _ } = sized;
    let key = station.key.copy(alloc)?;
    match Index::build(alloc, shelf, files.items(), &station.shape) {
        Ok(index) => Ok(Recording { files, index }),
        Err(fault) => Err(recording_refusal(fault, key)),
    }
}

/// The recordings of all stations, in their order.
pub fn index_all<F: Shelf>(
    alloc: Global,
    shelf: &mut F,
    stations: &[StationPlan],
    sized: Vec<StationFiles>,
) -> Result<Vec<Recording>, Refusal>
    requires sized { AllZip IsSizedBy stations.now sized.items }
    requires few_slots { All (λ z. z.slots ≤ 2 ^ 26) sized.items }
    requires shelved { WhereTold (F.told shelf.old) (AreShelved sized.items) }
    ensures same { F.told shelf.new ≡ F.told shelf.old }
    ensures named { IfOk result (λ list. AllZip IsNamedBy stations.now list.items) }
    ensures recorded { IfOk result (λ list. WhereTold (F.told shelf.old) (λ files. AllZip (IsRecordingOf files) stations.now list.items)) }
    ensures agrees { OnOk result (WhereTold (F.told shelf.old) (λ files. first_foreign files stations.now ≡ None)) }
    ensures due { IfErr result (λ r. WhereTold (F.told shelf.old) (λ files. IsDue r (first_foreign files stations.now))) }
    ensures stage { IfErr result IsOfFiles }
    ensures counts { CountsReads (F.faults shelf.old) (F.faults shelf.new) result }
{
    let mut rest = sized.into_iter();
    let mut list = Vec::new(alloc);
    for station in stations {
        let files = rest.next().unwrap();
        let recording = index_of(alloc, shelf, station, files)?;
        add(&mut list, recording)?;
    }
    Ok(list)
}
