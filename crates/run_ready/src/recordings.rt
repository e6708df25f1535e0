//! The files of all stations, with their sizes, and how many slots they have.
ghost use Rattle.std.specs.Prelude.{◌≡◌, ◌≤◌, ◌<◌, ◌^◌, ◌∷◌, ◌++◌, [], None, length, map, IfOk, IfErr, OnOk};
ghost use Rattle.std.specs.{List.{All, AllZip}, Str.{IsUtf8}};
ghost use Rattle.dev_traits.specs.Told.{WhereTold};
ghost use Rattle.frame_index.specs.Recording.{AreOnShelf, IsOnShelf, slots_by_size};
ghost use Rattle.run_notes.specs.Counted.{CountsReads};
ghost use Rattle.run_ready.specs.{Due.{IsDue}, Recordings.{files_answer}, Sizes.{no_file, no_file_of, no_file_for, HasFiles, IsSizedBy, AreShelved, slots_together}, Stage.{IsOfFiles}};

use crate::refusals::within;
use crate::texts::file_size;
use dev_traits::Shelf;
use frame_index::FileRef;
use item_list::ItemList;
use job_join::Quantity;
use job_plan::StationPlan;
use num_time::Name;
use run_notes::{Measure, Refusal};
use std::alloc::{AllocError, Global};
use vdif_frame::Shape;

// The slots that all recordings may have together.
const MOST_SLOTS: u128 = 1 << 26;

/// A station's files with their sizes, in their order, and how many slots they have by these.
#[derive(Drop)]
pub struct StationFiles {
    pub files: ItemList<FileRef>,
    pub slots: u128,
}

/// Puts an item behind others.
pub fn add<T: Drop>(list: &mut Vec<T>, item: T) -> Result<(), AllocError>
    ensures { OnOk result (list.new.items ≡ list.old.items ++ item ∷ []) }
{
    list.push(item)?;
    Ok(())
}

// A file with its size.
fn sized_file<F: Shelf>(alloc: Global, shelf: &mut F, name: &Name) -> Result<FileRef, Refusal>
    requires text { IsUtf8 name.now }
    ensures same { F.told shelf.new ≡ F.told shelf.old }
    ensures name { IfOk result (λ file. file.name ≡ name.now) }
    ensures shelved { IfOk result (λ file. WhereTold (F.told shelf.old) (λ files. IsOnShelf files file)) }
    ensures there { OnOk result (WhereTold (F.told shelf.old) (λ files. no_file files name.now ≡ None)) }
    ensures due { IfErr result (λ r. WhereTold (F.told shelf.old) (λ files. IsDue r (no_file files name.now))) }
    ensures stage { IfErr result IsOfFiles }
    ensures counts { CountsReads (F.faults shelf.old) (F.faults shelf.new) result }
{
    let size = file_size(alloc, shelf, name)?;
    let name = name.copy(alloc)?;
    Ok(FileRef { name, size })
}

// Files with their sizes, in their order.
fn sized_files<F: Shelf>(
    alloc: Global,
    shelf: &mut F,
    names: &[Name],
) -> Result<Vec<FileRef>, Refusal>
    requires texts { All IsUtf8 names.now }
    ensures same { F.told shelf.new ≡ F.told shelf.old }
    ensures names { IfOk result (λ list. map (λ file. file.name) list.items ≡ names.now) }
    ensures shelved { IfOk result (λ list. WhereTold (F.told shelf.old) (AreOnShelf list.items)) }
    ensures there { OnOk result (WhereTold (F.told shelf.old) (λ files. no_file_of files names.now ≡ None)) }
    ensures due { IfErr result (λ r. WhereTold (F.told shelf.old) (λ files. IsDue r (no_file_of files names.now))) }
    ensures stage { IfErr result IsOfFiles }
    ensures counts { CountsReads (F.faults shelf.old) (F.faults shelf.new) result }
{
    let mut list = Vec::new(alloc);
    for name in names {
        let file = sized_file(alloc, shelf, name)?;
        add(&mut list, file)?;
    }
    Ok(list)
}

// How many slots of a length files have.
fn slots_in(files: &[FileRef], size: u64) -> u128
    requires few { length files.now < 2 ^ 32 }
    requires some { 0 < size }
    ensures value { result ≡ slots_by_size size files.now }
    ensures bound { result < 2 ^ 96 }
{
    let mut slots = 0;
    for file in files {
        slots += u128::from(file.size / size);
    }
    slots
}

// The length of a frame of a shape, in bytes.
fn frame_bytes(shape: &Shape) -> u64
    ensures { result ≡ shape.now.frame_bytes }
{
    u64::from(shape.frame_bytes)
}

// The files of a station.
fn station_files<F: Shelf>(
    alloc: Global,
    shelf: &mut F,
    station: &StationPlan,
) -> Result<StationFiles, Refusal>
    requires { HasFiles station.now }
    ensures same { F.told shelf.new ≡ F.told shelf.old }
    ensures sized { IfOk result (IsSizedBy station.now) }
    ensures shelved { IfOk result (λ z. WhereTold (F.told shelf.old) (AreOnShelf z.files)) }
    ensures there { OnOk result (WhereTold (F.told shelf.old) (λ files. no_file_of files station.now.files ≡ None)) }
    ensures due { IfErr result (λ r. WhereTold (F.told shelf.old) (λ files. IsDue r (no_file_of files station.now.files))) }
    ensures stage { IfErr result IsOfFiles }
    ensures counts { CountsReads (F.faults shelf.old) (F.faults shelf.new) result }
{
    let files = sized_files(alloc, shelf, station.files.items())?;
    let slots = slots_in(&files, frame_bytes(&station.shape));
    Ok(StationFiles {
        files: ItemList::of(files),
        slots,
    })
}

// The files of all stations, station by station and file by file.
fn all_files<F: Shelf>(
    alloc: Global,
    shelf: &mut F,
    stations: &[StationPlan],
) -> Result<Vec<StationFiles>, Refusal>
    requires { All HasFiles stations.now }
    ensures same { F.told shelf.new ≡ F.told shelf.old }
    ensures sized { IfOk result (λ sized. AllZip IsSizedBy stations.now sized.items) }
    ensures shelved { IfOk result (λ sized. WhereTold (F.told shelf.old) (AreShelved sized.items)) }
    ensures there { OnOk result (WhereTold (F.told shelf.old) (λ files. no_file_for files stations.now ≡ None)) }
    ensures due { IfErr result (λ r. WhereTold (F.told shelf.old) (λ files. IsDue r (no_file_for files stations.now))) }
    ensures stage { IfErr result IsOfFiles }
    ensures counts { CountsReads (F.faults shelf.old) (F.faults shelf.new) result }
{
    let mut list = Vec::new(alloc);
    for station in stations {
        let files = station_files(alloc, shelf, station)?;
        add(&mut list, files)?;
    }
    Ok(list)
}

// How many slots all stations have.
fn slots_together(sized: &[StationFiles]) -> u128
    requires few { length sized.now ≤ 32 }
    requires bounds { All (λ z. z.slots < 2 ^ 96) sized.now }
    ensures { result ≡ slots_together sized.now }
{
    let mut slots = 0;
    for station in sized {
        slots += station.slots;
    }
    slots
}

/// The files of all stations: first the sizes of all, station by station and file by file, then the number of their slots.
pub fn files_of<F: Shelf>(
    alloc: Global,
    shelf: &mut F,
    stations: &[StationPlan],
) -> Result<Vec<StationFiles>, Refusal>
    requires files { All HasFiles stations.now }
    requires few { length stations.now ≤ 32 }
    ensures same { F.told shelf.new ≡ F.told shelf.old }
    ensures sized { IfOk result (λ sized. AllZip IsSizedBy stations.now sized.items) }
    ensures slots { IfOk result (λ sized. All (λ z. z.slots ≤ 2 ^ 26) sized.items) }
    ensures shelved { IfOk result (λ sized. WhereTold (F.told shelf.old) (AreShelved sized.items)) }
    ensures accepted { OnOk result (WhereTold (F.told shelf.old) (λ files. files_answer files stations.now ≡ None)) }
    ensures due { IfErr result (λ r. WhereTold (F.told shelf.old) (λ files. IsDue r (files_answer files stations.now))) }
    ensures stage { IfErr result IsOfFiles }
    ensures counts { CountsReads (F.faults shelf.old) (F.faults shelf.new) result }
{
    let sized = all_files(alloc, shelf, stations)?;
    let slots = slots_together(&sized);
    within(Measure::Job(Quantity::Slots), MOST_SLOTS, slots)?;
    Ok(sized)
}
