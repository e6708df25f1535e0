//! The identity of a job, by its texts and the sizes of its files.
ghost use Rattle.std.specs.Prelude.{◌≡◌, ◌++◌, map, IfOk, OnOk};
ghost use Rattle.checkpoint_journal.specs.Identity.{identity_of};
ghost use Rattle.run_ready.specs.Sizes.{sizes_in};

use crate::recordings::{StationFiles, add};
use checkpoint_journal::{Identity, job_identity};
use frame_index::FileRef;
use std::alloc::{AllocError, Global};

// Puts the sizes of files behind others.
fn push_sizes(sizes: &mut Vec<u64>, files: &[FileRef]) -> Result<(), AllocError>
    ensures { OnOk result (sizes.new.items ≡ sizes.old.items ++ map (λ file. file.size) files.now) }
{
    for file in files {
        add(sizes, file.size)?;
    }
    Ok(())
}

// The sizes of all files, station by station and file by file.
fn sizes_in(alloc: Global, files: &[StationFiles]) -> Result<Vec<u64>, AllocError>
    ensures { IfOk result (λ sizes. sizes.items ≡ sizes_in files.now) }
{
    let mut sizes = Vec::new(alloc);
    for station in files {
        push_sizes(&mut sizes, station.files.items())?;
    }
    Ok(sizes)
}

/// The identity of a job with these texts, empty where there is no schedule, and these files.
pub fn identity_of(
    alloc: Global,
    schedule: &[u8],
    job: &[u8],
    files: &[StationFiles],
) -> Result<Identity, AllocError>
    ensures { IfOk result (λ id. id ≡ identity_of schedule.now job.now (sizes_in files.now)) }
{
    let sizes = sizes_in(alloc, files)?;
    job_identity(alloc, schedule, job, &sizes)
}
