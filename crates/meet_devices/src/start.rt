ghost use Rattle.std.specs.Prelude.{◌≡◌, [], IfOk, None, false};
ghost use Rattle.mem_devices.specs.{MemShelfState.{files_of}, MemDiskState.{start}, MemDiskWords.{state_of, moment_of, plan_of, faults_of, refused_of}};

use crate::flags::Flags;
use crate::{MeetDisk, MeetGate, MeetShelf};
use mem_devices::{MemDisk, MemShelf};
use std::alloc::{AllocError, Global};
use std::sync::Arc;

/// A shelf of these files, by name and bytes, an empty disk and a gate. Once the disk has been written
/// to, the first read that gives a byte at or past byte `from` of a file meets the gate's first piece.
/// No call of the shelf fails, and one of the disk only for want of memory.
pub fn meet(
    alloc: Global,
    files: Vec<(String, Vec<u8>)>,
    from: u64,
) -> Result<(MeetShelf, MeetDisk, MeetGate), AllocError>
    ensures shelf { IfOk result (λ all. all.0 ≡ record {
      files = files_of files.items;
      failing = [];
      calls = 0;
      faults = 0;
    }) }
    ensures state { IfOk result (λ all. state_of all.1 ≡ start []) }
    ensures moment { IfOk result (λ all. moment_of all.1 ≡ 0) }
    ensures plan { IfOk result
        (λ all. plan_of all.1 ≡ record { failing = []; stop_after = None; calls = 0 }) }
    ensures no_fault { IfOk result
        (λ all. (faults_of all.1 ≡ 0) × (refused_of all.1 ≡ false)) }
{
    let flags = Arc::new(alloc, Flags::new())?;
    let shelf = MemShelf::new(files, Vec::new(alloc));
    let disk = MemDisk::new(alloc, Vec::new(alloc), Vec::new(alloc), None)?;
    Ok((
        MeetShelf::new(shelf, from, Arc::try_clone(&flags)?),
        MeetDisk::new(disk, Arc::try_clone(&flags)?),
        MeetGate::new(flags),
    ))
}
