//! A shelf, a disk and a gate, used by two threads at once and by one alone.
use crate::{MeetDisk, MeetGate, MeetShelf, meet};
use dev_traits::{Disk, Failed, Gate, Shelf};
use std::alloc::{AllocError, Global};
use std::test::Fail;
use std::thread::{Threads, join_mut};

// One file of six bytes, which is met from byte 4 on.
fn one_scan(alloc: Global) -> Result<(MeetShelf, MeetDisk, MeetGate), AllocError> {
    let bytes = vec![in alloc; 1, 2, 3, 4, 5, 6]?;
    let files = vec![in alloc; (String::from_str(alloc, "scan")?, bytes)]?;
    meet(alloc, files, 4)
}

// Writes one byte to the disk, and then passes the gate.
fn append<D: Disk, G: Gate>(disk: &mut D, gate: &G) -> Result<(), Failed> {
    disk.write_at(0, &[9])?;
    gate.piece(0, 0);
    Ok(())
}

// Reads the last byte of the file until that has met the gate, or 100,000,000 times.
fn read<F: Shelf>(shelf: &mut F, gate: &MeetGate) -> Result<(), Failed> {
    for _ in 0..100_000_000 {
        shelf.read_at("scan", 5, &mut [0])?;
        if gate.met() {
            break;
        }
    }
    Ok(())
}

// Lends the shelf to a thread that reads, and the disk to one that appends.
fn at_once<R: Threads, F: Shelf + Send, D: Disk + Send>(
    rt: &R,
    shelf: &mut F,
    disk: &mut D,
    gate: &MeetGate,
) -> (Result<(), Failed>, Result<(), Failed>) {
    join_mut(rt, &mut || read(shelf, gate), &mut || append(disk, gate))
}

#[test]
fn two_threads_meet(rt: HostRuntime) -> Result<(), Fail> {
    let (mut shelf, mut disk, gate) = one_scan(rt.alloc())?;
    assert!(rt; !gate.met());
    let ends = at_once(&rt, &mut shelf, &mut disk, &gate);
    assert_eq!(rt; ends, (Ok(()), Ok(())));
    assert!(rt; gate.met());
    Ok(())
}

#[test]
fn one_thread_alone_does_not(rt: HostRuntime) -> Result<(), Fail> {
    let (mut shelf, mut disk, gate) = one_scan(rt.alloc())?;
    let mut buf = [0; 3];
    assert_eq!(rt; shelf.size("scan"), Ok(Some(6)));
    assert_eq!(rt; shelf.read_at("scan", 4, &mut buf), Ok(2));
    assert_eq!(rt; disk.len(), Ok(0));
    assert_eq!(rt; append(&mut disk, &gate), Ok(()));
    assert_eq!(rt; shelf.read_at("scan", 2, &mut buf), Ok(3));
    assert_eq!(rt; buf, [3, 4, 5]);
    assert_eq!(rt; disk.read_at(0, &mut buf), Ok(1));
    assert_eq!(rt; buf, [9, 4, 5]);
    assert!(rt; !gate.met());
    Ok(())
}
