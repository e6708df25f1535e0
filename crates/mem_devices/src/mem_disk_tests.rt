use crate::MemDisk;
use dev_traits::{Disk, Failed};
use std::alloc::Global;
use std::test::Fail;

// Five bytes, of which byte 1 is written, byte 4 is cut off, and byte 6 is written behind a gap;
// then the disk stops, and a write of byte 3 and a sync fail.
fn stopped(alloc: Global) -> Result<MemDisk, Fail> {
    let bytes = vec![in alloc; 10, 11, 12, 13, 14]?;
    let mut disk = MemDisk::new(alloc, bytes, Vec::new(alloc), Some(3))?;
    let _ = disk.write_at(1, &[7]);
    let _ = disk.cut(4);
    let _ = disk.write_at(6, &[1]);
    let _ = disk.write_at(3, &[9]);
    let _ = disk.sync();
    Ok(disk)
}

#[test]
fn a_disk_in_memory(rt: HostRuntime) -> Result<(), Fail> {
    let alloc = rt.alloc();
    let bytes = vec![in alloc; 1, 2, 3]?;
    let mut disk = MemDisk::new(alloc, bytes, vec![in alloc; 2]?, None)?;
    let mut buf = [9; 4];
    assert_eq!(rt; disk.len(), Ok(3));
    assert_eq!(rt; disk.read_at(1, &mut buf), Ok(2));
    assert_eq!(rt; disk.write_at(0, &[5]), Err(Failed));
    assert_eq!(rt; buf, [2, 3, 9, 9]);
    assert_eq!(rt; disk.write_at(5, &[6]), Ok(()));
    assert_eq!(rt; disk.bytes(), [1, 2, 3, 0, 0, 6].as_slice());
    assert_eq!(rt; disk.cut(9), Ok(()));
    assert_eq!(rt; disk.cut(4), Ok(()));
    assert_eq!(rt; disk.bytes(), [1, 2, 3, 0].as_slice());
    assert_eq!(rt; disk.read_at(u64::MAX, &mut buf), Ok(0));
    assert_eq!(rt; disk.sync(), Ok(()));
    assert!(rt; !disk.refused());
    // No memory holds such a gap.
    assert_eq!(rt; disk.write_at(1 << 62, &[8]), Err(Failed));
    assert!(rt; disk.refused());
    assert_eq!(rt; disk.len(), Ok(4));
    assert!(rt; !disk.refused());
    let disk = disk.crash(alloc, 7, true)?;
    assert_eq!(rt; disk.bytes(), [1, 2, 3, 0].as_slice());
    Ok(())
}

#[test]
fn a_crash_of_a_stopped_disk(rt: HostRuntime) -> Result<(), Fail> {
    let alloc = rt.alloc();
    let disk = stopped(alloc)?;
    assert_eq!(rt; disk.bytes(), [10, 7, 12, 13, 0, 0, 1].as_slice());
    let long = disk.crash(alloc, 238, true)?;
    assert_eq!(rt; long.bytes(), [10, 238, 12, 238, 238, 238, 238].as_slice());
    let short = stopped(alloc)?.crash(alloc, 238, false)?;
    assert_eq!(rt; short.bytes(), [10, 238, 12, 238].as_slice());
    let again = short.crash(alloc, 0, true)?;
    assert_eq!(rt; again.bytes(), [10, 238, 12, 238].as_slice());
    Ok(())
}
