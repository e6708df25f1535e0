use crate::MemSink;
use dev_traits::{Failed, Sink, write_all};
use std::test::Fail;

#[test]
fn a_sink_in_memory(rt: HostRuntime) -> Result<(), Fail> {
    let alloc = rt.alloc();
    let mut sink = MemSink::new(alloc, 3, vec![in alloc; 1]?);
    assert!(rt; !sink.refused());
    assert_eq!(rt; sink.write(&[1, 2, 3, 4]), Ok(3));
    assert!(rt; !sink.refused());
    assert_eq!(rt; sink.write(&[4]), Err(Failed));
    assert!(rt; !sink.refused());
    assert_eq!(rt; sink.bytes(), [1, 2, 3].as_slice());
    assert_eq!(rt; write_all(&mut sink, &[4, 5, 6, 7, 8, 9, 10]), Ok(()));
    assert!(rt; !sink.refused());
    assert_eq!(rt; sink.bytes(), [1, 2, 3, 4, 5, 6, 7, 8, 9, 10].as_slice());
    Ok(())
}

#[test]
fn what_was_written_before_a_fault_stays(rt: HostRuntime) -> Result<(), Fail> {
    let alloc = rt.alloc();
    let mut sink = MemSink::new(alloc, 3, vec![in alloc; 5, 2]?);
    assert_eq!(rt;
        write_all(&mut sink, &[1, 2, 3, 4, 5, 6, 7, 8]),
        Err(Failed)
    );
    assert_eq!(rt; sink.bytes(), [1, 2, 3, 4, 5, 6].as_slice());
    assert!(rt; !sink.refused());
    Ok(())
}

#[test]
fn all_is_written_in_one_write_that_takes_it(rt: HostRuntime) -> Result<(), Fail> {
    let alloc = rt.alloc();
    let mut sink = MemSink::new(alloc, 4, vec![in alloc; 1, 3]?);
    assert_eq!(rt; write_all(&mut sink, &[1, 2, 3, 4]), Ok(()));
    assert_eq!(rt; write_all(&mut sink, &[]), Ok(()));
    assert_eq!(rt; write_all(&mut sink, &[5]), Err(Failed));
    assert_eq!(rt; write_all(&mut sink, &[5, 6, 7, 8, 9]), Err(Failed));
    assert_eq!(rt; sink.bytes(), [1, 2, 3, 4, 5, 6, 7, 8].as_slice());
    Ok(())
}

#[test]
fn a_write_of_a_megabyte(rt: HostRuntime) -> Result<(), Fail> {
    let alloc = rt.alloc();
    let bytes = vec![in alloc; 7u8; 1 << 20]?;
    let mut sink = MemSink::new(alloc, 1 << 30, Vec::new(alloc));
    assert_eq!(rt; sink.write(&bytes), Ok(1 << 20));
    assert!(rt; !sink.refused());
    assert!(rt; sink.bytes() == bytes.as_slice());
    Ok(())
}
