use crate::MemShelf;
use dev_traits::{Failed, Shelf};
use std::alloc::{AllocError, Global};
use std::test::Fail;

fn file(alloc: Global, name: &str, bytes: &[u8]) -> Result<(String, Vec<u8>), AllocError> {
    Ok((String::from_str(alloc, name)?, bytes.to_vec(alloc)?))
}

// Two files of one name, and one of another; the third call fails.
fn two_scans(alloc: Global) -> Result<MemShelf, AllocError> {
    let files = vec![in alloc;
        file(alloc, "scan", &[1, 2, 3, 4, 5])?,
        file(alloc, "scan", &[9])?,
        file(alloc, "empty", &[])?,
    ]?;
    Ok(MemShelf::new(files, vec![in alloc; 2]?))
}

#[test]
fn a_shelf_in_memory(rt: HostRuntime) -> Result<(), Fail> {
    let mut shelf = two_scans(rt.alloc())?;
    let mut buf = [7; 3];
    assert_eq!(rt; shelf.size("scan"), Ok(Some(5)));
    assert_eq!(rt; shelf.read_at("scan", 1, &mut buf), Ok(3));
    assert_eq!(rt; buf, [2, 3, 4]);
    assert_eq!(rt; shelf.read_at("scan", 0, &mut buf), Err(Failed));
    assert_eq!(rt; buf, [2, 3, 4]);
    assert_eq!(rt; shelf.read_at("scan", 3, &mut buf), Ok(2));
    assert_eq!(rt; buf, [4, 5, 4]);
    for (name, at) in [("scan", 5), ("scan", u64::MAX), ("empty", 0), ("other", 0)] {
        assert_eq!(rt; shelf.read_at(name, at, &mut buf), Ok(0), "{name} at {at}");
    }
    assert_eq!(rt; buf, [4, 5, 4]);
    assert_eq!(rt; shelf.size("empty"), Ok(Some(0)));
    assert_eq!(rt; shelf.size("other"), Ok(None));
    Ok(())
}
