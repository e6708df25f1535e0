use super::*;
use std::alloc::{AllocError, Global};
use std::test::*;

// An entry of a second, with a mark.
#[derive(Clone, Copy, Debug, PartialEq, Eq)]
struct Mark {
    second: i64,
    mark: u8,
}

impl HasSecond for Mark {
    ghost second_of = { λ entry. entry.second };

    fn second(&self) -> i64 {
        self.second
    }
}

#[test]
fn the_latest_entry_that_has_begun(rt: HostRuntime) -> Result<(), Fail> {
    let mut list = EntryList::new(rt.alloc());
    assert!(rt; list.is_empty());
    assert_eq!(rt; list.entries(), [].as_slice());
    assert_eq!(rt; list.entry_for(0), None);
    let middle = Mark {
        second: 20,
        mark: 1,
    };
    let first = Mark {
        second: -10,
        mark: 2,
    };
    let last = Mark {
        second: 30,
        mark: 3,
    };
    assert_eq!(rt; list.add(middle), Ok(true));
    assert_eq!(rt; list.add(first), Ok(true));
    assert_eq!(rt; list.add(last), Ok(true));
    assert_eq!(rt;
        list.add(Mark {
            second: 20,
            mark: 4
        }),
        Ok(false)
    );
    assert!(rt; !list.is_empty());
    assert_eq!(rt; list.entries(), [middle, first, last].as_slice());
    for (name, second, want) in [
        ("long before", i64::MIN, None),
        ("just before", -11, None),
        ("at the first", -10, Some(first)),
        ("between", 19, Some(first)),
        ("at the second", 20, Some(middle)),
        ("just before the last", 29, Some(middle)),
        ("at the last", 30, Some(last)),
        ("long after", i64::MAX, Some(last)),
    ] {
        assert_eq!(rt; list.entry_for(second), want, "{name}");
    }
    Ok(())
}

// Entries at the even seconds, the later ones first.
fn evens(alloc: Global, count: u32) -> Result<EntryList<Mark>, AllocError> {
    let mut list = EntryList::new(alloc);
    for i in 0..count {
        let second = i64::from(count - i) * 2;
        let _ = list.add(Mark { second, mark: 7 })?;
    }
    Ok(list)
}

#[test]
fn many_entries(rt: HostRuntime) -> Result<(), Fail> {
    let mut list = evens(rt.alloc(), 150_000)?;
    assert_eq!(rt; list.entries().len(), 150_000);
    for i in 0..150_000u32 {
        let second = i64::from(i) * 2;
        assert_eq!(rt;
            list.entry_for(second + 1).map(|e| e.second),
            if i == 0 { None } else { Some(second) }
        );
        assert_eq!(rt; list.next_second(second + 1), Some(second + 2));
    }
    assert_eq!(rt; list.next_second(300_000), None);
    let twice = Mark {
        second: 10_000,
        mark: 8,
    };
    assert_eq!(rt; list.add(twice), Ok(false));
    let last = Mark {
        second: 300_001,
        mark: 9,
    };
    assert_eq!(rt; list.add(last), Ok(true));
    assert_eq!(rt; list.entry_for(300_001), Some(last));
    Ok(())
}
