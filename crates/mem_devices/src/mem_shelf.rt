ghost use Rattle.std.specs.Prelude.{◌≡◌, ◌≤◌, Some};
ghost use Rattle.std.specs.Option.{option_copied};
ghost use Rattle.mem_devices.specs.{MemShelfState.{bytes_under, files_of, fails_next, after_call}, MemShelfCalls.{Sizes, Reads}};

use crate::read::read_from;
use dev_traits::{Failed, Shelf};
use std::marker::Model;

/// Files in memory. The calls of `size` and `read_at` are numbered together, from 0, and exactly
/// those listed fail.
#[derive(Drop)]
pub struct MemShelf {
    files: Vec<(String, Vec<u8>)>,
    failing: Vec<u64>,
    calls: u64,
    faults: u64,
}

impl Model for MemShelf {
    ghost use Rattle.mem_devices.specs.MemShelfState.{MemShelfState, files_of};

    ghost Value = { MemShelfState };

    ghost view = { λ shelf. record {
      files = files_of shelf.files.items;
      failing = shelf.failing.items;
      calls = shelf.calls;
      faults = shelf.faults;
    } };
}

impl MemShelf {
    /// A shelf of these files, by name and bytes: of two with one name the first counts. `failing`
    /// lists the numbers of the calls that fail, in any order.
    pub fn new(files: Vec<(String, Vec<u8>)>, failing: Vec<u64>) -> MemShelf
        ensures { result ≡ record {
          files = files_of files.items;
          failing = failing.items;
          calls = 0;
          faults = 0;
        } }
    {
        MemShelf {
            files,
            failing,
            calls: 0,
            faults: 0,
        }
    }

    // Counts one call, and answers whether it fails.
    fn fails(&mut self) -> bool
        ensures fails { result ≡ fails_next self.old }
        ensures called { self.new ≡ after_call self.old }
        ensures no_fall { self.old.faults ≤ self.new.faults }
    {
        let fails = self.failing.contains(&self.calls);
        self.calls = self.calls.saturating_add(1);
        if fails {
            self.faults = self.faults.saturating_add(1);
        }
        fails
    }
}

impl Shelf for MemShelf {
    ghost told = { λ shelf. Some (bytes_under shelf.files) };

    ghost faults = { λ shelf. shelf.faults };

    fn size(&mut self, name: &str) -> Result<Option<u64>, Failed>
        ensures { Sizes name.now self.old self.new result }
    {
        if self.fails() {
            return Err(Failed);
        }
        match find(&self.files, name) {
            Some(bytes) => Ok(Some(bytes.len() as u64)),
            None => Ok(None),
        }
    }

    fn read_at(&mut self, name: &str, at: u64, buf: &mut [u8]) -> Result<usize, Failed>
        ensures { Reads name.now at buf.old buf.new self.old self.new result }
    {
        let failed = self.fails();
        if failed {
            return Err(Failed);
        }
        match find(&self.files, name) {
            Some(bytes) => Ok(read_from(bytes, at, buf)),
            None => Ok(0),
        }
    }
}

// The bytes of the first file of that name.
fn find<'a>(files: &'a [(String, Vec<u8>)], name: &str) -> Option<&'a [u8]>
    ensures { option_copied result ≡ bytes_under (files_of files.now) name.now }
{
    for (key, bytes) in files {
        if key.as_str() == name {
            return Some(bytes.as_slice());
        }
    }
    None
}
