//! Files in memory that are read without a fault.
ghost use Rattle.std.specs.Prelude.{◌≡◌, [], Some};
ghost use Rattle.mem_devices.specs.MemShelfState.{bytes_under, files_of};

use dev_traits::{Failed, Shelf};
use mem_devices::MemShelf;
use std::alloc::Global;

/// A shelf in memory no call of which fails.
#[derive(Drop)]
pub struct SureShelf {
    shelf: MemShelf,
    ghost never: { shelf.failing ≡ [] },
}

impl SureShelf {
    /// A shelf of these files, by name and bytes: of two with one name the first counts.
    pub fn new(alloc: Global, files: Vec<(String, Vec<u8>)>) -> SureShelf
        ensures { result.shelf.files ≡ files_of files.items }
    {
        SureShelf {
            shelf: MemShelf::new(files, Vec::new(alloc)),
        }
    }
}

impl Shelf for SureShelf {
    ghost told = { λ s. Some (bytes_under s.shelf.files) };

    ghost faults = { λ s. 0 };

    fn size(&mut self, name: &str) -> Result<Option<u64>, Failed> {
        self.shelf.size(name)
    }

    fn read_at(&mut self, name: &str, at: u64, buf: &mut [u8]) -> Result<usize, Failed> {
        self.shelf.read_at(name, at, buf)
    }
}
