ghost use Rattle.std.specs.Prelude.{◌≡◌, Some};
ghost use Rattle.mem_devices.specs.{MemShelfState.{bytes_under}, MemShelfCalls.{Sizes, Reads}};

use crate::flags::Flags;
use dev_traits::{Failed, Shelf};
use mem_devices::MemShelf;
use std::marker::Model;
use std::sync::Arc;

/// Files in memory. Once the disk has been written to, the first read that gives a byte at or past a
/// place waits for the gate, for at most 1,000,000,000 looks. A contract sees the shelf in memory that
/// it is.
#[derive(Drop)]
pub struct MeetShelf {
    inner: MemShelf,
    from: u64,
    flags: Arc<Flags>,
}

impl Model for MeetShelf {
    ghost use Rattle.mem_devices.specs.MemShelfState.{MemShelfState};

    ghost Value = { MemShelfState };

    ghost view = { λ shelf. shelf.inner };
}

impl MeetShelf {
    /// That shelf, whose reads at or past byte `from` of any file meet the gate of these flags.
    pub(crate) fn new(inner: MemShelf, from: u64, flags: Arc<Flags>) -> MeetShelf
        ensures { result ≡ inner }
    {
        MeetShelf { inner, from, flags }
    }

    // Meets the gate if `n` bytes from byte `at` on reach the place, and the disk has been written to.
    fn read_gave(&self, at: u64, n: usize) {
        let reaches = n > 0 && at.saturating_add(n as u64) > self.from;
        if reaches && self.flags.is_armed() {
            self.flags.shelf_comes();
        }
    }
}

impl Shelf for MeetShelf {
    ghost told = { λ shelf. Some (bytes_under shelf.files) };

    ghost faults = { λ shelf. shelf.faults };

    fn size(&mut self, name: &str) -> Result<Option<u64>, Failed>
        ensures { Sizes name.now self.old self.new result }
    {
        self.inner.size(name)
    }

    fn read_at(&mut self, name: &str, at: u64, buf: &mut [u8]) -> Result<usize, Failed>
        ensures { Reads name.now at buf.old buf.new self.old self.new result }
    {
        let n = self.inner.read_at(name, at, buf)?;
        self.read_gave(at, n);
        Ok(n)
    }
}
