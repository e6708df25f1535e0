ghost use Rattle.std.specs.Prelude.{◌≡◌, ◌+◌, ◌<◌, ◌^◌, length};
ghost use Rattle.mem_devices.specs.MemDiskCalls.{ReadsLength, ReadsBytes, Writes, Cuts, Syncs};

use crate::flags::Flags;
use dev_traits::{Disk, Failed};
use mem_devices::MemDisk;
use std::marker::Model;
use std::sync::Arc;

/// A file in memory whose first write arms the shelf. A contract sees the disk in memory that it is.
#[derive(Drop)]
pub struct MeetDisk {
    inner: MemDisk,
    flags: Arc<Flags>,
}

impl Model for MeetDisk {
    ghost use Rattle.mem_devices.specs.declared.mem_disk.MemDisk.{MemDisk};

    ghost Value = { MemDisk };

    ghost view = { λ disk. disk.inner };
}

impl MeetDisk {
    /// That disk, whose writes arm the shelf of these flags.
    pub(crate) fn new(inner: MemDisk, flags: Arc<Flags>) -> MeetDisk
        ensures { result ≡ inner }
    {
        MeetDisk { inner, flags }
    }
}

impl Disk for MeetDisk {
    ghost use Rattle.mem_devices.specs.contracts.mem_disk.MemDiskDisk.TheImpl.{ghosts, Laws.{lawful}};

    ghost seen = { ghosts.seen };

    ghost moment = { ghosts.moment };

    ghost may_leave = { ghosts.may_leave };

    ghost faults = { ghosts.faults };

    ghost stays = { ghosts.stays };

    ghost stays_on = { lawful.stays_on };

    ghost seen_is_image = { lawful.seen_is_image };

    ghost images_are_told = { lawful.images_are_told };

    ghost images_are_short = { lawful.images_are_short };

    fn len(&mut self) -> Result<u64, Failed>
        ensures { ReadsLength self.old self.new result }
    {
        self.inner.len()
    }

    fn read_at(&mut self, at: u64, buf: &mut [u8]) -> Result<usize, Failed>
        ensures { ReadsBytes at buf.old buf.new self.old self.new result }
    {
        self.inner.read_at(at, buf)
    }

    fn write_at(&mut self, at: u64, bytes: &[u8]) -> Result<(), Failed>
        requires { at + length bytes.now < 2 ^ 63 }
        ensures { Writes at bytes.now self.old self.new result }
    {
        self.flags.arm();
        self.inner.write_at(at, bytes)
    }

    fn cut(&mut self, len: u64) -> Result<(), Failed>
        ensures { Cuts len self.old self.new result }
    {
        self.inner.cut(len)
    }

    fn sync(&mut self) -> Result<(), Failed>
        ensures { Syncs self.old self.new result }
    {
        self.inner.sync()
    }
}
