// A disk in memory, which can be made to fail, stopped and torn.
ghost use Rattle.std.specs.Prelude.{◌≡◌, ◌+◌, ◌<◌, ◌≤◌, ◌^◌, [], length, IfOk, None, false, if◌then◌else◌};
ghost use Rattle.dev_traits.specs.Fault.{HasRisen};
ghost use Rattle.mem_devices.specs.{MemDiskCalls.{ReadsLength, ReadsBytes, Writes, Cuts, Syncs}, MemDiskState.{start, filled, IsImage}};

mod fault_plan;
mod torn_file;

use crate::read::read_from;
use dev_traits::{Disk, Failed};
use fault_plan::FaultPlan;
use std::alloc::{AllocError, Global};
use torn_file::TornFile;

/// A file in memory. Its calls are numbered from 0: those of its plan fail, and besides only a
/// `write_at`, `cut` or `sync` that finds no memory, which changes nothing. It keeps a record of the
/// calls of these three, and so knows what a crash may leave at each of their moments.
#[derive(Drop)]
pub struct MemDisk {
    file: TornFile,
    plan: FaultPlan,
    faults: u64,
    refused: bool,
}

impl MemDisk {
    ghost use Rattle.mem_devices.specs.MemDiskWords.{state_of, moment_of, plan_of, faults_of, refused_of};

    /// A file of these bytes, as after a sync. `failing` lists the numbers of the calls that fail, in
    /// any order; with `stop_after` all calls after so many fail.
    pub fn new(
        alloc: Global,
        bytes: Vec<u8>,
        failing: Vec<u64>,
        stop_after: Option<u64>,
    ) -> Result<MemDisk, AllocError>
        ensures state { IfOk result (λ disk. state_of disk ≡ start bytes.items) }
        ensures moment { IfOk result (λ disk. moment_of disk ≡ 0) }
        ensures plan { IfOk result
            (λ disk. plan_of disk ≡ record { failing = failing.items; stop_after = stop_after; calls = 0 }) }
        ensures no_fault { IfOk result (λ disk. (faults_of disk ≡ 0) × (refused_of disk ≡ false)) }
    {
        Ok(MemDisk {
            file: TornFile::new(alloc, bytes)?,
            plan: FaultPlan::new(failing, stop_after),
            faults: 0,
            refused: false,
        })
    }

    /// What a read gives.
    pub fn bytes(&self) -> &[u8]
        ensures { result.now ≡ (state_of self.now).seen }
    {
        self.file.bytes()
    }

    /// Whether the last call failed for want of memory.
    pub fn refused(&self) -> bool
        ensures { result ≡ refused_of self.now }
    {
        self.refused
    }

    /// What a crash may leave, as a disk of its own, on which no call fails. Each byte that may be any
    /// is `fill`, and the length is the greatest that it may be where `long` is true, else the
    /// smallest.
    pub fn crash(self, alloc: Global, fill: u8, long: bool) -> Result<MemDisk, AllocError>
        ensures exact { IfOk result
            (λ disk. state_of disk ≡ start (filled (state_of self) fill (if long then (state_of self).most else (state_of self).least))) }
        ensures image { IfOk result (λ disk. IsImage (state_of self) (state_of disk).seen) }
        ensures moment { IfOk result (λ disk. moment_of disk ≡ 0) }
        ensures plan { IfOk result
            (λ disk. plan_of disk ≡ record { failing = []; stop_after = None; calls = 0 }) }
        ensures no_fault { IfOk result (λ disk. (faults_of disk ≡ 0) × (refused_of disk ≡ false)) }
    {
        let image = self.file.image(alloc, fill, long)?;
        MemDisk::new(alloc, image, Vec::new(alloc), None)
    }

    // Counts a fault.
    fn fail(&mut self) -> Failed
        ensures file { self.new.file ≡ self.old.file }
        ensures plan { self.new.plan ≡ self.old.plan }
        ensures refused { self.new.refused ≡ self.old.refused }
        ensures risen { HasRisen self.old.faults self.new.faults }
        ensures no_fall { self.old.faults ≤ self.new.faults }
    {
        self.faults = self.faults.saturating_add(1);
        Failed
    }
}

impl Disk for MemDisk {
    ghost use Rattle.std.specs.Prelude.{⊤, refl};
    ghost use Rattle.mem_devices.specs.{MemDiskImages.{seen_is_image, image_is_short}, MemDiskWords.{seen_of, moment_of, images_of, faults_of}};

    ghost seen = { λ disk. seen_of disk };

    ghost moment = { λ disk. moment_of disk };

    ghost may_leave = { λ disk t image. images_of disk t image };

    ghost faults = { λ disk. faults_of disk };

    ghost stays = { λ _ _. ⊤ };

    ghost stays_on = { record { none = λ _. tt; both = λ _ _ _ _ _. tt } };

    ghost seen_is_image = { λ disk. seen_is_image disk.file.first.items disk.file.calls.items };

    ghost images_are_told = { λ disk t image is. refl };

    ghost images_are_short = { λ disk t image le is. image_is_short _ image (disk.file.short t) is };

    fn len(&mut self) -> Result<u64, Failed>
        ensures { ReadsLength self.old self.new result }
    {
        self.refused = false;
        if self.plan.next_fails() {
            return Err(self.fail());
        }
        Ok(self.file.len())
    }

    fn read_at(&mut self, at: u64, buf: &mut [u8]) -> Result<usize, Failed>
        ensures { ReadsBytes at buf.old buf.new self.old self.new result }
    {
        self.refused = false;
        if self.plan.next_fails() {
            return Err(self.fail());
        }
        Ok(read_from(self.file.bytes(), at, buf))
    }

    fn write_at(&mut self, at: u64, bytes: &[u8]) -> Result<(), Failed>
        requires { at + length bytes.now < 2 ^ 63 }
        ensures { Writes at bytes.now self.old self.new result }
    {
        self.refused = false;
        let fails = self.plan.next_fails();
        let Ok(()) = self.file.write(at, bytes, !fails) else {
            self.refused = true;
            return Err(self.fail());
        };
        if fails {
            return Err(self.fail());
        }
        Ok(())
    }

    fn cut(&mut self, len: u64) -> Result<(), Failed>
        ensures { Cuts len self.old self.new result }
    {
        self.refused = false;
        let fails = self.plan.next_fails();
        let Ok(()) = self.file.cut(len, !fails) else {
            self.refused = true;
            return Err(self.fail());
        };
        if fails {
            return Err(self.fail());
        }
        Ok(())
    }

    fn sync(&mut self) -> Result<(), Failed>
        ensures { Syncs self.old self.new result }
    {
        self.refused = false;
        let fails = self.plan.next_fails();
        let Ok(()) = self.file.sync(!fails) else {
            self.refused = true;
            return Err(self.fail());
        };
        if fails {
            return Err(self.fail());
        }
        Ok(())
    }
}
