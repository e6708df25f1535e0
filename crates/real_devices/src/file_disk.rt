// A file of the operating system as a disk.
ghost use Rattle.std.specs.Prelude.{◌≡◌, ◌+◌, ◌<◌, ◌≤◌, ◌^◌, ⊤, None, IfSome, length};
ghost use Rattle.dev_traits.specs.Fault.{HasRisen};

use crate::begun::{SECTOR, is_begun};
use crate::file_id::FileId;
use dev_traits::{Disk, Failed};
use std::fs::{File, OpenOptions};
use std::marker::Model;
use std::os::unix::fs::FileExt;
use std::path::Path;
use std::rt::Files;

/// A regular file of the operating system, opened or made at the first call and kept open from then
/// on, under one descriptor that is never 0, 1 or 2. Where it cannot be opened the call fails, and so
/// it does where the file is that of standard output. A contract sees it as its count of faults.
///
/// The first call that syncs, writes or cuts locks the file, which the system gives back when the process
/// ends, however it does. While another process has the lock each such call fails. So does each that
/// writes or cuts where the file held something else when it was locked: more than a byte, and not
/// the mark behind a gate.
#[derive(Drop)]
pub struct FileDisk<R: Files<File = File> + Drop> {
    rt: R,
    path: String,
    mark: [u8; 7],
    output: Option<FileId>,
    file: Option<File>,
    // The file was made here, and its folder does not surely name it yet.
    is_new: bool,
    claim: Claim,
    faults: u64,
}

// Whether the file is locked, and whose it was found to be then.
#[derive(Clone, Copy, PartialEq, Eq)]
enum Claim {
    Unlocked,
    Foreign,
    Own,
}

impl<R: Files<File = File> + Drop> Model for FileDisk<R> {
    ghost use Rattle.std.specs.Prelude.{ℕ};

    ghost Value = { ℕ };

    ghost view = { λ disk. disk.faults };
}

impl<R: Files<File = File> + Drop> FileDisk<R> {
    /// The file of that path, which is written with this mark, and is not that of the output.
    pub fn new(rt: R, path: String, mark: [u8; 7], output: Option<FileId>) -> FileDisk<R>
        ensures { result ≡ 0 }
    {
        FileDisk {
            rt,
            path,
            mark,
            output,
            file: None,
            is_new: false,
            claim: Claim::Unlocked,
            faults: 0,
        }
    }

    // Counts a fault.
    fn failed(&mut self) -> Failed
        ensures risen { HasRisen self.old self.new }
        ensures no_fall { self.old ≤ self.new }
    {
        self.faults = self.faults.saturating_add(1);
        Failed
    }

    // Opens the file or makes it, where that was not done yet; without success it stays `None`.
    fn open(&mut self)
        ensures { self.new ≡ self.old }
    {
        if self.file.is_none() {
            if let Some((file, is_new)) = open_or_make(&self.rt, self.path.as_str(), self.output) {
                self.file = Some(file);
                self.is_new = is_new;
            }
        }
    }

    // Opens and locks the file, where that was not done yet; without success it stays unlocked.
    fn claim(&mut self)
        ensures { self.new ≡ self.old }
    {
        self.open();
        if let (Some(file), Claim::Unlocked) = (&self.file, self.claim) {
            self.claim = claim_of(file, &self.mark);
        }
    }
}

impl<R: Files<File = File> + Drop> Disk for FileDisk<R> {
    ghost seen = { λ _. None };

    ghost moment = { λ _. 0 };

    ghost may_leave = { λ _ _ _. ⊥ };

    ghost faults = { λ faults. faults };

    ghost stays = { λ _ _. ⊤ };

    ghost stays_on = { record { none = λ _. tt; both = λ _ _ _ _ _. tt } };

    ghost seen_is_image = { λ _. tt };

    ghost images_are_told = { λ _ _ _ is. absurd is };

    ghost images_are_short = { λ _ _ _ _ is. absurd is };

    fn len(&mut self) -> Result<u64, Failed> {
        self.open();
        let len = match &self.file {
            Some(file) => len_of(file),
            None => None,
        };
        match len {
            Some(len) => Ok(len),
            None => Err(self.failed()),
        }
    }

    fn read_at(&mut self, at: u64, buf: &mut [u8]) -> Result<usize, Failed> {
        self.open();
        let read = match &self.file {
            Some(file) => read_full(file, at, buf),
            None => None,
        };
        match read {
            Some(n) => Ok(n),
            None => Err(self.failed()),
        }
    }

    fn write_at(&mut self, at: u64, bytes: &[u8]) -> Result<(), Failed> {
        self.claim();
        let done = match &self.file {
            Some(file) if self.claim == Claim::Own => write_whole(file, at, bytes),
            _ => false,
        };
        if done { Ok(()) } else { Err(self.failed()) }
    }

    fn cut(&mut self, len: u64) -> Result<(), Failed> {
        self.claim();
        let done = match &self.file {
            Some(file) if self.claim == Claim::Own => shorten(file, len),
            _ => false,
        };
        if done { Ok(()) } else { Err(self.failed()) }
    }

    fn sync(&mut self) -> Result<(), Failed> {
        self.claim();
        let done = match &self.file {
            Some(file) if self.claim != Claim::Unlocked => file.sync_all().is_ok(),
            _ => false,
        };
        if !done || self.is_new && !sync_folder(&self.rt, self.path.as_str()) {
            return Err(self.failed());
        }
        self.is_new = false;
        Ok(())
    }
}

// Opens a regular file for reading and writing, or makes it, and tells whether it was made. It is looked for once more where
// it could not be made, since another process may have made it in between.
fn open_or_make<R: Files<File = File>>(
    rt: &R,
    path: &str,
    output: Option<FileId>,
) -> Option<(File, bool)> {
    let mut options = OpenOptions::new();
    options.read(true).write(true);
    for is_new in [false, true, false] {
        if let Ok(file) = options.create_new(is_new).open(rt, path) {
            return Some((clear_of_streams(&file, output)?, is_new));
        }
    }
    None
}

// A regular file that is not the output's, under a descriptor from 3 on. A process that was started
// without one of its standard streams would open the file in that stream's place; a clone never
// stands there.
fn clear_of_streams(file: &File, output: Option<FileId>) -> Option<File> {
    match file.metadata() {
        Ok(found) if found.is_file() && Some(FileId::new(&found)) != output => file
            .try_clone()
            .ok(),
        _ => None,
    }
}

// Locks the file and looks whose it is; it counts as unlocked where another process has the lock, or
// the file cannot be read.
fn claim_of(file: &File, mark: &[u8]) -> Claim {
    if file.try_lock().is_err() {
        return Claim::Unlocked;
    }
    let mut front = [0; SECTOR];
    match read_full(file, 0, &mut front) {
        Some(n) if is_begun(&front[..n], mark) => Claim::Own,
        Some(_) => Claim::Foreign,
        None => Claim::Unlocked,
    }
}

// Puts the folder's list of names in its place, so that the file is found after a crash.
fn sync_folder<R: Files<File = File>>(rt: &R, path: &str) -> bool {
    let folder = match Path::new(path).parent() {
        Some(parent) if !parent.as_str().is_empty() => parent.as_str(),
        _ => ".",
    };
    match File::open(rt, folder) {
        Ok(folder) => folder.sync_all().is_ok(),
        Err(_) => false,
    }
}

fn len_of(file: &File) -> Option<u64>
    ensures { IfSome result (λ len. len < 2 ^ 63) }
{
    match file.metadata() {
        Ok(metadata) if metadata.len() <= i64::MAX as u64 => Some(metadata.len()),
        _ => None,
    }
}

// Whether the file has no more than `len` bytes now.
fn shorten(file: &File, len: u64) -> bool {
    match len_of(file) {
        Some(now) => now <= len || file.set_len(len).is_ok(),
        None => false,
    }
}

// Writes all of `bytes` from byte `at` on; false where a write failed or took nothing.
fn write_whole(file: &File, at: u64, bytes: &[u8]) -> bool
    requires { at + length bytes.now < 2 ^ 63 }
{
    let mut done = 0;
    while done < bytes.len() {
        match file.write_at(&bytes[done..], at + done as u64) {
            Ok(n) if n > 0 => done += n,
            _ => return false,
        }
    }
    true
}

// Reads from byte `at` on until `buf` is full or the file ends, and answers how many bytes came;
// `None` where a read failed.
fn read_full(file: &File, at: u64, buf: &mut [u8]) -> Option<usize>
    ensures { IfSome result (λ n. n ≤ length buf.old) }
{
    // No file reaches so far, and the system takes such a place for a negative one.
    if at > i64::MAX as u64 {
        return Some(0);
    }
    let mut done = 0;
    while done < buf.len() {
        match file.read_at(&mut buf[done..], at + done as u64) {
            Ok(0) => break,
            Ok(n) => done += n,
            Err(_) => return None,
        }
    }
    Some(done)
}
