// Files by name, and those of the operating system.
ghost use Rattle.std.specs.Prelude.{◌≡◌, ◌↔◌, List, ℕ, Bool, Option, None, IsSome, false};
ghost use Rattle.dev_traits.specs.Told.{WhereTold};
ghost use Rattle.real_devices.specs.Opened.{Opens};

use crate::file_id::FileId;
use crate::placed_file::PlacedFile;
use std::fs::File;
use std::os::fd::AsRawFd;
use std::os::unix::fs::FileExt;
use std::rt::Files;
use std::{fs, io};

/// What stands under a name.
#[derive(Clone, Copy, Debug, PartialEq, Eq)]
pub enum Kind {
    Missing,
    Regular,
    /// A folder, a pipe, a device or a socket, or a file that is not for reading.
    Other,
}

/// Files by name, by single calls of the system.
pub trait NamedFiles {
    type File: PlacedFile + Drop;

    /// The bytes of the regular file under each name, where they are told.
    ghost told: { Self → Option (List ℕ → Option (List ℕ)) };

    /// Whether no call of a file fails.
    ghost never_fails: { Self → Bool };

    /// What stands under the name, which is told without opening it.
    fn kind(&mut self, name: &str) -> Kind
        ensures same { told self.new ≡ told self.old }
        ensures steady { never_fails self.new ≡ never_fails self.old }
        ensures regular { WhereTold (told self.old)
            (λ files. (result ≡ Kind.Regular) ↔ IsSome (files name.now)) };

    /// The file of that name, opened for reading; `None` where it cannot be opened.
    fn open(&mut self, name: &str) -> Option<Self::File>
        ensures same { told self.new ≡ told self.old }
        ensures steady { never_fails self.new ≡ never_fails self.old }
        ensures opens { WhereTold (told self.old) (λ files.
            Opens Self.File.told Self.File.never_fails (never_fails self.old) (files name.now) result) };
}

/// The files of the operating system but those that the program itself writes; a name is a path.
#[derive(Drop)]
pub struct SystemFiles<R: Files<File = File> + Drop> {
    rt: R,
    written: [Option<FileId>; 2],
}

impl<R: Files<File = File> + Drop> SystemFiles<R> {
    /// The files that this runtime reaches, but for those which are written, under whatever name they stand.
    pub fn new(rt: R, written: [Option<FileId>; 2]) -> SystemFiles<R> {
        SystemFiles { rt, written }
    }

    fn is_written(&self, file: FileId) -> bool {
        self.written.contains(&Some(file))
    }
}

impl<R: Files<File = File> + Drop> NamedFiles for SystemFiles<R> {
    type File = File;

    ghost told = { λ _. None };

    ghost never_fails = { λ _. false };

    fn kind(&mut self, name: &str) -> Kind {
        match fs::metadata(&self.rt, name) {
            Ok(found) if found.is_file() && !self.is_written(FileId::new(&found)) => Kind::Regular,
            Ok(_) => Kind::Other,
            Err(_) => Kind::Missing,
        }
    }

    // No file is read under the number of a standard stream.
    fn open(&mut self, name: &str) -> Option<File> {
        match File::open(&self.rt, name) {
            Ok(file) if file.as_raw_fd() > 2 => Some(file),
            _ => None,
        }
    }
}

impl PlacedFile for File {
    ghost told = { λ _. None };

    ghost never_fails = { λ _. false };

    fn size(&mut self) -> io::Result<u64> {
        let size = self.metadata()?.len();
        if size <= i64::MAX as u64 {
            Ok(size)
        } else {
            Err(io::Error::from(io::ErrorKind::FileTooLarge))
        }
    }

    fn read_some(&mut self, at: u64, buf: &mut [u8]) -> io::Result<usize> {
        self.read_at(buf, at)
    }
}
