//! Slow files.
ghost use Rattle.std.specs.Prelude.{None, Some, false};

use real_devices::{Kind, NamedFiles, PlacedFile};
use std::io;

/// A file of the bytes 1 to 7 in memory. A read gives at most three of them, the read of the number `failing` fails, and its size
/// is told if it is `measured`.
#[derive(Clone, Copy)]
pub struct SlowFile {
    bytes: [u8; 7],
    failing: u64,
    measured: bool,
    pub reads: u64,
}

impl SlowFile {
    pub fn new(failing: u64, measured: bool) -> SlowFile {
        SlowFile {
            bytes: [1, 2, 3, 4, 5, 6, 7],
            failing,
            measured,
            reads: 0,
        }
    }
}

impl PlacedFile for SlowFile {
    ghost told = { λ file. Some file.bytes };

    ghost never_fails = { λ _. false };

    fn size(&mut self) -> io::Result<u64> {
        if self.measured {
            Ok(self.bytes.len() as u64)
        } else {
            Err(io::Error::from(io::ErrorKind::Other))
        }
    }

    fn read_some(&mut self, at: u64, buf: &mut [u8]) -> io::Result<usize> {
        let read = self.reads;
        self.reads = self.reads.saturating_add(1);
        if read == self.failing {
            return Err(io::Error::from(io::ErrorKind::Other));
        }
        let at = at as usize;
        if at >= self.bytes.len() {
            return Ok(0);
        }
        let rest = &self.bytes[at..];
        let n = rest.len().min(buf.len()).min(3);
        buf[..n].copy_from_slice(&rest[..n]);
        Ok(n)
    }
}

/// Such files under every name, which can be opened so many times more.
#[derive(Drop)]
pub struct FewOpenings {
    left: u64,
    file: SlowFile,
}

impl FewOpenings {
    pub fn new(left: u64, file: SlowFile) -> FewOpenings {
        FewOpenings { left, file }
    }
}

impl NamedFiles for FewOpenings {
    type File = SlowFile;

    ghost told = { λ _. None };

    ghost never_fails = { λ _. false };

    fn kind(&mut self, _name: &str) -> Kind {
        Kind::Regular
    }

    fn open(&mut self, _name: &str) -> Option<SlowFile> {
        self.left = self.left.checked_sub(1)?;
        Some(self.file)
    }
}
