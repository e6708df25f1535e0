//! The devices that the lines name.

use crate::answer::{Answer, DONE, FAILED};
use crate::calls::{disk_answer, shelf_answer};
use crate::slow::{FewOpenings, SlowFile};
use crate::writers::{write_failing, write_slice, write_vec};
use anyhow::{Result, bail};
use hex::decode;
use real_devices::{FileDisk, FileShelf, SystemFiles, read_full};
use std::fs;

/// Two disks, a shelf of real files and one of slow files, a slow file, and the buffer.
#[derive(Drop)]
pub struct Devices<'a> {
    rt: &'a HostRuntime,
    first: FileDisk<&'a HostRuntime>,
    second: FileDisk<&'a HostRuntime>,
    shelf: FileShelf<SystemFiles<&'a HostRuntime>>,
    few: FileShelf<FewOpenings>,
    slow: SlowFile,
    pub buf: Vec<u8>,
}

impl<'a> Devices<'a> {
    pub fn new(rt: &'a HostRuntime) -> Devices<'a> {
        let slow = SlowFile::new(0, true);
        Devices {
            rt,
            first: disk(rt, String::new(rt.alloc())),
            second: disk(rt, String::new(rt.alloc())),
            shelf: FileShelf::new(SystemFiles::new(rt, [None, None])),
            few: FileShelf::new(FewOpenings::new(0, slow)),
            slow,
            buf: Vec::new(rt.alloc()),
        }
    }

    /// Does what a line says, and gives the answer.
    pub fn answer(&mut self, word: &str, rest: &str) -> Result<Answer> {
        match word {
            "first" => disk_answer(&mut self.first, rest, &mut self.buf),
            "second" => disk_answer(&mut self.second, rest, &mut self.buf),
            "shelf" => shelf_answer(&mut self.shelf, rest, &mut self.buf),
            "few" => shelf_answer(&mut self.few, rest, &mut self.buf),
            "slow" => self.read_slow(rest.parse::<u32>()?),
            "reads" => Ok(Answer::Number(self.slow.reads)),
            "vec" => {
                self.buf = write_vec(self.rt, rest, &self.buf)?;
                Ok(Answer::Read(self.buf.len()))
            }
            "slice" => {
                self.buf = write_slice(self.rt, rest, &self.buf)?;
                Ok(Answer::Read(self.buf.len()))
            }
            "failing" => Ok(Answer::Number(write_failing(self.rt, rest, &self.buf)?)),
            _ => self.set(word, rest),
        }
    }

    // What `read_full` answers of the slow file from a place on.
    fn read_slow(&mut self, at: u32) -> Result<Answer> {
        if self.buf.len() >= 100 {
            bail!("too large a buffer");
        }
        Ok(match read_full(&mut self.slow, at as u64, &mut self.buf) {
            Ok(n) => Answer::Read(n),
            Err(_) => FAILED,
        })
    }

    // Sets what later lines meet.
    fn set(&mut self, word: &str, rest: &str) -> Result<Answer> {
        match word {
            "buffer" => self.buf = decode(self.rt.alloc(), rest)?,
            "file" => fs::write(self.rt, rest, &self.buf)?,
            "remove" => fs::remove_file(self.rt, rest)?,
            "first-on" => self.first = disk(self.rt, String::from_str(self.rt.alloc(), rest)?),
            "second-on" => self.second = disk(self.rt, String::from_str(self.rt.alloc(), rest)?),
            "measured" => self.slow = SlowFile::new(rest.parse::<u64>()?, true),
            "unmeasured" => self.slow = SlowFile::new(rest.parse::<u64>()?, false),
            "openings" => {
                self.few = FileShelf::new(FewOpenings::new(rest.parse::<u64>()?, self.slow));
            }
            _ => bail!("no such line"),
        }
        Ok(DONE)
    }
}

// The file of a path as a disk.
fn disk(rt: &HostRuntime, path: String) -> FileDisk<&HostRuntime> {
    FileDisk::new(rt, path, *b"my mark", None)
}
