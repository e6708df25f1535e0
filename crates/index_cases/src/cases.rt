//! What the lines ask.
use crate::broken::BrokenRecording;
use crate::bytes::{FrameLine, append_hex};
use crate::shapes::shape_of;
use crate::short::ShortShelf;
use crate::sizes::index_of;
use anyhow::{Context, Result, bail};
use broken_texts::print_broken;
use dev_traits::Shelf;
use frame_index::Index;
use hex::decode;
use mem_devices::MemShelf;
use real_devices::{FileShelf, SystemFiles};
use std::alloc::Global;
use std::mem;
use vdif_frame::Shape;

/// The files that the lines have described since the last index, the calls of the shelf that fail, and the
/// last index.
#[derive(Drop)]
pub struct Cases {
    alloc: Global,
    files: Vec<(String, Vec<u8>)>,
    bytes: Vec<u8>,
    failing: Vec<u64>,
    index: Option<Index>,
}

impl Cases {
    pub fn new(alloc: Global) -> Cases {
        Cases {
            alloc,
            files: Vec::new(alloc),
            bytes: Vec::new(alloc),
            failing: Vec::new(alloc),
            index: None,
        }
    }

    /// Reads a line, and prints the answer where it asks.
    pub fn read(&mut self, rt: &impl Print, word: &str, rest: &str) -> Result<()> {
        match word {
            "frame" => FrameLine::read(rest)?.append(&mut self.bytes)?,
            "bytes" => {
                let (count, bytes) = rest.split_once(' ').context("count and bytes")?;
                for _ in 0..count.parse::<u32>()? {
                    append_hex(&mut self.bytes, bytes)?;
                }
            }
            "file" => self.end_file(rest)?,
            "failing" => self.failing.push(rest.parse::<u64>()?)?,
            "memory" => self.index_in_memory(rt, rest)?,
            "short" => self.index_of_short(rt, rest)?,
            "slow" => self.index_by_slow_reads(rt, rest)?,
            "find" => self.find(rt, rest)?,
            "broken" => self.broken(rt, rest)?,
            _ => bail!("no such line"),
        }
        Ok(())
    }

    // The bytes so far are those of a file.
    fn end_file(&mut self, name: &str) -> Result<()> {
        let bytes = mem::replace(&mut self.bytes, Vec::new(self.alloc));
        self.files
            .push((String::from_str(self.alloc, name)?, bytes))?;
        Ok(())
    }

    // The index of the files in memory.
    fn index_in_memory(&mut self, rt: &impl Print, rest: &str) -> Result<()> {
        let files = mem::replace(&mut self.files, Vec::new(self.alloc));
        let failing = mem::replace(&mut self.failing, Vec::new(self.alloc));
        let mut shelf = MemShelf::new(files, failing);
        self.build(rt, "memory", &mut shelf, rest)
    }

    // The index of the files, of the last of which reads give the first so many bytes.
    fn index_of_short(&mut self, rt: &impl Print, rest: &str) -> Result<()> {
        let (gives, rest) = rest.split_once(' ').context("a number")?;
        let gives = gives.parse::<usize>()?;
        self.build_short(rt, "short", gives, usize::MAX, rest)
    }

    // The index of the files, of which a read gives so many bytes at most.
    fn index_by_slow_reads(&mut self, rt: &impl Print, rest: &str) -> Result<()> {
        let (most, rest) = rest.split_once(' ').context("a number")?;
        let most = most.parse::<usize>()?;
        self.build_short(rt, "slow", usize::MAX, most, rest)
    }

    // The index of the files on a shelf that gives little.
    fn build_short(
        &mut self,
        rt: &impl Print,
        word: &str,
        gives: usize,
        most: usize,
        rest: &str,
    ) -> Result<()> {
        let files = mem::replace(&mut self.files, Vec::new(self.alloc));
        let (_, cut) = rest.rsplit_once(' ').context("a file")?;
        let cut = String::from_str(self.alloc, cut)?;
        let mut shelf = ShortShelf {
            files,
            cut,
            gives,
            most,
        };
        self.build(rt, word, &mut shelf, rest)
    }

    /// The index of files of the folder in which the program runs.
    pub fn index_on_disk(&mut self, rt: &HostRuntime, rest: &str) -> Result<()> {
        let mut shelf = FileShelf::new(SystemFiles::new(rt, [None, None]));
        self.build(rt, "disk", &mut shelf, rest)
    }

    // Builds the index of a shape and these files, and prints its counts or why there is none.
    fn build<F: Shelf>(
        &mut self,
        rt: &impl Print,
        word: &str,
        shelf: &mut F,
        rest: &str,
    ) -> Result<()> {
        let mut words = rest.split_whitespace();
        let shape: Shape = shape_of(words.next().context("a shape")?).context("such a shape")?;
        let mut names = Vec::new(self.alloc);
        for name in words {
            names.push(String::from_str(self.alloc, name)?)?;
        }
        self.index = None;
        match index_of(self.alloc, shelf, &names, &shape)? {
            Ok(index) => {
                let c = index.counts();
                println!(rt;
                    "{word} {rest}: slots {} doubled {} invalid {} foreign {} late {}",
                    c.slots, c.doubled, c.invalid, c.foreign, c.late
                )?;
                self.index = Some(index);
            }
            Err(fault) => println!(rt; "{word} {rest}: {fault}")?,
        }
        Ok(())
    }

    // The indexes of recordings of a shape that are a good one broken.
    fn broken(&self, rt: &impl Print, rest: &str) -> Result<()> {
        let (shape, text) = rest.split_once(' ').context("a shape and bytes")?;
        let good = decode(self.alloc, text)?;
        let mut reader = BrokenRecording {
            shape: shape_of(shape).context("such a shape")?,
            good: &good,
        };
        print_broken(rt, self.alloc, &mut reader, shape, &good)
    }

    // Where the last index has a frame.
    fn find(&self, rt: &impl Print, rest: &str) -> Result<()> {
        let mut words = rest.split_whitespace();
        let thread = words.next().context("a thread")?.parse::<u16>()?;
        let second = words.next().context("a second")?.parse::<i64>()?;
        let frame = words.next().context("a number")?.parse::<u32>()?;
        let index = self.index.as_ref().context("no index")?;
        match index.find(thread, second, frame) {
            Some(slot) => println!(rt; "find {rest}: file {} byte {}", slot.file, slot.at)?,
            None => println!(rt; "find {rest}: none")?,
        }
        Ok(())
    }
}
