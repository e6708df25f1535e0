//! What the lines describe.

use crate::frames::Frame;
use crate::texts::{append_numbered, bytes_of, replaced};
use anyhow::{Context, Result, bail};
use case_texts::{append_runs, set_byte};
use std::alloc::Global;
use std::mem;

/// The bytes that the lines have described since the last file or piece, the pieces, the files of all cases, and those of the last
/// case with its journal.
#[derive(Drop)]
pub struct CaseFiles {
    alloc: Global,
    bytes: Vec<u8>,
    pieces: Vec<(String, Vec<u8>)>,
    common: Vec<(String, Vec<u8>)>,
    files: Vec<(String, Vec<u8>)>,
    journal: Vec<u8>,
}

impl CaseFiles {
    pub fn new(alloc: Global) -> CaseFiles {
        CaseFiles {
            alloc,
            bytes: Vec::new(alloc),
            pieces: Vec::new(alloc),
            common: Vec::new(alloc),
            files: Vec::new(alloc),
            journal: Vec::new(alloc),
        }
    }

    /// Another case, which has only the files of all cases, and a journal of no bytes.
    pub fn begin(&mut self) {
        self.files = Vec::new(self.alloc);
        self.journal = Vec::new(self.alloc);
    }

    /// A line of a file's bytes, or one that gives them a name.
    pub fn read(&mut self, word: &str, rest: &str) -> Result<()> {
        match word {
            "|" => self.append_line(rest)?,
            "lines" => self.append_lines(rest)?,
            "bytes" => append_runs(&mut self.bytes, rest)?,
            "frame" => Frame::read(self.alloc, rest)?.append(&mut self.bytes)?,
            "frames" => self.append_frames(rest)?,
            "use" => self.append_pieces(rest)?,
            "cut" => self.bytes.truncate(rest.parse::<usize>()?),
            "byte" => set_byte(&mut self.bytes, rest)?,
            "change" => self.change(rest)?,
            "piece" => {
                let piece = self.take_bytes(rest)?;
                self.pieces.push(piece)?;
            }
            "common" => {
                let file = self.take_bytes(rest)?;
                self.common.push(file)?;
            }
            "file" => {
                let file = self.take_bytes(rest)?;
                self.files.push(file)?;
            }
            "journal" => self.journal = mem::replace(&mut self.bytes, Vec::new(self.alloc)),
            _ => bail!("no such line"),
        }
        Ok(())
    }

    // A text, and a line feed.
    fn append_line(&mut self, text: &str) -> Result<()> {
        self.bytes.extend_from_slice(&bytes_of(self.alloc, text)?)?;
        self.bytes.push(b'\n')?;
        Ok(())
    }

    // So many lines, in which `{}` is the number of the line, from 0.
    fn append_lines(&mut self, rest: &str) -> Result<()> {
        let (count, text) = rest.split_once(' ').context("a number and a text")?;
        for number in 0..count.parse::<u32>()? {
            append_numbered(&mut self.bytes, text, number)?;
        }
        Ok(())
    }

    // So many frames of the same fields, numbered from 0 on.
    fn append_frames(&mut self, rest: &str) -> Result<()> {
        let (count, fields) = rest.split_once(' ').unwrap_or((rest, ""));
        let frame = Frame::read(self.alloc, fields)?;
        frame.append_many(count.parse::<u32>()?, &mut self.bytes)
    }

    // The bytes of some pieces.
    fn append_pieces(&mut self, names: &str) -> Result<()> {
        for name in names.split_whitespace() {
            let bytes = find(&self.pieces, name).context("no such piece")?;
            self.bytes.extend_from_slice(bytes)?;
        }
        Ok(())
    }

    // The first of a text in the bytes so far becomes another text.
    fn change(&mut self, rest: &str) -> Result<()> {
        let (old, new) = rest.split_once(" => ").context("two texts")?;
        let old = bytes_of(self.alloc, old)?;
        let new = bytes_of(self.alloc, new)?;
        self.bytes = replaced(self.alloc, &self.bytes, &old, &new)?;
        Ok(())
    }

    // The bytes so far, under a name.
    fn take_bytes(&mut self, name: &str) -> Result<(String, Vec<u8>)> {
        let bytes = mem::replace(&mut self.bytes, Vec::new(self.alloc));
        Ok((String::from_str(self.alloc, name)?, bytes))
    }

    /// The case's journal.
    pub fn journal(&self) -> &[u8] {
        &self.journal
    }

    /// The case's journal has these bytes from then on.
    pub fn set_journal(&mut self, bytes: Vec<u8>) {
        self.journal = bytes;
    }

    /// The case's journal is this piece.
    pub fn keep_journal(&mut self, name: &str) -> Result<()> {
        let name = String::from_str(self.alloc, name)?;
        self.pieces.push((name, self.journal.clone()?))?;
        Ok(())
    }

    /// A file of the case.
    pub fn file(&self, name: &str) -> Option<&[u8]> {
        find(&self.files, name)
    }

    /// The case's files, and those of all cases.
    pub fn all(&self) -> Result<Vec<(String, Vec<u8>)>> {
        let mut files = self.files.clone()?;
        files.extend_from_slice(&self.common)?;
        Ok(files)
    }

    /// The same behind a file of this name with these bytes.
    pub fn all_behind(&self, name: &str, bytes: &[u8]) -> Result<Vec<(String, Vec<u8>)>> {
        let mut files = Vec::new(self.alloc);
        let name = String::from_str(self.alloc, name)?;
        files.push((name, bytes.to_vec(self.alloc)?))?;
        files.extend_from_slice(&self.all()?)?;
        Ok(files)
    }
}

// The bytes under a name.
fn find<'a>(pieces: &'a [(String, Vec<u8>)], wanted: &str) -> Option<&'a [u8]> {
    for (name, bytes) in pieces {
        if name.as_str() == wanted {
            return Some(bytes.as_slice());
        }
    }
    None
}
