//! Recordings that are a good one broken.

use crate::sizes::index_of;
use anyhow::Result;
use broken_texts::Reader;
use frame_index::Index;
use mem_devices::MemShelf;
use num_time::epoch_second;
use std::alloc::Global;
use std::fmt::Write;
use vdif_frame::{Header, Shape};

/// The reader of such recordings of a shape, and the good one.
#[derive(Drop)]
pub struct BrokenRecording<'a> {
    pub shape: Shape,
    pub good: &'a [u8],
}

impl Reader for BrokenRecording<'_> {
    fn answer(&mut self, alloc: Global, text: &[u8]) -> Result<String> {
        let names = vec![in alloc; String::from_str(alloc, "a")?]?;
        let files = vec![in alloc; (String::from_str(alloc, "a")?, text.to_vec(alloc)?)]?;
        let mut shelf = MemShelf::new(files, Vec::new(alloc));
        match index_of(alloc, &mut shelf, &names, &self.shape)? {
            Ok(index) => self.found(alloc, &index, text),
            Err(fault) => Ok(format!(in alloc; "{fault}")?),
        }
    }
}

impl BrokenRecording<'_> {
    // The counts, and where the frames of the good recording and of this one are found.
    fn found(&self, alloc: Global, index: &Index, text: &[u8]) -> Result<String> {
        let c = index.counts();
        let mut answer = format!(in alloc;
            "slots {} doubled {} invalid {} foreign {} late {}, found",
            c.slots, c.doubled, c.invalid, c.foreign, c.late
        )?;
        self.append_places(&mut answer, index, self.good)?;
        answer.push_str(", its own")?;
        self.append_places(&mut answer, index, text)?;
        Ok(answer)
    }

    // Where the frame of each slot of a recording is found.
    fn append_places(&self, answer: &mut String, index: &Index, text: &[u8]) -> Result<()> {
        for slot in text.chunks_exact(self.shape.frame_bytes as usize) {
            append_place(answer, index, slot)?;
        }
        Ok(())
    }
}

fn append_place(answer: &mut String, index: &Index, slot: &[u8]) -> Result<()> {
    let Some(header) = Header::read(slot) else {
        answer.push_str(" unread")?;
        return Ok(());
    };
    let second = epoch_second(header.epoch).saturating_add(i64::from(header.seconds));
    match index.find(header.thread, second, header.frame) {
        Some(found) => write!(answer, " {}", found.at)?,
        None => answer.push_str(" none")?,
    }
    Ok(())
}
