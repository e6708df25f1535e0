//! The headers of frames.

use crate::text::hex;
use anyhow::{Context, Result, ensure};
use std::alloc::Global;
use std::io;
use vdif_frame::{Header, Shape, agrees, first_sample};

/// The bytes of the frame that the lines speak of.
#[derive(Drop)]
pub struct Frame {
    bytes: Vec<u8>,
}

// The shape with which headers are compared: frames of 40 bytes, one channel of two bits, station 1, two
// frames a second.
const SHAPE: Shape = Shape {
    legacy: false,
    frame_bytes: 40,
    chans_log2: 0,
    bits: 2,
    station: 1,
    frames: 2,
};

impl Frame {
    pub fn new(alloc: Global) -> Frame {
        Frame {
            bytes: Vec::new(alloc),
        }
    }

    /// Prints the answer to a line of these; false where its word is another.
    pub fn read(&mut self, rt: &impl Print, alloc: Global, word: &str, rest: &str) -> Result<bool> {
        match word {
            "frame" => {
                self.bytes = hex(alloc, rest)?;
                println!(rt; "{} bytes", self.bytes.len())?;
            }
            "shape" => {
                let (head, chans) = (SHAPE.head_bytes(), SHAPE.chans());
                println!(rt; "{head} {chans} {}", SHAPE.samples_per_frame())?;
            }
            "header" => print_header(rt, &self.bytes)?,
            "agrees" => println!(rt; "{:?}", agrees(&self.header()?, &SHAPE))?,
            "place" => {
                let (second, rate) = rest.split_once(' ').context("second and rate")?;
                let (second, rate) = (second.parse::<i64>()?, rate.parse::<u32>()?);
                println!(rt; "{}", first_sample(&self.header()?, &SHAPE, second, rate))?;
            }
            "write" => self.write(rt, alloc, rest.parse::<usize>()?)?,
            _ => return Ok(false),
        }
        Ok(true)
    }

    fn header(&self) -> Result<Header> {
        Header::read(&self.bytes).context("no header")
    }

    // Writes the frame's header over so many bytes AA.
    fn write(&self, rt: &impl Print, alloc: Global, len: usize) -> Result<()> {
        let header = self.header()?;
        let least = if header.legacy { 16 } else { 32 };
        ensure!(least <= len, "too few bytes for a header");
        let mut out = vec![in alloc; 0xAA; len]?;
        header.write(&mut out);
        for byte in out.iter() {
            print!(rt; "{byte:02X} ")?;
        }
        println!(rt; "")?;
        Ok(())
    }
}

fn print_header(rt: &impl Print, bytes: &[u8]) -> io::Result<()> {
    let Some(h) = Header::read(bytes) else {
        return println!(rt; "none");
    };
    let (invalid, legacy, complex) = (h.invalid, h.legacy, h.complex);
    print!(rt; "invalid {invalid} legacy {legacy} seconds {} ", h.seconds)?;
    print!(rt; "spare {} epoch {} frame {} ", h.spare, h.epoch, h.frame)?;
    print!(rt;
        "version {} chans_log2 {} units {} ",
        h.version, h.chans_log2, h.units
    )?;
    print!(rt; "complex {complex} bits {} thread {} ", h.bits, h.thread)?;
    println!(rt; "station {} extended {:?}", h.station, h.extended)
}
