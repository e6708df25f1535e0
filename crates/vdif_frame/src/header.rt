//! The header of a data frame.
ghost use Rattle.std.specs.Prelude.{◌≡◌, ◌≤◌, ◌<◌, ◌+◌, ◌-◌, ◌*◌, ◌/◌, ◌%◌, ◌^◌, ◌↔◌, ◌++◌, ◌∷◌, [], ℕ, List, false, if◌then◌else◌, length, replicate, take, drop, IsSome, IfSome};
ghost use Rattle.byteorder.specs.Endian.{little_bytes};
ghost use Rattle.vdif_frame.specs.{Header.{HeaderFields, AreInRange, HasHeader, fields_of, header_bytes, word, word_0, word_1, word_2, word_3}, Shape.{head_bytes}};

use byteorder::{ByteOrder, LittleEndian};
use std::marker::Model;

/// A frame's header (VDIF 1.1.1, data frame header). `seconds` are counted from the reference epoch
/// `epoch`, a number of half years from 2000 on, and `frame` is the number within the second, from 0.
/// The number of channels is two to the power `chans_log2`, `bits` the number of bits in a sample, and
/// `units` the frame's length with its header in units of 8 bytes. `thread` tells the threads of a
/// recording apart, `station` the stations; `spare` is two bits that are not assigned. A legacy
/// header's `extended` is zero.
#[derive(Clone, Copy, Debug, PartialEq, Eq)]
pub struct Header {
    pub invalid: bool,
    pub legacy: bool,
    pub seconds: u32,
    pub spare: u8,
    pub epoch: u8,
    pub frame: u32,
    pub version: u8,
    pub chans_log2: u8,
    pub units: u32,
    pub complex: bool,
    pub bits: u8,
    pub thread: u16,
    pub station: u16,
    pub extended: [u8; 16],
}

impl Model for Header {
    ghost Value = { HeaderFields };

    ghost view = { λ h. record {
      invalid = h.invalid;
      legacy = h.legacy;
      seconds = h.seconds;
      spare = h.spare;
      epoch = h.epoch;
      frame = h.frame;
      version = h.version;
      chans_log2 = h.chans_log2;
      units = h.units;
      complex = h.complex;
      bits = h.bits;
      thread = h.thread;
      station = h.station;
      extended = h.extended;
    } };

    ghost invariant = { λ h. AreInRange (record {
      invalid = h.invalid;
      legacy = h.legacy;
      seconds = h.seconds;
      spare = h.spare;
      epoch = h.epoch;
      frame = h.frame;
      version = h.version;
      chans_log2 = h.chans_log2;
      units = h.units;
      complex = h.complex;
      bits = h.bits;
      thread = h.thread;
      station = h.station;
      extended = h.extended;
    }) };

    ghost inverse = { λ f. record {
      invalid = f.invalid;
      legacy = f.legacy;
      seconds = f.seconds;
      spare = f.spare;
      epoch = f.epoch;
      frame = f.frame;
      version = f.version;
      chans_log2 = f.chans_log2;
      units = f.units;
      complex = f.complex;
      bits = f.bits;
      thread = f.thread;
      station = f.station;
      extended = f.extended;
    } };
}

// The number in the bits `high` to `low` of a word.
fn bits(word: u32, high: u32, low: u32) -> u32
    requires order { low ≤ high }
    requires part { high < low + 31 }
    requires inside { high < 32 }
    ensures value { result ≡ word / 2 ^ low % 2 ^ (high + 1 - low) }
    ensures range { result < 2 ^ (high + 1 - low) }
{
    (word >> low) % (1 << (high + 1 - low))
}

// Word `w` of a header.
fn word_at(bytes: &[u8], w: usize) -> u32
    requires { 4 * w + 4 ≤ length bytes.now }
    ensures { result ≡ word bytes.now w }
{
    LittleEndian::read_u32(&bytes[4 * w..])
}

// The extended words of a header.
fn extended_words(bytes: &[u8], legacy: bool) -> [u8; 16]
    requires { legacy ≡ false → 32 ≤ length bytes.now }
    ensures { result ≡ (if legacy then replicate 16 0 else take 16 (drop 16 bytes.now)) }
{
    let mut extended = [0; 16];
    if !legacy {
        extended.copy_from_slice(&bytes[16..32]);
    }
    extended
}

impl Header {
    /// Reads the header that these bytes begin with; None where they are too few, fewer than 16 of a
    /// legacy frame or than 32 of another.
    pub fn read(bytes: &[u8]) -> Option<Header>
        ensures there { IsSome result ↔ HasHeader bytes.now }
        ensures fields { IfSome result (λ h. h ≡ fields_of bytes.now) }
    {
        if bytes.len() < 16 {
            return None;
        }
        let w0 = word_at(bytes, 0);
        let w1 = word_at(bytes, 1);
        let w2 = word_at(bytes, 2);
        let w3 = word_at(bytes, 3);
        let legacy = bits(w0, 30, 30) == 1;
        if !legacy && bytes.len() < 32 {
            return None;
        }
        Some(Header {
            invalid: bits(w0, 31, 31) == 1,
            legacy,
            seconds: bits(w0, 29, 0),
            spare: bits(w1, 31, 30) as u8,
            epoch: bits(w1, 29, 24) as u8,
            frame: bits(w1, 23, 0),
            version: bits(w2, 31, 29) as u8,
            chans_log2: bits(w2, 28, 24) as u8,
            units: bits(w2, 23, 0),
            complex: bits(w3, 31, 31) == 1,
            bits: bits(w3, 30, 26) as u8 + 1,
            thread: bits(w3, 25, 16) as u16,
            station: bits(w3, 15, 0) as u16,
            extended: extended_words(bytes, legacy),
        })
    }

    // Words 0 to 3 of the header.
    fn words(&self) -> [u32; 4]
        ensures { result ≡ word_0 self.now ∷ word_1 self.now ∷ word_2 self.now ∷ word_3 self.now ∷ [] }
    {
        let invalid = u32::from(self.invalid);
        let legacy = u32::from(self.legacy);
        let complex = u32::from(self.complex);
        let w0 = invalid * (1 << 31) + legacy * (1 << 30) + self.seconds;
        let w1 = u32::from(self.spare) * (1 << 30) + u32::from(self.epoch) * (1 << 24) + self.frame;
        let w2 = u32::from(self.version) * (1 << 29)
            + u32::from(self.chans_log2) * (1 << 24)
            + self.units;
        let w3 = complex * (1 << 31)
            + u32::from(self.bits - 1) * (1 << 26)
            + u32::from(self.thread) * (1 << 16)
            + u32::from(self.station);
        [w0, w1, w2, w3]
    }

    /// Writes the header at the front of `out`, 16 bytes of a legacy frame and 32 of another, and
    /// leaves the rest.
    pub fn write(&self, out: &mut [u8])
        requires { head_bytes self.now.legacy ≤ length out.old }
        ensures bytes { out.new ≡ header_bytes self.now ++ drop (head_bytes self.now.legacy) out.old }
        ensures behind { drop (head_bytes self.now.legacy) out.new ≡ drop (head_bytes self.now.legacy) out.old }
        ensures there { HasHeader out.new }
        ensures fields { fields_of out.new ≡ self.now }
        ensures reads_back { (rest : List ℕ) → fields_of (header_bytes self.now ++ rest) ≡ self.now }
    {
        let [w0, w1, w2, w3] = self.words();
        write_words(out, w0, w1, w2, w3);
        if !self.legacy {
            out[16..32].copy_from_slice(&self.extended);
        }
    }
}

// Writes four words at the front of `out`.
fn write_words(out: &mut [u8], w0: u32, w1: u32, w2: u32, w3: u32)
    requires { 16 ≤ length out.old }
    ensures { out.new ≡ (little_bytes 4 w0 ++ little_bytes 4 w1 ++ little_bytes 4 w2 ++ little_bytes 4 w3) ++ drop 16 out.old }
{
    LittleEndian::write_u32(out, w0);
    LittleEndian::write_u32(&mut out[4..], w1);
    LittleEndian::write_u32(&mut out[8..], w2);
    LittleEndian::write_u32(&mut out[12..], w3);
}
