//! The shape of frames, and agreement with it.
ghost use Rattle.std.specs.Prelude.{◌≡◌, ◌≤◌, ◌<◌, ◌-◌, ◌*◌, ℕ, IfErr, OnOk, Some, None};
ghost use Rattle.vdif_frame.specs.{Shape.{ShapeFields, IsShape, samples_per_frame, head_bytes, chans_of}, Agreement.{first_field, field_name}};

use crate::Header;
use std::marker::Model;
use variant_name::name_of;

/// What all frames of a station have alike. `frame_bytes` is a frame's length with its header, the
/// number of channels is two to the power `chans_log2`, `bits` (1, 2 or 4) is the number of bits in a
/// sample, and `frames` the number of frames in a second.
#[derive(Clone, Copy, Debug, PartialEq, Eq)]
pub struct Shape {
    pub legacy: bool,
    pub frame_bytes: u32,
    pub chans_log2: u8,
    pub bits: u8,
    pub station: u16,
    pub frames: u32,
}

impl Model for Shape {
    ghost Value = { ShapeFields };

    ghost view = { λ s. record {
      legacy = s.legacy;
      frame_bytes = s.frame_bytes;
      chans_log2 = s.chans_log2;
      bits = s.bits;
      station = s.station;
      frames = s.frames;
    } };

    ghost invariant = { λ s. IsShape (record {
      legacy = s.legacy;
      frame_bytes = s.frame_bytes;
      chans_log2 = s.chans_log2;
      bits = s.bits;
      station = s.station;
      frames = s.frames;
    }) };

    ghost inverse = { λ f. record {
      legacy = f.legacy;
      frame_bytes = f.frame_bytes;
      chans_log2 = f.chans_log2;
      bits = f.bits;
      station = f.station;
      frames = f.frames;
    } };
}

/// A field in which a frame differs from its station's shape.
#[derive(Clone, Copy, Debug, PartialEq, Eq)]
pub enum Field {
    Legacy,
    Length,
    Channels,
    Complex,
    Bits,
    Station,
    FrameNumber,
}

impl Field {
    /// The field's name, as it is written above.
    pub fn name(self) -> &'static str
        ensures { result.now ≡ field_name self }
    {
        name_of!(self: Field { Legacy, Length, Channels, Complex, Bits, Station, FrameNumber })
    }
}

/// Whether a header is that of a frame of this shape; else the first field that differs, in the order
/// of `Field`. The frame's number has to be below the frames in a second.
#[tactic(auto, unfolding(crate::specs::Agreement::first_field))]
pub fn agrees(h: &Header, s: &Shape) -> Result<(), Field>
    ensures same { OnOk result (first_field h.now s.now ≡ None) }
    ensures differs { IfErr result (λ field. first_field h.now s.now ≡ Some field) }
{
    if h.legacy != s.legacy {
        return Err(Field::Legacy);
    }
    if h.units * 8 != s.frame_bytes {
        return Err(Field::Length);
    }
    if h.chans_log2 != s.chans_log2 {
        return Err(Field::Channels);
    }
    if h.complex {
        return Err(Field::Complex);
    }
    if h.bits != s.bits {
        return Err(Field::Bits);
    }
    if h.station != s.station {
        return Err(Field::Station);
    }
    if h.frame >= s.frames {
        return Err(Field::FrameNumber);
    }
    Ok(())
}

impl Shape {
    /// Bytes of the header.
    pub fn head_bytes(&self) -> u32
        ensures value { result ≡ head_bytes self.now.legacy }
        ensures invariant { IsShape self.now }
    {
        if self.legacy { 16 } else { 32 }
    }

    /// The number of channels.
    pub fn chans(&self) -> u32
        ensures value { result ≡ chans_of self.now }
        ensures some { 1 ≤ result }
        ensures most { result ≤ 64 }
    {
        1 << self.chans_log2
    }

    /// Complete samples in a frame.
    pub fn samples_per_frame(&self) -> u32
        ensures value { result ≡ samples_per_frame self.now }
        ensures some { 0 < result }
        ensures most { result ≤ 1048576 }
        ensures exact { result * (self.now.bits * chans_of self.now) ≡ 8 * (self.now.frame_bytes - head_bytes self.now.legacy) }
    {
        8 * (self.frame_bytes - self.head_bytes()) / (u32::from(self.bits) * self.chans())
    }
}
