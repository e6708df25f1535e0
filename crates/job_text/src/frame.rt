//! The frames of a station.
ghost use Rattle.std.specs.Prelude.{◌≡◌, ◌≤◌, map, option_map, IfSome};
ghost use Rattle.sample_unpack.specs.Level.{IsWidth};
ghost use Rattle.vdif_frame.specs.Shape.{IsShape};
ghost use Rattle.job_text.specs.{Ranges.{IsName, shape_of}, Values.{field, station_in}, Frame.{bare}};

use crate::values::{frame_bytes_in, log2_of, name_fits, width_in};
use job_lines::{field, number_within};

/// What the line of a station says of its frames.
#[derive(Clone, Copy)]
pub(crate) struct Frame {
    pub(crate) id: u16,
    pub(crate) bits: u8,
    pub(crate) chans_log2: u8,
    pub(crate) frame_bytes: u32,
    pub(crate) legacy: bool,
}

/// The frames of a station that has such a key.
#[tactic(auto, unfolding(crate::specs::Values::station_in))]
pub(crate) fn frame_in(fields: &[&[u8]]) -> Option<Frame>
    ensures value { option_map (bare (field (map (λ field. field.now) fields.now) 0)) result ≡ station_in (map (λ field. field.now) fields.now) }
    ensures shape { IfSome result (λ frame. IsShape (shape_of 1 (bare (field (map (λ field. field.now) fields.now) 0) frame))) }
    ensures bits { IfSome result (λ frame. IsWidth frame.bits) }
    ensures name { IfSome result (λ _. IsName (field (map (λ field. field.now) fields.now) 0)) }
{
    let legacy = fields.len() > 5;
    let id = number_within(0, 65_535, field(fields, 1))?;
    let bits = width_in(field(fields, 2))?;
    let chans = number_within(1, 64, field(fields, 3))?;
    let chans_log2 = log2_of(chans)?;
    let frame_bytes = frame_bytes_in(legacy, bits, chans, field(fields, 4))?;
    if !name_fits(field(fields, 0)) {
        return None;
    }
    Some(Frame {
        id: id as u16,
        bits: bits as u8,
        chans_log2,
        frame_bytes,
        legacy,
    })
}
