//! What the fields behind a word say.
ghost use Rattle.std.specs.Prelude.{◌≡◌, ◌≤◌, ◌<◌, ◌-◌, ◌*◌, ◌%◌, ◌^◌, ◌+◌, ◌++◌, map, length, IfSome, IfOk, option_map, Some, true};
ghost use Rattle.corr_model.specs.Delay.{IsClock};
ghost use Rattle.job_text.specs.Ranges.{IsName, IsSpan};
ghost use Rattle.job_lines.specs.Values.{field, second_of};
ghost use Rattle.job_text.specs.Values.{name_fits, chan_in, lags_in, integration_in, epoch_in, knot_in, rate_in, log2_of, width_of, width_in, frame_bytes_in, clock_in, poly_in, scan_in, band_in};
ghost use Rattle.num_time.specs.Times.{IsSecond};
ghost use Rattle.sample_unpack.specs.Level.{IsWidth};
ghost use Rattle.vdif_frame.specs.Shape.{head_bytes};

use crate::places::{Band, ChanPlace, ScanSpan};
use delay_poly::PolyEntry;
use job_lines::{behind, field, number_within, poly_from, second_of, whole_of};
use station_clock::ClockEntry;
use std::alloc::{AllocError, Global};

/// Whether the records can hold a name.
pub(crate) fn name_fits(name: &[u8]) -> bool
    ensures value { result ≡ name_fits name.now }
    ensures name { result ≡ true → IsName name.now }
{
    1 <= name.len() && name.len() <= 255
}

/// An even number of lags from 2 to 1024.
#[tactic(auto, unfolding(crate::specs::Values::lags_in))]
pub(crate) fn lags_in(fields: &[&[u8]]) -> Option<u32>
    ensures value { result ≡ lags_in (map (λ field. field.now) fields.now) }
    ensures even { IfSome result (λ n. n % 2 ≡ 0) }
    ensures least { IfSome result (λ n. 2 ≤ n) }
    ensures most { IfSome result (λ n. n ≤ 1024) }
{
    let lags = number_within(2, 1024, field(fields, 0))? as u32;
    if lags % 2 == 0 { Some(lags) } else { None }
}

/// The samples of an integration.
pub(crate) fn integration_in(fields: &[&[u8]]) -> Option<u64>
    ensures { result ≡ integration_in (map (λ field. field.now) fields.now) }
{
    number_within(1, 1 << 36, field(fields, 0))
}

/// The samples of an epoch.
pub(crate) fn epoch_in(fields: &[&[u8]]) -> Option<u32>
    ensures { result ≡ epoch_in (map (λ field. field.now) fields.now) }
{
    let samples = number_within(1, 4_194_304, field(fields, 0))?;
    Some(samples as u32)
}

/// The samples from one knot to the next.
pub(crate) fn knot_in(fields: &[&[u8]]) -> Option<u32>
    ensures { result ≡ knot_in (map (λ field. field.now) fields.now) }
{
    let samples = number_within(1, 1 << 24, field(fields, 0))?;
    Some(samples as u32)
}

/// The samples a second.
pub(crate) fn rate_in(fields: &[&[u8]]) -> Option<u32>
    ensures { result ≡ rate_in (map (λ field. field.now) fields.now) }
{
    let samples = number_within(1, (1 << 32) - 1, field(fields, 0))?;
    Some(samples as u32)
}

/// The power of two that a number of channels is.
pub(crate) fn log2_of(n: u64) -> Option<u8>
    ensures value { result ≡ log2_of n }
    ensures most { IfSome result (λ k. k ≤ 6) }
    ensures power { IfSome result (λ k. 2 ^ k ≡ n) }
{
    match n {
        1 => Some(0),
        2 => Some(1),
        4 => Some(2),
        8 => Some(3),
        16 => Some(4),
        32 => Some(5),
        64 => Some(6),
        _ => None,
    }
}

fn width_of(n: u64) -> Option<u64>
    ensures value { result ≡ width_of n }
    ensures width { IfSome result IsWidth }
{
    match n {
        1 => Some(1),
        2 => Some(2),
        4 => Some(4),
        _ => None,
    }
}

/// The bits of a sample.
pub(crate) fn width_in(text: &[u8]) -> Option<u64>
    ensures value { result ≡ width_in text.now }
    ensures width { IfSome result IsWidth }
{
    width_of(number_within(1, 4, text)?)
}

/// The length of a frame that holds whole complete samples.
#[tactic(auto, unfolding(crate::specs::Values::frame_bytes_in))]
pub(crate) fn frame_bytes_in(legacy: bool, bits: u64, chans: u64, text: &[u8]) -> Option<u32>
    requires bits_some { 1 ≤ bits }
    requires bits_most { bits ≤ 4 }
    requires chans_some { 1 ≤ chans }
    requires chans_most { chans ≤ 64 }
    ensures value { result ≡ frame_bytes_in legacy bits chans text.now }
    ensures least { IfSome result (λ n. head_bytes legacy + 8 ≤ n) }
    ensures most { IfSome result (λ n. n ≤ 131072) }
    ensures units { IfSome result (λ n. n % 8 ≡ 0) }
    ensures whole { IfSome result (λ n. 8 * (n - head_bytes legacy) % (bits * chans) ≡ 0) }
{
    let head = if legacy { 16 } else { 32 };
    let n = number_within(head + 8, 131_072, text)?;
    if n % 8 == 0 && 8 * (n - head) % (bits * chans) == 0 {
        Some(n as u32)
    } else {
        None
    }
}

/// A channel and its place, where a complete sample has so many channels.
#[tactic(auto, unfolding(crate::specs::Values::chan_in))]
pub(crate) fn chan_in(chans: u32, fields: &[&[u8]]) -> Option<ChanPlace>
    requires { 1 ≤ chans }
    ensures value { option_map (λ place. (field (map (λ field. field.now) fields.now) 1, place)) result
        ≡ chan_in chans (map (λ field. field.now) fields.now) }
    ensures thread { IfSome result (λ place. place.thread < 1024) }
    ensures index { IfSome result (λ place. place.index < chans) }
    ensures name { IfSome result (λ _. IsName (field (map (λ field. field.now) fields.now) 1)) }
{
    let thread = number_within(0, 1023, field(fields, 2))?;
    let index = number_within(0, u64::from(chans - 1), field(fields, 3))?;
    if !name_fits(field(fields, 1)) {
        return None;
    }
    Some(ChanPlace {
        thread: thread as u16,
        index: index as u32,
    })
}

/// A clock's offset and drift.
#[tactic(auto, unfolding(crate::specs::Values::clock_in))]
pub(crate) fn clock_in(fields: &[&[u8]]) -> Option<ClockEntry>
    ensures value { result ≡ clock_in (map (λ field. field.now) fields.now) }
    ensures clock { IfSome result IsClock }
    ensures second { IfSome result (λ entry. second_of (field (map (λ field. field.now) fields.now) 1) ≡ Some entry.second) }
{
    let second = second_of(field(fields, 1))?;
    let c0 = whole_of(field(fields, 2))?;
    let c1 = whole_of(field(fields, 3))?;
    if c0.unsigned_abs() < 1 << 57 && c1.unsigned_abs() < 1 << 25 {
        Some(ClockEntry { second, c0, c1 })
    } else {
        None
    }
}

/// A polynomial of one to six coefficients.
#[tactic(auto, unfolding(crate::specs::Values::poly_in))]
pub(crate) fn poly_in(alloc: Global, fields: &[&[u8]]) -> Result<Option<PolyEntry>, AllocError>
    ensures value { IfOk result (λ entry. entry ≡ poly_in (map (λ field. field.now) fields.now)) }
    ensures years { IfOk result (λ entry. IfSome entry (λ entry. IsSecond entry.second)) }
    ensures second { IfOk result (λ entry. IfSome entry (λ entry. second_of (field (map (λ field. field.now) fields.now) 1) ≡ Some entry.second)) }
{
    poly_from(alloc, field(fields, 1), behind(fields, 2))
}

/// A scan's span.
#[tactic(auto, unfolding(crate::specs::Values::scan_in))]
pub(crate) fn scan_in(fields: &[&[u8]]) -> Option<ScanSpan>
    ensures value { option_map (λ span. (field (map (λ field. field.now) fields.now) 0, span)) result
        ≡ scan_in (map (λ field. field.now) fields.now) }
    ensures span { IfSome result (λ span. IsSpan (field (map (λ field. field.now) fields.now) 0, span)) }
{
    let second = second_of(field(fields, 1))?;
    let samples = number_within(0, 1 << 40, field(fields, 2))?;
    if name_fits(field(fields, 0)) {
        Some(ScanSpan { second, samples })
    } else {
        None
    }
}

/// A channel's band.
#[tactic(auto, unfolding(crate::specs::Values::band_in))]
pub(crate) fn band_in(fields: &[&[u8]]) -> Option<Band>
    ensures value { option_map (λ band. (field (map (λ field. field.now) fields.now) 0, band)) result
        ≡ band_in (map (λ field. field.now) fields.now) }
    ensures hertz { IfSome result (λ band. band.hertz < 2 ^ 40) }
{
    let hertz = number_within(0, (1 << 40) - 1, field(fields, 1))?;
    let upper = field(fields, 2) == b"U".as_slice();
    Some(Band { hertz, upper })
}
