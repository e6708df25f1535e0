//! Quantities: a number and its unit.
ghost use Rattle.std.specs.Prelude.{◌≡◌, ◌≤◌, ◌<◌, ◌^◌, length, IfSome, option_map};
ghost use Rattle.std.specs.List.{position_or_len};
ghost use Rattle.vex_schedule.specs.Quantities.{ends_number, cut, number_and_unit, natural, hertz_in, whole_hertz, frequency_of, rate_of, offset_of};

use crate::values::is_text;
use num_time::{NumFault, decimal};
use vex_reader::Value;

// Whether a byte is no character of a number.
fn ends_number(c: u8) -> bool
    ensures { result ≡ ends_number c }
{
    !(c.is_ascii_digit() || c == b'+' || c == b'-' || c == b'.')
}

// The place of the first byte that is no character of a number, or the length where there is none.
fn number_end(text: &[u8]) -> usize
    ensures place { result ≡ position_or_len ends_number text.now }
    ensures inside { result ≤ length text.now }
{
    for (i, c) in text.iter().enumerate() {
        if ends_number(*c) {
            return i;
        }
    }
    text.len()
}

// A text cut after its front of characters of a number.
fn cut(text: &[u8]) -> (&[u8], &[u8])
    ensures { (result.0.now, result.1.now) ≡ cut text.now }
{
    text.split_at(number_end(text))
}

// The number and the unit of a quantity.
fn number_and_unit(value: &Value) -> Option<(&[u8], &[u8])>
    ensures { option_map (λ p. (p.0.now, p.1.now)) result ≡ number_and_unit value.now }
{
    let texts = value.items();
    if texts.len() == 1 {
        return Some(cut(texts[0].bytes()));
    }
    if texts.len() == 2 {
        return Some((texts[0].bytes(), texts[1].bytes()));
    }
    None
}

// A number that is not negative.
fn natural(number: Result<i64, NumFault>) -> Option<u64>
    ensures value { result ≡ natural number }
{
    match number {
        Ok(n) if n >= 0 => Some(n as u64),
        _ => None,
    }
}

// The hertz of a unit of frequency.
#[tactic(auto, unfolding(crate::specs::Quantities::hertz_in))]
fn hertz_in(unit: &[u8]) -> Option<u64>
    ensures value { result ≡ hertz_in unit.now }
    ensures bound { IfSome result (λ hertz. hertz ≤ 1000000000) }
{
    if is_text(unit, b"Hz") {
        Some(1)
    } else if is_text(unit, b"kHz") {
        Some(1_000)
    } else if is_text(unit, b"MHz") {
        Some(1_000_000)
    } else if is_text(unit, b"GHz") {
        Some(1_000_000_000)
    } else {
        None
    }
}

// Millionths that come to a whole number below 2^40.
#[tactic(auto, unfolding(crate::specs::Quantities::whole_hertz))]
fn whole_hertz(millionths: u128) -> Option<u64>
    ensures value { result ≡ whole_hertz millionths }
    ensures bound { IfSome result (λ hertz. hertz < 2 ^ 40) }
{
    let hertz = millionths / 1_000_000;
    if millionths % 1_000_000 == 0 && hertz < 1 << 40 {
        Some(hertz as u64)
    } else {
        None
    }
}

/// A frequency in hertz.
#[tactic(auto, unfolding(crate::specs::Quantities::frequency_of))]
pub(crate) fn frequency(value: &Value) -> Option<u64>
    ensures value { result ≡ frequency_of value.now }
    ensures bound { IfSome result (λ hertz. hertz < 2 ^ 40) }
{
    let (number, unit) = number_and_unit(value)?;
    let hertz = hertz_in(unit)?;
    let millionths = natural(decimal(number, 6))?;
    whole_hertz(u128::from(millionths) * u128::from(hertz))
}

/// A sample rate in samples a second.
#[tactic(auto, unfolding(crate::specs::Quantities::rate_of))]
pub(crate) fn rate(value: &Value) -> Option<u32>
    ensures value { result ≡ rate_of value.now }
    ensures bound { IfSome result (λ rate. 0 < rate) }
{
    let (number, unit) = number_and_unit(value)?;
    let rate = natural(decimal(number, 6))?;
    if is_text(unit, b"Ms/sec") && 0 < rate && rate < 1 << 32 {
        Some(rate as u32)
    } else {
        None
    }
}

/// An offset from a scan's start, in microseconds.
#[tactic(auto, unfolding(crate::specs::Quantities::offset_of))]
pub(crate) fn offset(value: &Value) -> Option<i64>
    ensures { result ≡ offset_of value.now }
{
    let (number, unit) = number_and_unit(value)?;
    if is_text(unit, b"sec") {
        decimal(number, 6).ok()
    } else {
        None
    }
}
