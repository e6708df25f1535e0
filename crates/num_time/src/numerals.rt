//! Decimal numbers in text.
ghost use Rattle.std.specs.Prelude.{◌≡◌, ◌≢◌, ◌≤◌, ◌+◌, ◌-◌, ◌^◌, ◌==◌, min, length, drop, true, ℕ, Bool, List};
ghost use Rattle.num_time.specs.{Grammar.{IsNumber, IsWritten}, Numerals.{are_digits, back_of, decimal_of, front_of, is_negative, is_number, is_point, moved_digits, scaled, without_sign}};
ghost use Rattle.std.specs.{List.{position_or_len}, Str.Parse.{digits_value}};

use crate::digits::{are_digits, are_zeros, number_after};
use thiserror::Error;

/// Why a text is no number that can be had. The first in this order that applies is the answer.
#[derive(Clone, Copy, Debug, PartialEq, Eq, Error)]
pub enum NumFault {
    #[error("no decimal number")]
    NotNumber,
    #[error("a digit other than 0 stands behind the last place")]
    TooManyPlaces,
    #[error("too large")]
    TooLarge,
}

// One more than the largest magnitude.
const LIMIT: u64 = 1 << 62;

// As many zeros as there are places at most.
const ZEROS: [u8; 6] = *b"000000";

// Whether a minus stands first.
fn is_negative(text: &[u8]) -> bool
    ensures { result ≡ is_negative text.now }
{
    !text.is_empty() && text[0] == b'-'
}

// The text behind its sign.
fn without_sign(text: &[u8]) -> &[u8]
    ensures { result.now ≡ without_sign text.now }
{
    if !text.is_empty() && (text[0] == b'+' || text[0] == b'-') {
        &text[1..]
    } else {
        text
    }
}

// The place of the first point, or the length where there is none.
fn point_place(text: &[u8]) -> usize
    ensures place { result ≡ position_or_len is_point text.now }
    ensures inside { result ≤ length text.now }
{
    for (i, c) in text.iter().enumerate() {
        if *c == b'.' {
            return i;
        }
    }
    text.len()
}

// What stands behind a place.
fn behind(text: &[u8], place: usize) -> &[u8]
    requires { place ≤ length text.now }
    ensures { result.now ≡ drop (place + 1) text.now }
{
    if place < text.len() {
        &text[place + 1..]
    } else {
        &text[place..]
    }
}

// The number of the digits, with the point moved on by `places`; u64::MAX where it is larger.
fn magnitude(front: &[u8], back: &[u8], places: usize) -> u64
    requires few { places ≤ 6 }
    requires front { are_digits front.now ≡ true }
    requires back { are_digits back.now ≡ true }
    ensures { result ≡ min (digits_value 10 (moved_digits front.now back.now places)) (2 ^ 64 - 1) }
{
    let kept = back.len().min(places);
    let whole = number_after(0, front);
    let digits = number_after(whole, &back[..kept]);
    number_after(digits, &ZEROS[..places - kept])
}

// The number of the digits times 10 to the power `places`.
#[tactic(auto, unfolding(crate::specs::Numerals::scaled))]
fn scaled(negative: bool, front: &[u8], back: &[u8], places: u32) -> Result<i64, NumFault>
    requires few { places ≤ 6 }
    requires front { are_digits front.now ≡ true }
    requires back { are_digits back.now ≡ true }
    ensures { result ≡ scaled negative front.now back.now places }
{
    let places = places as usize;
    if !are_zeros(&back[back.len().min(places)..]) {
        return Err(NumFault::TooManyPlaces);
    }
    let magnitude = magnitude(front, back, places);
    if magnitude >= LIMIT {
        return Err(NumFault::TooLarge);
    }
    let number = magnitude as i64;
    Ok(if negative { -number } else { number })
}

// The number that a text says, split at its sign and at its first point.
#[tactic(auto, unfolding(crate::specs::Numerals::decimal_of, crate::specs::Numerals::is_number))]
fn split_and_scaled(text: &[u8], places: u32) -> Result<i64, NumFault>
    requires { places ≤ 6 }
    ensures { result ≡ decimal_of text.now places }
{
    let body = without_sign(text);
    let point = point_place(body);
    let front = &body[..point];
    let back = behind(body, point);
    if !are_digits(front) || !are_digits(back) || front.is_empty() && back.is_empty() {
        return Err(NumFault::NotNumber);
    }
    scaled(is_negative(text), front, back, places)
}

/// The number that a text says, times 10 to the power `places`: `-5.25` is -525 at 2 places. A number is
/// an optional sign and digits with at most one point; a magnitude of 2^62 or more is too large.
pub fn decimal(text: &[u8], places: u32) -> Result<i64, NumFault>
    requires { places ≤ 6 }
    ensures value { result ≡ decimal_of text.now places }
    ensures written { (negative : Bool) (front back : List ℕ) → IsWritten negative front back text.now → result ≡ scaled negative front back places }
    ensures number { result ≢ Err NumFault.NotNumber → IsNumber text.now }
{
    split_and_scaled(text, places)
}
