//! Times in text.
ghost use Rattle.std.specs.Prelude.{◌≡◌, ◌≤◌, ◌<◌, ◌^◌, ◌-◌, ◌+◌, ◌==◌, if◌then◌else◌, length, drop, true, Some, None, IfSome, IfOk, pos, ◌≤ℤ◌, ◌<ℤ◌};
ghost use Rattle.num_time.specs.Numerals.{are_digits};
ghost use Rattle.num_time.specs.Times.{digits_at, number_at, year_of, has_form, is_end, is_time, is_time_year, is_time_of_day, has_day, day_second, second_at, vex_second_of, IsSecond};

use crate::digits::{are_digits, are_zeros, number_after};
use jiff_core::civil::Date;
use thiserror::Error;

/// Why a text is no time. The first in this order that applies is the answer.
#[derive(Clone, Copy, Debug, PartialEq, Eq, Error)]
pub enum TimeFault {
    #[error("no time of the form 2010y113d20h29m00s in the years 1970 to 2099")]
    Shape,
    #[error("the year has no such day")]
    DayOfYear,
    #[error("the day has no such time")]
    TimeOfDay,
}

// The number at the places from `a` up to `b`.
fn number_at(text: &[u8], a: usize, b: usize) -> u32
    requires order { a ≤ b }
    requires few { b - a ≤ 4 }
    requires inside { b ≤ length text.now }
    requires digits { digits_at text.now a b ≡ true }
    ensures value { result ≡ number_at text.now a b }
    ensures bound { result < 10 ^ (b - a) }
{
    number_after(0, &text[a..b]) as u32
}

// Whether a text begins as 0000y000d00h00m00 does, with any digit for a 0.
#[tactic(auto, unfolding(crate::specs::Times::has_form, crate::specs::Times::digits_at))]
fn has_form(text: &[u8]) -> bool
    requires { 17 ≤ length text.now }
    ensures { result ≡ has_form text.now }
{
    are_digits(&text[0..4])
        && text[4] == b'y'
        && are_digits(&text[5..8])
        && text[8] == b'd'
        && are_digits(&text[9..11])
        && text[11] == b'h'
        && are_digits(&text[12..14])
        && text[14] == b'm'
        && are_digits(&text[15..17])
}

// Whether a time ends so: an s, or a point, one or more zeros and an s.
#[tactic(auto, unfolding(crate::specs::Times::is_end))]
fn is_end(rest: &[u8]) -> bool
    ensures { result ≡ is_end rest.now }
{
    let n = rest.len();
    if n == 1 {
        return rest[0] == b's';
    }
    n >= 3 && rest[0] == b'.' && are_zeros(&rest[1..n - 1]) && rest[n - 1] == b's'
}

// Whether a text of the form is of the years 1970 to 2099.
#[tactic(auto, unfolding(crate::specs::Times::has_form))]
fn has_year(text: &[u8]) -> bool
    requires long { 17 ≤ length text.now }
    requires form { has_form text.now ≡ true }
    ensures { result ≡ is_time_year (year_of text.now) }
{
    let year = number_at(text, 0, 4);
    1970 <= year && year <= 2099
}

// Whether a text has the shape of a time of the years 1970 to 2099.
#[tactic(auto, unfolding(crate::specs::Times::is_time))]
fn is_time(text: &[u8]) -> bool
    ensures { result ≡ is_time text.now }
{
    text.len() >= 17 && has_form(text) && is_end(&text[17..]) && has_year(text)
}

// The second at which a day of a year begins; None where the year has no such day.
fn day_second(year: u32, day: u32) -> Option<i64>
    requires first { 1970 ≤ year }
    requires last { year ≤ 2099 }
    requires days { day < 1000 }
    ensures value { result ≡ (if has_day year day then Some (day_second year day) else None) }
    ensures bound { IfSome result (λ s. (pos 0 ≤ℤ s) × (s ≤ℤ pos 4102358400)) }
{
    match Date::from_day_of_year(year as i16, day as i16) {
        Ok(date) => Some(86_400 * i64::from(date.to_unix_epoch_day())),
        Err(_) => None,
    }
}

// Whether a day has this time.
fn is_time_of_day(hour: u32, minute: u32, second: u32) -> bool
    ensures { result ≡ is_time_of_day hour minute second }
{
    hour <= 23 && minute <= 59 && second <= 59
}

// The second of a time.
#[tactic(auto, unfolding(crate::specs::Times::second_at))]
fn second_at(year: u32, day: u32, hour: u32, minute: u32, second: u32) -> Result<i64, TimeFault>
    requires first { 1970 ≤ year }
    requires last { year ≤ 2099 }
    requires days { day < 1000 }
    ensures value { result ≡ second_at year day hour minute second }
    ensures years { IfOk result IsSecond }
{
    let Some(start) = day_second(year, day) else {
        return Err(TimeFault::DayOfYear);
    };
    if !is_time_of_day(hour, minute, second) {
        return Err(TimeFault::TimeOfDay);
    }
    Ok(start + i64::from(3600 * hour + 60 * minute + second))
}

/// The second, counted from 1970-01-01 00:00 with days of 86,400, of a time in VEX: `2010y113d20h29m00s`,
/// where a point and zeros may stand before the `s`. The years are 1970 to 2099.
#[tactic(auto, unfolding(crate::specs::Times::vex_second_of, crate::specs::Times::is_time, crate::specs::Times::has_form))]
pub fn vex_second(text: &[u8]) -> Result<i64, TimeFault>
    ensures value { result ≡ vex_second_of text.now }
    ensures years { IfOk result IsSecond }
{
    if !is_time(text) {
        return Err(TimeFault::Shape);
    }
    let year = number_at(text, 0, 4);
    let day = number_at(text, 5, 8);
    let hour = number_at(text, 9, 11);
    let minute = number_at(text, 12, 14);
    let second = number_at(text, 15, 17);
    second_at(year, day, hour, minute, second)
}
