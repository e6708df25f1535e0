//! What the fields behind a word say.
ghost use Rattle.std.specs.Prelude.{◌≡◌, ◌≤◌, map, drop, IfSome, IfOk, option_map, Some};
ghost use Rattle.num_time.specs.Times.{IsSecond};
ghost use Rattle.job_lines.specs.Values.{field, whole_of, second_of, bounded, number_within, wholes_of, poly_from};

use delay_poly::{Poly, PolyEntry};
use num_time::{decimal, vex_second};
use std::alloc::{AllocError, Global};

/// A field by its place behind the word, counted from 0; one that is not there is empty.
pub fn field<'a>(fields: &[&'a [u8]], i: usize) -> &'a [u8]
    ensures { result.now ≡ field (map (λ field. field.now) fields.now) i }
{
    match fields.get(i) {
        Some(field) => field,
        None => &[],
    }
}

/// The fields from the one at a place on.
pub fn behind<'a, 'b>(fields: &'b [&'a [u8]], n: usize) -> &'b [&'a [u8]]
    ensures { map (λ field. field.now) result.now ≡ drop n (map (λ field. field.now) fields.now) }
{
    if fields.len() < n { &[] } else { &fields[n..] }
}

/// The whole number that a text says.
#[tactic(auto, unfolding(crate::specs::Values::whole_of))]
pub fn whole_of(text: &[u8]) -> Option<i64>
    ensures { result ≡ whole_of text.now }
{
    decimal(text, 0).ok()
}

/// The second that a time names, counted from 1970-01-01.
#[tactic(auto, unfolding(crate::specs::Values::second_of))]
pub fn second_of(text: &[u8]) -> Option<i64>
    ensures value { result ≡ second_of text.now }
    ensures years { IfSome result IsSecond }
{
    vex_second(text).ok()
}

fn bounded(low: u64, high: u64, number: i64) -> Option<u64>
    ensures value { result ≡ bounded low high number }
    ensures range { IfSome result (λ n. (low ≤ n) × (n ≤ high)) }
{
    if number < 0 {
        return None;
    }
    let number = number as u64;
    if low <= number && number <= high {
        Some(number)
    } else {
        None
    }
}

/// The whole number from `low` to `high` that a text says.
#[tactic(auto, unfolding(crate::specs::Values::number_within))]
pub fn number_within(low: u64, high: u64, text: &[u8]) -> Option<u64>
    ensures value { result ≡ number_within low high text.now }
    ensures range { IfSome result (λ n. (low ≤ n) × (n ≤ high)) }
{
    bounded(low, high, whole_of(text)?)
}

// The whole numbers that some texts say, none where one says none.
fn wholes_of(alloc: Global, texts: &[&[u8]]) -> Result<Option<Vec<i64>>, AllocError>
    ensures { IfOk result (λ numbers. option_map (λ numbers. numbers.items) numbers ≡ wholes_of (map (λ text. text.now) texts.now)) }
{
    let mut numbers = Vec::new(alloc);
    for text in texts {
        let Some(number) = whole_of(text) else {
            return Ok(None);
        };
        numbers.push(number)?;
    }
    Ok(Some(numbers))
}

/// The polynomial from a time on of one to six coefficients, each a whole number; `None` where the time names no
/// second, where a text says no whole number, or where they are no polynomial.
pub fn poly_from(
    alloc: Global,
    time: &[u8],
    coeffs: &[&[u8]],
) -> Result<Option<PolyEntry>, AllocError>
    ensures value { IfOk result (λ entry. entry ≡ poly_from time.now (map (λ text. text.now) coeffs.now)) }
    ensures years { IfOk result (λ entry. IfSome entry (λ entry. IsSecond entry.second)) }
    ensures second { IfOk result (λ entry. IfSome entry (λ entry. second_of time.now ≡ Some entry.second)) }
{
    let Some(second) = second_of(time) else {
        return Ok(None);
    };
    let Some(numbers) = wholes_of(alloc, coeffs)? else {
        return Ok(None);
    };
    match Poly::new(&numbers) {
        Some(poly) => Ok(Some(PolyEntry { second, poly })),
        None => Ok(None),
    }
}
