//! Numbers at the front of a text.
ghost use Rattle.std.specs.Prelude.{◌≡◌, ◌≤◌, ◌<◌, ◌^◌, ◌==◌, ℕ, ℤ, List, length, decimal, MatchOption, FitsSigned};
ghost use Rattle.std.specs.{List.{position_or_len, before_first}, Fmt.{signed_decimal}, Int.{w32}};
ghost use Rattle.fringe_search.specs.Numbers.{IsNumberThen, IsSignedThen, HasNoNumber, HasNoSigned};

use crate::strip::{strip_number, strip_signed};
use std::{slice, str};

// The place of the first byte that ends a word, or the text's length.
fn word_len(text: &[u8], stop: u8) -> usize
    ensures place { result ≡ position_or_len (λ b. b == stop) text.now }
    ensures inside { result ≤ length text.now }
{
    for (i, b) in text.iter().enumerate() {
        if *b == stop {
            return i;
        }
    }
    text.len()
}

// What stands before it.
fn word(text: &[u8], stop: u8) -> &[u8]
    ensures { result.now ≡ before_first (λ b. b == stop) text.now }
{
    &text[..word_len(text, stop)]
}

// The number that a word is, 0 where it is none.
fn parsed(word: &[u8]) -> u32
    ensures { (n : ℕ) → n < 2 ^ 32 → word.now ≡ decimal n → result ≡ n }
{
    match str::from_utf8(word) {
        Ok(word) => number(word),
        Err(_) => 0,
    }
}

fn number(word: &str) -> u32
    ensures { (n : ℕ) → n < 2 ^ 32 → word.now ≡ decimal n → result ≡ n }
{
    match word.parse::<u32>() {
        Ok(n) => n,
        Err(_) => 0,
    }
}

// The number that a byte below the digits ends.
fn number_of(text: &[u8], stop: u8) -> u32
    requires { stop < 48 }
    ensures { (n : ℕ) (behind : List ℕ) → IsNumberThen n stop text.now behind → result ≡ n }
{
    parsed(word(text, stop))
}

// A number of the text, without a leading zero, and the text behind the byte that ends it.
pub(crate) fn take_number<'a>(text: &'a [u8], stop: u8) -> Option<(u32, &'a [u8])>
    requires { stop < 48 }
    ensures taken { MatchOption result (HasNoNumber stop text.now) (λ taken. IsNumberThen taken.0 stop text.now taken.1.now) }
    ensures one { MatchOption result (Unit {0}) (λ taken. (n : ℕ) (behind : List ℕ) → IsNumberThen n stop text.now behind → n ≡ taken.0) }
{
    let n = number_of(text, stop);
    let Some(behind) = strip_number(text, n, slice::from_ref(&stop)) else {
        return None;
    };
    Some((n, behind))
}

// The number that a word is, which may be below zero, or 0.
fn signed_parsed(word: &[u8]) -> i32
    ensures { (z : ℤ) → FitsSigned w32 z → word.now ≡ signed_decimal z → result ≡ z }
{
    match str::from_utf8(word) {
        Ok(word) => signed(word),
        Err(_) => 0,
    }
}

fn signed(word: &str) -> i32
    ensures { (z : ℤ) → FitsSigned w32 z → word.now ≡ signed_decimal z → result ≡ z }
{
    match word.parse::<i32>() {
        Ok(z) => z,
        Err(_) => 0,
    }
}

// The number that a byte below the digits and the sign ends.
fn signed_of(text: &[u8], stop: u8) -> i32
    requires { stop < 45 }
    ensures { (z : ℤ) (behind : List ℕ) → IsSignedThen z stop text.now behind → result ≡ z }
{
    signed_parsed(word(text, stop))
}

// The same as `take_number`, of a number that may be below zero.
pub(crate) fn take_signed<'a>(text: &'a [u8], stop: u8) -> Option<(i32, &'a [u8])>
    requires { stop < 45 }
    ensures taken { MatchOption result (HasNoSigned stop text.now) (λ taken. IsSignedThen taken.0 stop text.now taken.1.now) }
    ensures one { MatchOption result (Unit {0}) (λ taken. (z : ℤ) (behind : List ℕ) → IsSignedThen z stop text.now behind → z ≡ taken.0) }
{
    let z = signed_of(text, stop);
    let Some(behind) = strip_signed(text, i64::from(z), slice::from_ref(&stop)) else {
        return None;
    };
    Some((z, behind))
}
