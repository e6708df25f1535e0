ghost use Rattle.std.specs.Prelude.{◌≡◌, ◌<◌, ◌≤◌, ◌+◌, ◌^◌, length, slice_index, unsigned_abs, IfSome, None, if◌then◌else◌};
ghost use Rattle.corr_model.specs.Cell.{is_inside, IsSmall, AreSmall};
ghost use Rattle.bit_planes.specs.Coded.{level_of, coded};

use super::*;
use corr_model::Values;
use std::test::*;
use value_codes::value_at;

// The component of a code.
fn level_of(code: u8) -> i8
    ensures value { result ≡ level_of code }
    ensures small { IsSmall result }
{
    match code {
        0 => 0,
        1 => 1,
        2 => -1,
        3 => 3,
        4 => -3,
        5 => 13,
        6 => -10,
        _ => 15,
    }
}

// The value of a code.
fn coded(code: u8) -> Option<(i8, i8)>
    ensures value { result ≡ coded code }
    ensures small { IfSome result AreSmall }
{
    if code > 63 {
        return None;
    }
    Some((level_of(code % 8), level_of(code / 8)))
}

// 200 samples by their codes.
#[derive(Drop)]
struct Codes {
    codes: [u8; 200],
}

impl Values for Codes {
    ghost samples = { λ v. λ station chan n. if is_inside n 200 then coded (slice_index v.codes (unsigned_abs n)) else None };

    fn z(&self, _station: u32, _chan: u32, n: i64) -> Option<(i8, i8)> {
        if n < 0 || n >= 200 {
            return None;
        }
        coded(self.codes[n as usize])
    }
}

// Samples +3, -1, none and +1, not turned.
#[test]
fn planes_of_four_samples(rt: HostRuntime) -> Result<(), Fail> {
    let mut codes = [64; 200];
    codes[0] = 3;
    codes[1] = 2;
    codes[3] = 1;
    let planes = Planes::build(rt.alloc(), &Codes { codes }, 0, 0, 0, 4)?;
    assert_eq!(rt; planes.from(), 0);
    assert_eq!(rt; planes.to(), 4);
    assert_eq!(rt; planes.word_at(0, 0), 11);
    assert_eq!(rt; planes.word_at(1, 0), 9);
    assert_eq!(rt; planes.word_at(2, 0), 2);
    assert_eq!(rt; planes.word_at(3, 0), 1);
    assert_eq!(rt; planes.word_at(4, 0), 0);
    for plane in 5..17 {
        assert_eq!(rt; planes.word_at(plane, 0), 0);
    }
    assert_eq!(rt; planes.word_at(0, 1), 5);
    assert_eq!(rt; planes.word_at(0, 4), 0);
    assert_eq!(rt; planes.word_at(0, u64::MAX), 0);
    Ok(())
}

// The bits of a component in its eight planes, that of the first plane first: u, v, w and y, each with the signs plus and minus.
fn bits(x: i8) -> u32 {
    match x {
        1 => 1,
        -1 => 2,
        3 => 5,
        -3 => 10,
        13 => 81,
        -10 => 136,
        15 => 85,
        _ => 0,
    }
}

// The bits of a value in the seventeen planes, that of plane 0 first.
fn seventeen(value: Option<(i8, i8)>) -> u32 {
    match value {
        Some((re, im)) => 1 | bits(re) << 1 | bits(im) << 9,
        None => 0,
    }
}

// The bits of the words of the seventeen planes at bit `k`.
fn word_bits(words: &[u64; 17], k: u32) -> u32
    requires { k < 64 }
{
    let mut bits = 0;
    for plane in 0..17 {
        bits |= ((words[plane] >> k & 1) as u32) << plane;
    }
    bits
}

// The words of the seventeen planes from place `at` on.
fn words(planes: &Planes, at: u64) -> [u64; 17] {
    let mut words = [0; 17];
    for plane in 0..17_u8 {
        words[usize::from(plane)] = planes.word_at(plane, at);
    }
    words
}

// Whether the words of planes from 5 to 195 from place `at` on show the values one by one.
fn is_shown(values: &Codes, planes: &Planes, at: u32) -> bool
    requires { at < 2 ^ 16 }
{
    let words = words(planes, u64::from(at));
    for k in 0..64_u32 {
        let sample = 5 + i64::from(at + k);
        let plain = if sample < 195 {
            values.z(0, 0, sample)
        } else {
            None
        };
        if word_bits(&words, k) != seventeen(plain) {
            return false;
        }
    }
    true
}

// The words that have a sample of the range, and those behind it.
#[test]
fn words_from_every_sample(rt: HostRuntime) -> Result<(), Fail> {
    let mut codes = [0; 200];
    let mut state = 1_u32;
    for code in codes.iter_mut() {
        state = state.wrapping_mul(1_664_525).wrapping_add(1_013_904_223);
        *code = (state >> 24) as u8 % 72;
    }
    let values = Codes { codes };
    let planes = Planes::build(rt.alloc(), &values, 0, 0, 5, 195)?;
    assert_eq!(rt; planes.packed().len(), 190);
    for at in 0..220_u32 {
        assert!(rt; is_shown(&values, &planes, at));
    }
    Ok(())
}

// Whether the words of planes from place `at` on show the values of codes one by one.
fn is_coded(codes: &[u8], planes: &Planes, at: usize) -> bool
    requires { at < 2 ^ 16 }
{
    let words = words(planes, at as u64);
    for k in 0..64_u32 {
        if word_bits(&words, k) != seventeen(value_at(codes, at + k as usize)) {
            return false;
        }
    }
    true
}

// Whether the words of planes from each place up to `end` show the values of codes one by one.
fn are_coded(codes: &[u8], planes: &Planes, end: usize) -> bool
    requires { end < 2 ^ 16 }
{
    for at in 0..end {
        if !is_coded(codes, planes, at) {
            return false;
        }
    }
    true
}

// The codes of the 4 levels turned by the 8 directions, and behind them none.
fn numbered_code(n: u8) -> u8 {
    if n < 32 { 64 * (n / 8) + 8 + n % 8 } else { 0 }
}

// Codes of all kinds, in no order.
fn mixed_codes() -> [u8; 200] {
    let mut codes = [0; 200];
    let mut state = 1_u32;
    for code in codes.iter_mut() {
        state = state.wrapping_mul(1_664_525).wrapping_add(1_013_904_223);
        *code = numbered_code((state >> 24) as u8 % 36);
    }
    codes
}

// Planes of 200 codes show their values.
#[test]
fn planes_of_codes(rt: HostRuntime) -> Result<(), Fail> {
    let codes = mixed_codes();
    let planes = Planes::of_codes(7, codes.to_vec(rt.alloc())?);
    assert_eq!(rt; planes.from(), 7);
    assert_eq!(rt; planes.to(), 207);
    assert_eq!(rt; planes.packed().len(), 200);
    assert!(rt; are_coded(&codes, &planes, 220));
    Ok(())
}

// Planes of no codes have no value.
#[test]
fn no_values_without_codes(rt: HostRuntime) -> Result<(), Fail> {
    let planes = Planes::of_codes(7, Vec::new(rt.alloc()));
    assert_eq!(rt; planes.from(), 7);
    assert_eq!(rt; planes.to(), 7);
    assert!(rt; are_coded(&[], &planes, 220));
    Ok(())
}
