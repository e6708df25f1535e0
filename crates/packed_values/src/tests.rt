ghost use Rattle.std.specs.Prelude.{◌≡◌, ◌<◌, ◌≤◌, length, unsigned_abs};

use super::*;
use byte_streams::Row;
use std::test::*;

// None, and the 31 times 31 values of components from -15 to 15.
#[test]
fn values_come_back(rt: HostRuntime) {
    assert_eq!(rt; unpack(pack(None)), None);
    for place in 0..961_u16 {
        let value = Some(((place / 31) as i8 - 15, (place % 31) as i8 - 15));
        assert_eq!(rt; unpack(pack(value)), value);
    }
}

// Whether a row is the streams that have these bytes.
fn is_turning(row: &Row, re: &[u8], im: &[u8], there: &[u8], bias: u8) -> bool {
    match row {
        Row::Turning(s) => s.re == re && s.im == im && s.there == there && s.bias == bias,
        Row::Still(_) => false,
    }
}

// Whether a row is the levels that have these bytes and this direction.
fn is_still(row: &Row, level: &[u8], bias: u8, re: i64, im: i64) -> bool {
    match row {
        Row::Turning(_) => false,
        Row::Still(s) => {
            s.level.bytes == level
                && s.level.bias == bias
                && s.direction.re == re
                && s.direction.im == im
        }
    }
}

// The values (-3, 0), (1, 0), twelve times none, (3, 3), (0, 3) and (-3, 0) are cut two places before the first and two past the last.
#[test]
fn a_row_of_codes_is_cut_past_its_ends(rt: HostRuntime) {
    let mut codes = [0; 17];
    codes[0] = 8;
    codes[1] = 136;
    codes[14] = 201;
    codes[15] = 202;
    codes[16] = 8;
    let row = Packed::Codes(&codes);
    let mut re = [9; 5];
    let mut im = [9; 5];
    let mut there = [9; 5];
    let cut = row.row_from(-2, &mut re, &mut im, &mut there);
    assert!(rt;
        is_turning(
            &cut,
            &[3, 3, 0, 4, 3],
            &[3, 3, 3, 3, 3],
            &[0, 0, 1, 1, 0],
            3
        )
    );
    let cut = row.row_from(14, &mut re, &mut im, &mut there);
    assert!(rt;
        is_turning(
            &cut,
            &[6, 3, 0, 3, 3],
            &[6, 6, 3, 3, 3],
            &[1, 1, 1, 0, 0],
            3
        )
    );
}

// The sixteen levels from -15 to 15 are turned by the direction 3, and 15, -15, 1 and -1 behind them by the directions 6, 5, 2 and 4.
#[test]
fn codes_of_four_bits_have_the_bias_15(rt: HostRuntime) {
    let codes = [
        59, 123, 43, 107, 27, 91, 11, 75, 139, 203, 155, 219, 171, 235, 187, 251, 254, 61, 138, 76,
    ];
    let row = Packed::Codes(&codes);
    let mut re = [9; 20];
    let mut im = [9; 20];
    let mut there = [9; 20];
    let cut = row.row_from(0, &mut re, &mut im, &mut there);
    assert!(rt;
        is_turning(
            &cut,
            &[
                30, 28, 26, 24, 22, 20, 18, 16, 14, 12, 10, 8, 6, 4, 2, 0, 15, 30, 15, 16,
            ],
            &[
                0, 2, 4, 6, 8, 10, 12, 14, 16, 18, 20, 22, 24, 26, 28, 30, 0, 30, 16, 15,
            ],
            &[1; 20],
            15,
        )
    );
}

// The half bytes of the levels -15, -13, .. 15, and of -15, 15, -3 and 1, with the bias 15, and of the opposite levels.
const HALVES: [u8; 20] = [
    3, 7, 2, 6, 1, 5, 0, 4, 8, 12, 9, 13, 10, 14, 11, 15, 3, 15, 0, 8,
];

const LEVELS: [u8; 20] = [
    0, 2, 4, 6, 8, 10, 12, 14, 16, 18, 20, 22, 24, 26, 28, 30, 0, 30, 12, 16,
];

const OPPOSITES: [u8; 20] = [
    30, 28, 26, 24, 22, 20, 18, 16, 14, 12, 10, 8, 6, 4, 2, 0, 30, 0, 18, 14,
];

// How many times a level counts in the real part and in the imaginary one, by four directions.
const WEIGHTS: [(i64, i64); 4] = [(1, 0), (1, 1), (0, 1), (-1, 1)];

// A direction from 4 on is the opposite of one below 4.
#[test]
fn codes_of_one_direction_are_levels(rt: HostRuntime) {
    for direction in 0..8_u8 {
        let mut codes = [0; 20];
        for k in 0..20 {
            codes[k] = (HALVES[k] << 4) | 8 | direction;
        }
        let mut re = [9; 20];
        let mut im = [9; 20];
        let mut there = [9; 20];
        let row = Packed::Codes(&codes).row_from(0, &mut re, &mut im, &mut there);
        let levels = if direction < 4 { LEVELS } else { OPPOSITES };
        let weights = WEIGHTS[usize::from(direction % 4)];
        assert!(rt; is_still(&row, &levels, 15, weights.0, weights.1));
    }
}

// The levels 3, -1 and 1 by the direction 5, in a row of more codes, and the opposite of 1 by the direction 1.
#[test]
fn levels_of_two_bits_have_the_bias_3(rt: HostRuntime) {
    let codes = [0, 205, 77, 141, 137, 255];
    let row = Packed::Codes(&codes);
    let mut re = [9; 4];
    let mut im = [9; 4];
    let mut there = [9; 4];
    let cut = row.row_from(1, &mut re, &mut im, &mut there);
    assert!(rt; is_still(&cut, &[0, 4, 2, 4], 3, 1, 1));
}

// The value 1 seventeen times by one direction but for one place.
#[test]
fn a_row_that_turns_or_stops_is_both_components(rt: HostRuntime) {
    let mut codes = [136; 17];
    let mut re = [9; 17];
    let mut im = [9; 17];
    let mut there = [9; 17];
    let mut ones = [1; 17];
    let past = Packed::Codes(&codes).row_from(1, &mut re, &mut im, &mut there);
    ones[16] = 0;
    let mut reals = [4; 17];
    reals[16] = 3;
    assert!(rt; is_turning(&past, &reals, &[3; 17], &ones, 3));
    codes[16] = 0;
    let none = Packed::Codes(&codes).row_from(0, &mut re, &mut im, &mut there);
    assert!(rt; is_turning(&none, &reals, &[3; 17], &ones, 3));
    codes[16] = 138;
    let turned = Packed::Codes(&codes).row_from(0, &mut re, &mut im, &mut there);
    let mut imaginaries = [3; 17];
    imaginaries[16] = 4;
    assert!(rt; is_turning(&turned, &reals, &imaginaries, &[1; 17], 3));
    let empty = Packed::Codes(&codes).row_from(3, &mut [], &mut [], &mut []);
    assert_eq!(rt; empty.len(), 0);
}

// Whether a row of 70 codes of the value (1, 0), but for one of (0, 1) or of none, is both components.
fn turns_with(codes: &mut [u8; 70], code: u8, place: usize) -> bool
    requires place { place < 70 }
{
    let old = codes[place];
    codes[place] = code;
    let mut re = [9; 70];
    let mut im = [9; 70];
    let mut there = [9; 70];
    let row = Packed::Codes(codes).row_from(0, &mut re, &mut im, &mut there);
    let one = code / 8 % 2;
    let mut reals = [4; 70];
    let mut imaginaries = [3; 70];
    let mut ones = [1; 70];
    reals[place] = 3;
    imaginaries[place] = 3 + one;
    ones[place] = one;
    let turns = is_turning(&row, &reals, &imaginaries, &ones, 3);
    codes[place] = old;
    turns
}

// Of 70 codes of the value (1, 0), the one at each place in turn becomes (0, 1), none, or (15, 0).
#[test]
fn one_code_that_differs_is_seen_at_each_place(rt: HostRuntime) {
    let mut codes = [136; 70];
    for place in 0..70 {
        assert!(rt; turns_with(&mut codes, 138, place));
        assert!(rt; turns_with(&mut codes, 130, place));
        codes[place] = 248;
        let mut levels = [16; 70];
        levels[place] = 30;
        let mut re = [9; 70];
        let mut im = [9; 70];
        let mut there = [9; 70];
        let row = Packed::Codes(&codes).row_from(0, &mut re, &mut im, &mut there);
        assert!(rt; is_still(&row, &levels, 15, 1, 0));
        codes[place] = 136;
    }
}

// How many of 600 samples from place `start` on are alike, where the codes from a place on are other ones.
fn alike_with(code: u8, place: usize, start: i64, most: usize) -> usize
    requires place { place ≤ 600 }
    requires start { unsigned_abs start ≤ 600 }
{
    let mut codes = [142; 600];
    codes[0] = 74;
    codes[place..].fill(code);
    Packed::Codes(&codes).alike_from(start, most)
}

// From a place on codes have another direction, or no value.
#[test]
fn codes_are_alike_up_to_one_that_differs(rt: HostRuntime) {
    for place in 1..600 {
        assert_eq!(rt; alike_with(139, place, 0, 600), place);
        assert_eq!(rt; alike_with(6, place, 0, 600), place);
        assert_eq!(rt; alike_with(139, place, 0, place - 1), place - 1);
    }
    assert_eq!(rt; alike_with(78, 9, -7, 600), 7);
    assert_eq!(rt; alike_with(78, 9, -7, 5), 5);
    assert_eq!(rt; alike_with(78, 9, 1, 900), 599);
    assert_eq!(rt; alike_with(78, 9, 600, 900), 900);
    assert_eq!(rt; alike_with(78, 9, 599, 0), 0);
}

// The values (15, -15), none and (-1, 2) are cut two places before the first and one past the last.
#[test]
fn a_row_of_words_is_cut_past_its_ends(rt: HostRuntime) {
    let words = [pack(Some((15, -15))), pack(None), pack(Some((-1, 2)))];
    let row = Packed::Words(Words { words: &words });
    let mut re = [9; 6];
    let mut im = [9; 6];
    let mut there = [9; 6];
    let cut = row.row_from(-2, &mut re, &mut im, &mut there);
    assert!(rt;
        is_turning(
            &cut,
            &[15, 15, 30, 15, 14, 15],
            &[15, 15, 0, 15, 17, 15],
            &[0, 0, 1, 0, 1, 0],
            15,
        )
    );
    assert_eq!(rt; row.alike_from(-2, 6), 6);
}
