ghost use Rattle.std.specs.Prelude.{◌≤◌, ◌+◌, ◌*◌, length};
ghost use Rattle.sample_unpack.specs.Level.{IsWidth};

use super::*;
use sample_unpack::sample_at;
use std::test::*;

#[test]
fn values_in_bytes(rt: HostRuntime) {
    assert_eq!(rt; value_of(0), None);
    assert_eq!(rt; value_of(4), None);
    assert_eq!(rt; value_of(240 + 7), None);
    assert_eq!(rt; value_of(8), Some((-3, 0)));
    assert_eq!(rt; value_of(72 + 4), Some((1, 0)));
    assert_eq!(rt; value_of(200 + 1), Some((3, 3)));
    assert_eq!(rt; value_of(200 + 2), Some((0, 3)));
    assert_eq!(rt; value_of(56), Some((-15, 0)));
    assert_eq!(rt; value_of(120 + 6), Some((0, 13)));
    assert_eq!(rt; value_of(248 + 3), Some((-15, 15)));
}

// The byte E4 has the codes 0 to 3, the lowest bits first, and the byte 1B has them the other way round.
#[test]
fn levels_of_a_channel_alone(rt: HostRuntime) {
    let mut codes = [0; 10];
    take_levels(&[0xE4, 0xE4, 0x1B], 2, 1, 0, 1, &mut codes);
    assert_eq!(rt; codes, [72, 136, 200, 8, 72, 136, 200, 200, 136, 72]);
    let mut few = [0; 2];
    take_levels(&[0xE4, 0x1B], 2, 1, 0, 1, &mut few);
    assert_eq!(rt; few, [72, 136]);
}

#[test]
fn levels_of_the_second_channel(rt: HostRuntime) {
    let mut codes = [0; 3];
    take_levels(&[0xE4, 0xE4], 2, 2, 1, 1, &mut codes);
    assert_eq!(rt; codes, [200, 72, 200]);
}

#[test]
fn levels_of_two_channels(rt: HostRuntime) {
    let array = [0xE4, 0x1B, 0x2D, 0xB1];
    let mut second = [0; 7];
    take_levels(&array, 2, 2, 1, 1, &mut second);
    assert_eq!(rt; second, [200, 136, 8, 200, 8, 8, 136]);
    let mut first = [0; 8];
    take_levels(&array, 2, 2, 0, 0, &mut first);
    assert_eq!(rt; first, [8, 136, 200, 72, 72, 136, 72, 200]);
}

#[test]
fn levels_of_four_channels(rt: HostRuntime) {
    let array = [0xE4, 0x1B, 0x2D, 0xB1];
    let mut third = [0; 4];
    take_levels(&array, 2, 4, 2, 0, &mut third);
    assert_eq!(rt; third, [136, 72, 136, 200]);
    let mut fourth = [0; 3];
    take_levels(&array, 2, 4, 3, 1, &mut fourth);
    assert_eq!(rt; fourth, [8, 8, 136]);
}

#[test]
fn levels_of_one_bit(rt: HostRuntime) {
    let mut codes = [0; 6];
    take_levels(&[0xE4], 1, 1, 0, 2, &mut codes);
    assert_eq!(rt; codes, [136, 72, 72, 136, 136, 136]);
    let mut over_bytes = [0; 19];
    take_levels(&[0xE4, 0x1B, 0x2D], 1, 1, 0, 3, &mut over_bytes);
    assert_eq!(rt;
        over_bytes,
        [
            72, 72, 136, 136, 136, 136, 136, 72, 136, 136, 72, 72, 72, 136, 72, 136, 136, 72, 136
        ]
    );
}

#[test]
fn levels_of_one_bit_in_channels(rt: HostRuntime) {
    let array = [0xE4, 0x1B, 0x2D, 0xB1];
    let mut of_two = [0; 11];
    take_levels(&array, 1, 2, 1, 1, &mut of_two);
    assert_eq!(rt; of_two, [72, 136, 136, 136, 136, 72, 72, 72, 136, 136, 72]);
    let mut of_four = [0; 7];
    take_levels(&array, 1, 4, 3, 1, &mut of_four);
    assert_eq!(rt; of_four, [136, 136, 72, 136, 72, 72, 136]);
    let mut of_eight = [0; 4];
    take_levels(&array, 1, 8, 2, 0, &mut of_eight);
    assert_eq!(rt; of_eight, [136, 72, 136, 72]);
}

// The codes 0 to 15, the lower half of a byte first.
const SIXTEEN: [u8; 8] = [0x10, 0x32, 0x54, 0x76, 0x98, 0xBA, 0xDC, 0xFE];

#[test]
fn levels_of_four_bits(rt: HostRuntime) {
    let mut codes = [0; 16];
    take_levels(&SIXTEEN, 4, 1, 0, 0, &mut codes);
    assert_eq!(rt;
        codes,
        [
            56, 120, 40, 104, 24, 88, 8, 72, 136, 200, 152, 216, 168, 232, 184, 248
        ]
    );
    let levels = [-15, -13, -11, -9, -7, -5, -3, -1, 1, 3, 5, 7, 9, 11, 13, 15];
    for (place, level) in levels.iter().enumerate() {
        assert_eq!(rt; value_of(codes[place]), Some((*level, 0)));
    }
    let mut from_the_fourth = [0; 6];
    take_levels(
        &[0xE4, 0x1B, 0x2D, 0xB1, 0x70],
        4,
        1,
        0,
        3,
        &mut from_the_fourth,
    );
    assert_eq!(rt; from_the_fourth, [120, 232, 40, 120, 216, 56]);
}

#[test]
fn levels_of_four_bits_in_channels(rt: HostRuntime) {
    let mut first_of_two = [0; 8];
    take_levels(&SIXTEEN, 4, 2, 0, 0, &mut first_of_two);
    assert_eq!(rt; first_of_two, [56, 40, 24, 8, 136, 152, 168, 184]);
    let mut second_of_two = [0; 7];
    take_levels(&SIXTEEN, 4, 2, 1, 1, &mut second_of_two);
    assert_eq!(rt; second_of_two, [104, 88, 72, 200, 216, 232, 248]);
    let mut third_of_four = [0; 4];
    take_levels(&SIXTEEN, 4, 4, 2, 0, &mut third_of_four);
    assert_eq!(rt; third_of_four, [40, 8, 152, 184]);
    let mut fourth_of_four = [0; 3];
    take_levels(&SIXTEEN, 4, 4, 3, 1, &mut fourth_of_four);
    assert_eq!(rt; fourth_of_four, [72, 216, 248]);
}

#[test]
fn levels_of_the_last_of_64_channels(rt: HostRuntime) {
    let mut array = [0; 16];
    array[7] = 0x80;
    let mut codes = [0; 2];
    take_levels(&array, 1, 64, 63, 0, &mut codes);
    assert_eq!(rt; codes, [136, 72]);
    let mut of_four_bits = [0; 64];
    of_four_bits[31] = 0xB0;
    take_levels(&of_four_bits, 4, 64, 63, 0, &mut codes);
    assert_eq!(rt; codes, [216, 56]);
}

// Fills bytes without a pattern.
fn fill_noise(bytes: &mut [u8]) {
    let mut state = 1_u32;
    for i in 0..bytes.len() {
        state = state.wrapping_mul(1_664_525).wrapping_add(1_013_904_223);
        bytes[i] = (state >> 24) as u8;
    }
}

// Whether the codes of the samples of each channel, from sample `first` on, have the levels that `sample_at` gives.
fn channels_have_levels(array: &[u8], bits: u8, chans: u32, first: u32, codes: &mut [u8]) -> bool
    requires width { IsWidth bits }
    requires channels { chans ≤ 64 }
    requires first { first ≤ 10000 }
    requires count { length codes.old ≤ 1000 }
    requires inside { (first + length codes.old) * (chans * bits) ≤ 8 * length array.now }
{
    for chan in 0..chans {
        take_levels(array, bits, chans, chan, u64::from(first), codes);
        for i in 0..codes.len() {
            let level = sample_at(array, bits, chans, chan, first + i as u32);
            if value_of(codes[i]) != Some((level, 0)) {
                return false;
            }
        }
    }
    true
}

// The array ends with the last of 199 levels.
#[test]
fn levels_of_one_bit_to_the_end(rt: HostRuntime) {
    let mut array = [0; 1024];
    fill_noise(&mut array);
    let mut codes = [0; 199];
    assert!(rt; channels_have_levels(&array, 1, 1, 7993, &mut codes));
    assert!(rt; channels_have_levels(&array, 1, 2, 3897, &mut codes));
    assert!(rt; channels_have_levels(&array, 1, 4, 1849, &mut codes));
    assert!(rt; channels_have_levels(&array, 1, 8, 825, &mut codes));
}

#[test]
fn levels_of_two_bits_to_the_end(rt: HostRuntime) {
    let mut array = [0; 1024];
    fill_noise(&mut array);
    let mut codes = [0; 199];
    assert!(rt; channels_have_levels(&array, 2, 1, 3897, &mut codes));
    assert!(rt; channels_have_levels(&array, 2, 2, 1849, &mut codes));
    assert!(rt; channels_have_levels(&array, 2, 4, 825, &mut codes));
    assert!(rt; channels_have_levels(&array, 2, 8, 313, &mut codes));
}

#[test]
fn levels_of_four_bits_to_the_end(rt: HostRuntime) {
    let mut array = [0; 1024];
    fill_noise(&mut array);
    let mut codes = [0; 199];
    assert!(rt; channels_have_levels(&array, 4, 1, 1849, &mut codes));
    assert!(rt; channels_have_levels(&array, 4, 2, 825, &mut codes));
    assert!(rt; channels_have_levels(&array, 4, 4, 313, &mut codes));
    assert!(rt; channels_have_levels(&array, 4, 8, 57, &mut codes));
}

#[test]
fn levels_of_any_length(rt: HostRuntime) {
    let mut array = [0; 1024];
    fill_noise(&mut array);
    let mut codes = [0; 200];
    for n in 0..201 {
        let first = n as u32 % 8;
        assert!(rt; channels_have_levels(&array, 1, 1, first, &mut codes[..n]));
        assert!(rt; channels_have_levels(&array, 2, 1, first, &mut codes[..n]));
        assert!(rt; channels_have_levels(&array, 2, 2, first, &mut codes[..n]));
        assert!(rt; channels_have_levels(&array, 4, 1, first, &mut codes[..n]));
    }
}
