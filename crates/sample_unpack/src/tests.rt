use super::*;
use std::test::*;

#[test]
fn levels_of_codes(rt: HostRuntime) {
    assert_eq!(rt; level(1, 0), -1);
    assert_eq!(rt; level(1, 1), 1);
    assert_eq!(rt; level(2, 0), -3);
    assert_eq!(rt; level(2, 1), -1);
    assert_eq!(rt; level(2, 2), 1);
    assert_eq!(rt; level(2, 3), 3);
    assert_eq!(rt; level(4, 0), -15);
    assert_eq!(rt; level(4, 7), -1);
    assert_eq!(rt; level(4, 8), 1);
    assert_eq!(rt; level(4, 15), 15);
}

// The byte's pairs of bits, the lowest first, are 00, 01, 10 and 11.
#[test]
fn samples_of_a_byte(rt: HostRuntime) {
    let bytes = [0xE4];
    assert_eq!(rt; sample_at(&bytes, 2, 2, 0, 0), -3);
    assert_eq!(rt; sample_at(&bytes, 2, 2, 1, 0), -1);
    assert_eq!(rt; sample_at(&bytes, 2, 2, 0, 1), 1);
    assert_eq!(rt; sample_at(&bytes, 2, 2, 1, 1), 3);
    assert_eq!(rt; sample_at(&bytes, 1, 1, 0, 1), -1);
    assert_eq!(rt; sample_at(&bytes, 1, 1, 0, 2), 1);
}

#[test]
fn a_byte_of_two_channels(rt: HostRuntime) {
    let mut out = [0; 2];
    unpack(&[0xE4], 2, 2, 0, &mut out);
    assert_eq!(rt; out, [-3, 1]);
    unpack(&[0xE4], 2, 2, 1, &mut out);
    assert_eq!(rt; out, [-1, 3]);
}

// The byte's lower half is the first code.
#[test]
fn two_samples_of_a_byte(rt: HostRuntime) {
    assert_eq!(rt; sample_at(&[0x10], 4, 1, 0, 0), -15);
    assert_eq!(rt; sample_at(&[0x10], 4, 1, 0, 1), -13);
    let mut out = [0; 2];
    unpack(&[0x10, 0xF7], 4, 2, 1, &mut out);
    assert_eq!(rt; out, [-13, 15]);
}

#[test]
fn two_codes_in_a_byte(rt: HostRuntime) {
    let mut out = [0; 2];
    pack(&[0, 1, 7, 15], 4, &mut out);
    assert_eq!(rt; out, [0x10, 0xF7]);
}

#[test]
fn four_codes_in_a_byte(rt: HostRuntime) {
    let mut out = [0];
    pack(&[0, 1, 2, 3], 2, &mut out);
    assert_eq!(rt; out, [0xE4]);
}

#[test]
fn eight_codes_in_a_byte(rt: HostRuntime) {
    let mut out = [0; 2];
    pack(
        &[0, 0, 1, 0, 0, 1, 1, 1, 1, 0, 0, 0, 0, 0, 0, 0],
        1,
        &mut out,
    );
    assert_eq!(rt; out, [0xE4, 0x01]);
}
