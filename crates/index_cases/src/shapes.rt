//! The shapes of the cases: one channel of two bits, station 1.

use vdif_frame::Shape;

// Frames of 40 bytes, two a second.
const SMALL: Shape = Shape {
    legacy: false,
    frame_bytes: 40,
    chans_log2: 0,
    bits: 2,
    station: 1,
    frames: 2,
};

// Legacy frames of 24 bytes, two a second.
const LEGACY: Shape = Shape {
    legacy: true,
    frame_bytes: 24,
    chans_log2: 0,
    bits: 2,
    station: 1,
    frames: 2,
};

// Frames of 8032 bytes, four a second, of which the headers alone are read.
const LONG: Shape = Shape {
    legacy: false,
    frame_bytes: 8032,
    chans_log2: 0,
    bits: 2,
    station: 1,
    frames: 4,
};

/// The shape of this word.
pub fn shape_of(word: &str) -> Option<Shape> {
    match word {
        "small" => Some(SMALL),
        "legacy" => Some(LEGACY),
        "long" => Some(LONG),
        _ => None,
    }
}
