//! A value in a byte.
ghost use Rattle.std.specs.Prelude.{◌≡◌, ◌<◌, None, IfSome, map, slice_index_or};
ghost use Rattle.corr_model.specs.Cell.{AreSmall};
ghost use Rattle.value_codes.specs.Codes.{code_of_half, value_of};

use fringe_rotator::rotate;
use sample_unpack::level;

// The code of four bits of a level's half byte.
fn code_of_half(half: u8) -> u8
    requires { half < 16 }
    ensures code { result ≡ code_of_half half }
    ensures below { result < 16 }
{
    if half < 8 {
        6 + half / 4 - 2 * (half % 4)
    } else {
        6 + half / 4 + 2 * (half % 4)
    }
}

/// The value in a byte; None where bit 3 is 0.
pub fn value_of(code: u8) -> Option<(i8, i8)>
    ensures value { result ≡ value_of code }
    ensures small { IfSome result AreSmall }
{
    if code / 8 % 2 == 0 {
        return None;
    }
    Some(rotate(level(4, code_of_half(code / 16)), 2 * (code % 8)))
}

/// The value in the byte at a place; None past the end.
pub fn value_at(codes: &[u8], place: usize) -> Option<(i8, i8)>
    ensures value { result ≡ slice_index_or (map value_of codes.now) place None }
    ensures small { IfSome result AreSmall }
{
    if place >= codes.len() {
        return None;
    }
    value_of(codes[place])
}
