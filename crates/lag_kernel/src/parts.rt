//! The components of held values.
ghost use Rattle.std.specs.Prelude.{◌≡◌, ◌≤◌, length};
ghost use Rattle.byte_streams.specs.Values.{im_of, re_of, there_of};
ghost use Rattle.lag_kernel.specs.Parts.{AreParts};

/// A value with its two components; None where there is no sample.
pub type Value = Option<(i8, i8)>;

/// The most values whose components are held.
const SIZE: usize = 2048;

/// The components of up to 2,048 values, and 1 where there is a value; 0 in all three where there is none.
#[derive(Drop)]
pub struct Parts {
    pub re: [i16; SIZE],
    pub im: [i16; SIZE],
    pub there: [u16; SIZE],
}

impl Parts {
    /// The components of these values.
    pub fn of(values: &[Value]) -> Parts
        requires { length values.now ≤ 2048 }
        ensures { AreParts values.now result }
    {
        let mut re = [0; SIZE];
        let mut im = [0; SIZE];
        let mut there = [0; SIZE];
        for (k, value) in values.iter().enumerate() {
            re[k] = re_of(*value);
            im[k] = im_of(*value);
            there[k] = there_of(*value);
        }
        Parts { re, im, there }
    }
}

// The real component of a value.
fn re_of(value: Value) -> i16
    ensures { result ≡ re_of value }
{
    match value {
        Some((re, _)) => i16::from(re),
        None => 0,
    }
}

// The imaginary component of a value.
fn im_of(value: Value) -> i16
    ensures { result ≡ im_of value }
{
    match value {
        Some((_, im)) => i16::from(im),
        None => 0,
    }
}

// 1 where there is a value.
fn there_of(value: Value) -> u16
    ensures { result ≡ there_of value }
{
    match value {
        Some(_) => 1,
        None => 0,
    }
}
