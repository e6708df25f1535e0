//! The values that planes hold: value codes, or words where they need not be levels turned by directions.
ghost use Rattle.std.specs.Prelude.{◌≡◌, None, slice_index_or};
ghost use Rattle.bit_planes.specs.Held.{AreHeld, values_in};

use packed_values::unpack;
use value_codes::value_at;

// The values, from the first sample on.
#[derive(Drop)]
pub(crate) enum Held {
    Codes(Vec<u8>),
    Words(Vec<u16>),
}

impl Held {
    // The value at a place, none past the last one.
    pub(crate) fn value(&self, k: usize) -> Option<(i8, i8)>
        requires { AreHeld self.now }
        ensures value { result ≡ slice_index_or (values_in self.now) k None }
    {
        match self {
            Held::Codes(codes) => value_at(codes, k),
            Held::Words(words) => {
                if k < words.len() {
                    unpack(words[k])
                } else {
                    None
                }
            }
        }
    }
}
