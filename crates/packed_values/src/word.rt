//! A value in a word.
ghost use Rattle.std.specs.Prelude.{◌≡◌, ◌≤◌, ◌+ℤ◌, pos, IfSome};
ghost use Rattle.byte_streams.specs.Values.{component};
ghost use Rattle.corr_model.specs.Cell.{AreSmall, IsSmall};
ghost use Rattle.packed_values.specs.Words.{IsWord, word_value};

// The word where there is no value: both components 0, with the bias 15.
pub(crate) const NONE: u16 = 495;

// A component as a positive number.
fn biased(component: i8) -> u16
    requires { IsSmall component }
    ensures small { result ≤ 30 }
    ensures number { pos result ≡ component +ℤ pos 15 }
{
    (component + 15) as u16
}

// The component that a biased number stands for.
fn component(biased: u16) -> i8
    requires { biased ≤ 30 }
    ensures small { IsSmall result }
    ensures number { result ≡ component 15 biased }
{
    biased as i8 - 15
}

/// A value as a word.
pub fn pack(value: Option<(i8, i8)>) -> u16
    requires { IfSome value AreSmall }
    ensures word { IsWord result }
    ensures value { word_value result ≡ value }
{
    let Some((re, im)) = value else {
        return NONE;
    };
    1024 + 32 * biased(im) + biased(re)
}

/// The value of a word.
pub fn unpack(word: u16) -> Option<(i8, i8)>
    requires { IsWord word }
    ensures value { result ≡ word_value word }
    ensures small { IfSome result AreSmall }
{
    if word / 1024 == 0 {
        return None;
    }
    Some((component(word % 32), component(word / 32 % 32)))
}
