//! The ways in which a text is broken.
ghost use Rattle.std.specs.Prelude.{◌≡◌, ◌≤◌, length, IfOk};

use std::alloc::{AllocError, Global};

/// A way to break a text at a place.
#[derive(Clone, Copy, PartialEq, Eq)]
pub enum Way {
    /// The bytes before the place alone.
    Cut,
    /// The byte there is 0.
    Zero,
    /// The byte there is 255.
    Full,
    /// The byte there is one more, and 0 where it was 255.
    More,
}

impl Way {
    ghost use Rattle.broken_texts.specs.Broken.{other, broken};

    /// How a line names the place.
    pub fn word(self) -> &'static str {
        match self {
            Way::Cut => "prefix",
            Way::Zero => "00 at",
            Way::Full => "FF at",
            Way::More => "+1 at",
        }
    }

    /// The text broken at a place. At the text's end it is the text.
    pub fn broken(self, alloc: Global, text: &[u8], place: usize) -> Result<Vec<u8>, AllocError>
        requires { place ≤ length text.now }
        ensures { IfOk result (λ made. made.items ≡ broken self text.now place) }
    {
        if self == Way::Cut {
            return text[..place].to_vec(alloc);
        }
        let mut made = text.to_vec(alloc)?;
        if place < made.len() {
            made[place] = self.other(made[place]);
        }
        Ok(made)
    }

    // The byte in the place of one.
    fn other(self, byte: u8) -> u8
        ensures { result ≡ other self byte }
    {
        match self {
            Way::Cut => byte,
            Way::Zero => 0,
            Way::Full => u8::MAX,
            Way::More => byte.wrapping_add(1),
        }
    }
}
