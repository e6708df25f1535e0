// Why a text has no tokens.
ghost use Rattle.std.specs.Prelude.{◌≡◌};
ghost use Rattle.vex_lex.specs.{KindName.{kind_name}, Grammar.{out_of_memory}};

use std::alloc::AllocFailed;
use thiserror::Error;
use variant_name::name_of;

/// Which rule a text breaks.
#[derive(Clone, Copy, Debug, PartialEq, Eq, Error)]
#[error("{}", self.name())]
pub enum LexKind {
    /// A quoted text with no end.
    OpenQuote = 1,
    /// A literal whose tag or end is missing.
    OpenLiteral,
    /// A control character.
    BadByte,
    /// Out of memory.
    Memory,
}

impl LexKind {
    /// The rule's name, as it is written above.
    pub fn name(self) -> &'static str
        ensures { result.now ≡ kind_name self }
    {
        name_of!(self: LexKind { OpenQuote, OpenLiteral, BadByte, Memory })
    }
}

/// The rule that a text breaks first, and where: the byte at which the quoted text or the literal
/// begins, or the control character. Want of memory is at 0.
#[derive(Clone, Copy, Debug, PartialEq, Eq, Error)]
#[error("{kind} at byte {at}")]
pub struct LexFault {
    pub kind: LexKind,
    pub at: u64,
}

impl<T: Drop> From<AllocFailed<T>> for LexFault {
    ghost from_gives = { λ _ fault. fault ≡ out_of_memory };

    fn from(_: AllocFailed<T>) -> Self {
        LexFault {
            kind: LexKind::Memory,
            at: 0,
        }
    }
}
