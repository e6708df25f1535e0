// Why a text stands for no file.
ghost use Rattle.std.specs.Prelude.{◌≡◌};
ghost use Rattle.vex_reader.specs.{KindName.{kind_name}, Fault.{out_of_memory, token_fault}};

use std::alloc::AllocError;
use thiserror::Error;
use variant_name::name_of;
use vex_lex::{LexFault, LexKind};

/// Which rule a text breaks.
#[derive(Clone, Copy, Debug, PartialEq, Eq, Error)]
#[error("{}", self.name())]
pub enum VexKind {
    /// A rule of the tokens. `LexKind::Memory` is not among them.
    Lex(LexKind),
    /// The first statement is not `VEX_rev = 1.5`.
    Revision,
    /// No statement of VEX.
    Statement,
    /// A def or scan that is not ended.
    OpenDef,
    /// A def that was there.
    DoubleDef,
    /// A scan that was there.
    DoubleScan,
    /// Outside a block, a def or a scan.
    Outside,
    /// Out of memory.
    Memory,
}

impl VexKind {
    /// The rule's name, as it is written above.
    pub fn name(self) -> &'static str
        ensures { result.now ≡ kind_name self }
    {
        name_of!(self: VexKind { Lex(kind) => kind.name(), Revision, Statement, OpenDef, DoubleDef, DoubleScan, Outside, Memory })
    }
}

/// The rule that a text breaks, and where: the byte at which a statement begins, or the text's length. Want of memory is at 0.
#[derive(Clone, Copy, Debug, PartialEq, Eq, Error)]
#[error("{kind} at byte {at}")]
pub struct VexFault {
    pub kind: VexKind,
    pub at: u64,
}

impl From<AllocError> for VexFault {
    ghost from_gives = { λ _ fault. fault ≡ out_of_memory };

    fn from(_: AllocError) -> Self {
        VexFault {
            kind: VexKind::Memory,
            at: 0,
        }
    }
}

impl From<LexFault> for VexFault {
    ghost from_gives = { λ broken fault. fault ≡ token_fault broken.kind broken.at };

    fn from(broken: LexFault) -> Self {
        match broken.kind {
            LexKind::Memory => VexFault {
                kind: VexKind::Memory,
                at: 0,
            },
            kind => VexFault {
                kind: VexKind::Lex(kind),
                at: broken.at,
            },
        }
    }
}
