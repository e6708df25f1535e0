//! The words that begin the lines of a text of phases, and the fields behind them.
ghost use Rattle.std.specs.Prelude.{◌≡◌};
ghost use Rattle.pulsar_bins.specs.Words.{word_of, needed, further};

use job_lines::FieldKind;
use job_lines::FieldKind::{Number, Time};

/// What a line is about, by its first field.
#[derive(Clone, Copy)]
pub(crate) enum Word {
    /// `bins`.
    Count,
    /// `phase`.
    Phase,
}

/// The word that a field spells.
pub(crate) fn word_of(field: &[u8]) -> Option<Word>
    ensures { result ≡ word_of field.now }
{
    if field == b"bins".as_slice() {
        return Some(Word::Count);
    }
    if field == b"phase".as_slice() {
        return Some(Word::Phase);
    }
    None
}

impl Word {
    /// How the fields behind it are written, without those that may be left out.
    pub(crate) fn needed(self) -> &'static [FieldKind]
        ensures { result.now ≡ needed self }
    {
        match self {
            Word::Count => &[Number],
            Word::Phase => &[Time, Number],
        }
    }

    /// How the fields are written that may stand behind those, from the first on.
    pub(crate) fn further(self) -> &'static [FieldKind]
        ensures { result.now ≡ further self }
    {
        match self {
            Word::Count => &[],
            Word::Phase => &[Number, Number, Number, Number, Number],
        }
    }
}
