//! The words that begin the lines of a job, and the fields behind them.
ghost use Rattle.std.specs.Prelude.{◌≡◌, find};
ghost use Rattle.std.specs.Str.{bytes_eq};
ghost use Rattle.job_lines.specs.Words.{text_of, words, word_of, is_inline, needed, further};

/// What a line of a job is about, by its first field.
#[derive(Clone, Copy, Debug, PartialEq, Eq)]
pub enum Word {
    Lags,
    Integration,
    Epoch,
    Knot,
    Auto,
    Station,
    File,
    Chan,
    Clock,
    Poly,
    Product,
    Take,
    Rate,
    Scan,
    Band,
}

/// How a field is written.
#[derive(Clone, Copy, Debug, PartialEq, Eq)]
pub enum FieldKind {
    /// Any bytes of a field.
    Text,
    /// A whole number: an optional sign, and digits with at most a point and zeros behind it.
    Number,
    /// A time as 2010y113d20h29m00s.
    Time,
    /// `U` or `L`.
    Side,
    /// `legacy`.
    Legacy,
}

use FieldKind::{Legacy, Number, Side, Text, Time};

const WORDS: [Word; 15] = [
    Word::Lags,
    Word::Integration,
    Word::Epoch,
    Word::Knot,
    Word::Auto,
    Word::Station,
    Word::File,
    Word::Chan,
    Word::Clock,
    Word::Poly,
    Word::Product,
    Word::Take,
    Word::Rate,
    Word::Scan,
    Word::Band,
];

/// The word that a field spells.
pub fn word_of(field: &[u8]) -> Option<Word>
    ensures { result ≡ word_of field.now }
{
    WORDS.iter().copied().find(|word| word.text() == field)
}

impl Word {
    /// How it is spelt.
    pub fn text(self) -> &'static [u8]
        ensures { result.now ≡ text_of self }
    {
        match self {
            Word::Lags => b"lags",
            Word::Integration => b"integration",
            Word::Epoch => b"epoch",
            Word::Knot => b"knot",
            Word::Auto => b"auto",
            Word::Station => b"station",
            Word::File => b"file",
            Word::Chan => b"chan",
            Word::Clock => b"clock",
            Word::Poly => b"poly",
            Word::Product => b"product",
            Word::Take => b"take",
            Word::Rate => b"rate",
            Word::Scan => b"scan",
            Word::Band => b"band",
        }
    }

    /// Whether it is a word of scans that the job itself states, which stands where there is no schedule.
    pub fn is_inline(self) -> bool
        ensures { result ≡ is_inline self }
    {
        matches!(self, Word::Rate | Word::Scan | Word::Band)
    }

    /// How the fields behind it are written, without those that may be left out.
    pub fn needed(self) -> &'static [FieldKind]
        ensures { result.now ≡ needed self }
    {
        match self {
            Word::Lags | Word::Integration | Word::Epoch | Word::Knot | Word::Rate => &[Number],
            Word::Auto => &[],
            Word::Station => &[Text, Number, Number, Number, Number],
            Word::File | Word::Product => &[Text, Text],
            Word::Chan => &[Text, Text, Number, Number],
            Word::Clock => &[Text, Time, Number, Number],
            Word::Poly | Word::Scan => &[Text, Time, Number],
            Word::Take => &[Text],
            Word::Band => &[Text, Number, Side],
        }
    }

    /// How the fields are written that may stand behind those, from the first on.
    pub fn further(self) -> &'static [FieldKind]
        ensures { result.now ≡ further self }
    {
        match self {
            Word::Station => &[Legacy],
            Word::Poly => &[Number, Number, Number, Number, Number],
            _ => &[],
        }
    }
}
