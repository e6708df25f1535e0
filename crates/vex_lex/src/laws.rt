//! What follows from the grammar for every text. The functions do nothing: a call brings its law.
ghost use Rattle.std.specs.Prelude.{ℕ, List, All};
ghost use Rattle.vex_lex.specs.{declared.token.Token.{Token}, Grammar.{Lexes}, Laws.{HasOneReading, HasOneBreak, HasTokensOrBreak, DoesNotBoth, CoverText, BeginsAsItsKind}};

/// A text has one list of tokens, or breaks one rule at one place, and never does both.
pub fn tokens_or_break()
    ensures one_reading { (text : List ℕ) → HasOneReading text }
    ensures one_break { (text : List ℕ) → HasOneBreak text }
    ensures one_of_both { (text : List ℕ) → HasTokensOrBreak text × DoesNotBoth text }
{}

/// The tokens of a text and the gaps between them, put together, are the text.
pub fn cover_text()
    ensures { (text : List ℕ) (tokens : List Token) → Lexes text tokens → CoverText text tokens }
{}

/// No word begins with a quotation mark, and each quoted text does.
pub fn begin_as_their_kinds()
    ensures { (text : List ℕ) (tokens : List Token) → Lexes text tokens → All (BeginsAsItsKind text) tokens }
{}
