// The pass over a text.
ghost use Rattle.std.specs.Prelude.{◌≡◌, ◌<◌, List, length, IfOk, IfErr, All};
ghost use Rattle.vex_lex.specs.{Bytes.{IsWhite, IsAt, HasByte}, Shapes.{OpensNone, EndsWordAt, IsWord}, Grammar.{IsToken, Lexes, BreaksFrom, Breaks, IsFaultOf, GivesTokens, GivesFault}};
ghost use Rattle.vex_lex.specs.Laws.{CoverText, BeginsAsItsKind};

use crate::bytes::is_control;
use crate::ends::{gap_end, literal_end, opens_literal, quoted_end, word_stop};
use crate::fault::{LexFault, LexKind};
use crate::token::{Token, TokenKind};
use std::alloc::Global;

// A rule that is broken at a place.
fn broken(kind: LexKind, at: usize) -> LexFault
    ensures kind { result.kind ≡ kind }
    ensures at { result.at ≡ at }
{
    LexFault {
        kind,
        at: at as u64,
    }
}

// The end of the word that begins at a place.
fn word_end(text: &[u8], at: usize) -> Result<usize, LexFault>
    requires within { at < length text.now }
    requires opens { OpensNone text.now at }
    requires no_end { ¬ EndsWordAt text.now at }
    ensures word { IfOk result (IsWord text.now at) }
    ensures broken { IfErr result (λ fault. BreaksFrom text.now fault.kind at fault.at) }
{
    let stop = word_stop(text, at);
    if stop < text.len() && is_control(text[stop]) {
        return Err(broken(LexKind::BadByte, stop));
    }
    Ok(stop)
}

// The kind and the end of the token that begins at a place behind a gap.
fn next_token(text: &[u8], at: usize) -> Result<(TokenKind, usize), LexFault>
    requires within { at < length text.now }
    requires no_white { ¬ IsAt IsWhite text.now at }
    requires no_comment { ¬ HasByte 42 text.now at }
    ensures token { IfOk result (λ found. IsToken text.now found.0 at found.1) }
    ensures broken { IfErr result (λ fault. BreaksFrom text.now fault.kind at fault.at) }
{
    match text[at] {
        b'=' => Ok((TokenKind::Equals, at + 1)),
        b':' => Ok((TokenKind::Colon, at + 1)),
        b';' => Ok((TokenKind::Semicolon, at + 1)),
        b'"' => match quoted_end(text, at) {
            Some(end) => Ok((TokenKind::Quoted, end)),
            None => Err(broken(LexKind::OpenQuote, at)),
        },
        _ if opens_literal(text, at) => match literal_end(text, at) {
            Some(end) => Ok((TokenKind::Literal, end)),
            None => Err(broken(LexKind::OpenLiteral, at)),
        },
        _ => match word_end(text, at) {
            Ok(end) => Ok((TokenKind::Word, end)),
            Err(fault) => Err(fault),
        },
    }
}

// The tokens of a text in their order, or the first rule that it breaks.
fn scan_text(alloc: Global, text: &[u8]) -> Result<Vec<Token>, LexFault>
    ensures found { IfOk result (λ tokens. Lexes text.now tokens.items) }
    ensures fault { IfErr result (IsFaultOf text.now) }
{
    let mut found = Vec::new(alloc);
    let mut at = gap_end(text, 0);
    while at < text.len() {
        let (kind, end) = next_token(text, at)?;
        found.push(Token {
            kind,
            at: at as u64,
            len: (end - at) as u64,
        })?;
        at = gap_end(text, end);
    }
    Ok(found)
}

/// The tokens of a text in their order, or the first rule that it breaks. Spans are in bytes of
/// `text`. Want of memory is a fault too, at 0.
pub fn tokens(alloc: Global, text: &[u8]) -> Result<Vec<Token>, LexFault>
    // The tokens are those of the text, and the fault is that of the text, or want of memory.
    ensures found { IfOk result (λ tokens. Lexes text.now tokens.items) }
    ensures fault { IfErr result (IsFaultOf text.now) }
    ensures cover { IfOk result (λ tokens. CoverText text.now tokens.items) }
    ensures marks { IfOk result (λ tokens. All (BeginsAsItsKind text.now) tokens.items) }

    // A text that has tokens is refused for want of memory alone, and one with a fault always.
    ensures lexes { (tokens : List Token) → Lexes text.now tokens → GivesTokens result tokens }
    ensures breaks { (fault : LexFault) → Breaks text.now fault.kind fault.at → GivesFault result fault }
{
    scan_text(alloc, text)
}
