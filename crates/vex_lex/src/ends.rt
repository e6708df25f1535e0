// Where the shapes of a text end. A place is an index of the text.
ghost use Rattle.std.specs.Prelude.{◌↔◌, ◌≢◌, ℕ, ◌+◌, ◌-◌, ◌<◌, ◌≤◌, length, slice_index, IsTrue, IfSome, IfNone};
ghost use Rattle.vex_lex.specs.{Bytes.{IsWhite, IsAt, HasByte, HasBytes}, First.{IsFirst}, Shapes.{EndsComment, StopsWord, IsTag, ClosesLiteral, IsQuoted, OpensLiteral, IsLiteral}, Grammar.{IsGap}};

use crate::bytes::{ends_word, is_control, is_separator, is_white};

// The end of the comment at a place.
fn comment_end(text: &[u8], from: usize) -> usize
    requires { from ≤ length text.now }
    ensures { IsFirst (EndsComment text.now) from result }
{
    let mut at = from;
    while at < text.len() && text[at] != b'\n' {
        at += 1;
    }
    at
}

/// The end of the gap that begins at a place.
pub fn gap_end(text: &[u8], from: usize) -> usize
    requires { from ≤ length text.now }
    ensures within { result ≤ length text.now }
    ensures gap { IsGap text.now from result }
    ensures no_white { ¬ IsAt IsWhite text.now result }
    ensures no_comment { ¬ HasByte 42 text.now result }
{
    let mut at = from;
    while at < text.len() {
        if text[at] == b'*' {
            at = comment_end(text, at);
        } else if is_white(text[at]) {
            at += 1;
        } else {
            break;
        }
    }
    at
}

/// Where the word at a place stops.
pub fn word_stop(text: &[u8], from: usize) -> usize
    requires { from ≤ length text.now }
    ensures { IsFirst (StopsWord text.now) from result }
{
    let mut at = from;
    while at < text.len() && !ends_word(text[at]) && !is_control(text[at]) {
        at += 1;
    }
    at
}

/// The end of the quoted text that begins at a place.
pub fn quoted_end(text: &[u8], from: usize) -> Option<usize>
    requires { HasByte 34 text.now from }
    ensures some { IfSome result (IsQuoted text.now from) }
    ensures none { IfNone result ((to : ℕ) → ¬ IsQuoted text.now from to) }
{
    let mut at = from + 1;
    while at < text.len() {
        if text[at] == b'"' && text[at - 1] != b'\\' {
            return Some(at + 1);
        }
        at += 1;
    }
    None
}

// The end of the tag that begins at a place.
fn tag_end(text: &[u8], from: usize) -> Option<usize>
    requires { from ≤ length text.now }
    ensures some { IfSome result (IsTag text.now from) }
    ensures none { IfNone result ((to : ℕ) → ¬ IsTag text.now from to) }
{
    let mut at = from;
    while at < text.len() && !is_separator(text[at]) {
        if text[at] == b')' {
            return Some(at);
        }
        at += 1;
    }
    None
}

// Whether these bytes stand at a place.
fn has_bytes(text: &[u8], at: usize, bytes: &[u8]) -> bool
    requires { at ≤ length text.now }
    ensures has { IsTrue result ↔ HasBytes bytes.now text.now at }
    ensures within { IsTrue result → at + length bytes.now ≤ length text.now }
{
    text[at..].starts_with(bytes)
}

// Whether the literal of a tag is closed at a place.
fn closes_literal(text: &[u8], at: usize, tag: &[u8]) -> bool
    requires { at ≤ length text.now }
    ensures { IsTrue result ↔ ClosesLiteral tag.now text.now at }
{
    has_bytes(text, at, b"end_literal(")
        && has_bytes(text, at + 12, tag)
        && has_bytes(text, at + 12 + tag.len(), b")")
}

// Whether the `)` at a place closes the literal of a tag, with `end_literal` at `from` or behind it.
fn is_closed_by(text: &[u8], from: usize, at: usize, tag: &[u8]) -> bool
    requires order { from ≤ at }
    requires within { at ≤ length text.now }
    ensures { IsTrue result ↔ ((from + 12 + length tag.now ≤ at) × ClosesLiteral tag.now text.now (at - (12 + length tag.now))) }
{
    let len = 12 + tag.len();
    len <= at - from && closes_literal(text, at - len, tag)
}

// The first place from `from` on at which the literal of a tag is closed. No `)` stands in the tag or
// in `end_literal(`, so only what stands behind the last `)` is compared: each byte at most once.
fn literal_close(text: &[u8], from: usize, tag: &[u8]) -> Option<usize>
    requires within { from ≤ length text.now }
    requires plain { (i : ℕ) → i < length tag.now → slice_index tag.now i ≢ 41 }
    ensures some { IfSome result (IsFirst (ClosesLiteral tag.now text.now) from) }
    ensures none { IfNone result ((place : ℕ) → ¬ IsFirst (ClosesLiteral tag.now text.now) from place) }
{
    let mut behind = from;
    let mut at = from;
    while at < text.len() {
        if text[at] == b')' {
            if is_closed_by(text, behind, at, tag) {
                return Some(at - (12 + tag.len()));
            }
            behind = at + 1;
        }
        at += 1;
    }
    None
}

/// Whether a literal is opened at a place.
pub fn opens_literal(text: &[u8], at: usize) -> bool
    requires { at ≤ length text.now }
    ensures { IsTrue result ↔ OpensLiteral text.now at }
{
    has_bytes(text, at, b"start_literal(")
}

/// The end of the literal that is opened at a place.
pub fn literal_end(text: &[u8], from: usize) -> Option<usize>
    requires { OpensLiteral text.now from }
    ensures some { IfSome result (IsLiteral text.now from) }
    ensures none { IfNone result ((to : ℕ) → ¬ IsLiteral text.now from to) }
{
    let tag_at = from + 14;
    let Some(end) = tag_end(text, tag_at) else {
        return None;
    };
    let Some(last) = literal_close(text, end + 1, &text[tag_at..end]) else {
        return None;
    };
    Some(last + 13 + (end - tag_at))
}
