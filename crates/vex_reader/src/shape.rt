// The shapes of statements.
ghost use Rattle.std.specs.Prelude.{◌≡◌, ℕ, ◌∷◌, ◌+◌, ◌≤◌, List, length, map, IfOk, All};
ghost use Rattle.vex_reader.specs.{Shapes.{mark_of, is_block_name, is_keyword, unshaped, lone_shape, item_shape, is_assignment, is_ref, assignment_shape, ref_shape, word_shape}, Reading.{shape_at}};

use crate::file::Statement;
use crate::values::{are_values, values_of};
use num_time::Name;
use std::alloc::{AllocError, Global};
use vex_lex::{Token, TokenKind};

/// What has a name in a block and statements of its own.
#[derive(Clone, Copy, Debug, PartialEq, Eq)]
pub enum ItemKind {
    Def,
    Scan,
}

/// What a statement says.
#[derive(Debug, Drop)]
pub enum Shape {
    /// Nothing, or one literal.
    Blank,
    /// The block of this name begins, or goes on.
    Block(Name),
    Begin(ItemKind, Name),
    End(ItemKind),
    /// A ref or an assignment.
    Entry(Statement),
    /// What is passed over.
    Other,
    /// What no shape fits.
    Bad,
}

fn is_block_name(word: &[u8]) -> bool
    ensures { result ≡ is_block_name word.now }
{
    word.starts_with(b"$")
}

// Whether a word is one of those of defs and scans.
fn is_keyword(word: &[u8]) -> bool
    ensures { result ≡ is_keyword word.now }
{
    word == b"def".as_slice()
        || word == b"scan".as_slice()
        || word == b"enddef".as_slice()
        || word == b"endscan".as_slice()
}

// What begins with a word and has no shape.
fn unshaped(word: &[u8]) -> Shape
    ensures { result ≡ unshaped word.now }
{
    if is_keyword(word) || is_block_name(word) {
        Shape::Bad
    } else {
        Shape::Other
    }
}

// A statement of one word.
fn lone_shape(alloc: Global, word: &[u8]) -> Result<Shape, AllocError>
    ensures { IfOk result (λ shape. shape ≡ lone_shape word.now) }
{
    if is_block_name(word) {
        return Ok(Shape::Block(Name::new(alloc, word)?));
    }
    if word == b"enddef".as_slice() {
        return Ok(Shape::End(ItemKind::Def));
    }
    if word == b"endscan".as_slice() {
        return Ok(Shape::End(ItemKind::Scan));
    }
    Ok(unshaped(word))
}

// A statement of two words.
fn item_shape(alloc: Global, word: &[u8], name: &[u8]) -> Result<Shape, AllocError>
    ensures { IfOk result (λ shape. shape ≡ item_shape word.now name.now) }
{
    if word == b"def".as_slice() {
        return Ok(Shape::Begin(ItemKind::Def, Name::new(alloc, name)?));
    }
    if word == b"scan".as_slice() {
        return Ok(Shape::Begin(ItemKind::Scan, Name::new(alloc, name)?));
    }
    Ok(unshaped(word))
}

fn is_assignment(word: &[u8], values: &[Token]) -> bool
    ensures { (text : List ℕ) → result ≡ is_assignment word.now (map (mark_of text) values.now) }
{
    !is_keyword(word) && word != b"ref".as_slice() && are_values(values)
}

fn is_ref(word: &[u8], target: &[u8], values: &[Token]) -> bool
    ensures { (text : List ℕ) → result ≡ is_ref word.now target.now (map (mark_of text) values.now) }
{
    word == b"ref".as_slice() && is_block_name(target) && are_values(values)
}

// Where a statement is read: the text, and the byte at which it begins.
#[derive(Clone, Copy)]
struct Source<'a> {
    alloc: Global,
    text: &'a [u8],
    at: u64,
}

// A statement of a word, `=` and these tokens.
fn assignment_shape(from: &Source, word: &[u8], values: &[Token]) -> Result<Shape, AllocError>
    requires { All (λ token. token.at + token.len ≤ length from.now.text.now) values.now }
    ensures { IfOk result (λ shape. shape ≡ assignment_shape from.now.at word.now (map (mark_of from.now.text.now) values.now)) }
{
    if !is_assignment(word, values) {
        return Ok(unshaped(word));
    }
    Ok(Shape::Entry(Statement {
        at: from.at,
        key: Name::new(from.alloc, word)?,
        target: None,
        values: values_of(from.alloc, from.text, values)?,
    }))
}

// A statement of two words, `=` and these tokens.
fn ref_shape(
    from: &Source,
    word: &[u8],
    target: &[u8],
    values: &[Token],
) -> Result<Shape, AllocError>
    requires { All (λ token. token.at + token.len ≤ length from.now.text.now) values.now }
    ensures { IfOk result (λ shape. shape ≡ ref_shape from.now.at word.now target.now (map (mark_of from.now.text.now) values.now)) }
{
    if !is_ref(word, target, values) {
        return Ok(unshaped(word));
    }
    Ok(Shape::Entry(Statement {
        at: from.at,
        key: Name::new(from.alloc, word)?,
        target: Some(Name::new(from.alloc, target)?),
        values: values_of(from.alloc, from.text, values)?,
    }))
}

// The shape of a statement that begins with two words.
fn named_shape(from: &Source, word: &[u8], name: &[u8], rest: &[Token]) -> Result<Shape, AllocError>
    requires { All (λ token. token.at + token.len ≤ length from.now.text.now) rest.now }
    ensures { IfOk result (λ shape. shape ≡ word_shape from.now.at word.now ((TokenKind.Word, name.now) ∷ map (mark_of from.now.text.now) rest.now)) }
{
    let Some((third, values)) = rest.split_first() else {
        return item_shape(from.alloc, word, name);
    };
    if third.kind == TokenKind::Equals {
        ref_shape(from, word, name, values)
    } else {
        Ok(unshaped(word))
    }
}

// The shape of a statement by its first word and what is behind it.
fn word_shape(from: &Source, word: &[u8], rest: &[Token]) -> Result<Shape, AllocError>
    requires { All (λ token. token.at + token.len ≤ length from.now.text.now) rest.now }
    ensures { IfOk result (λ shape. shape ≡ word_shape from.now.at word.now (map (mark_of from.now.text.now) rest.now)) }
{
    let Some((second, behind)) = rest.split_first() else {
        return lone_shape(from.alloc, word);
    };
    match second.kind {
        TokenKind::Word => named_shape(from, word, second.text(from.text), behind),
        TokenKind::Equals => assignment_shape(from, word, behind),
        _ => Ok(unshaped(word)),
    }
}

/// The shape of the statement of these tokens.
pub fn read_shape(alloc: Global, text: &[u8], tokens: &[Token]) -> Result<Shape, AllocError>
    requires { All (λ token. token.at + token.len ≤ length text.now) tokens.now }
    ensures { IfOk result (λ shape. shape ≡ shape_at text.now tokens.now) }
{
    let Some((first, rest)) = tokens.split_first() else {
        return Ok(Shape::Blank);
    };
    match first.kind {
        TokenKind::Word => {
            let at = first.at;
            word_shape(&Source { alloc, text, at }, first.text(text), rest)
        }
        TokenKind::Literal if rest.is_empty() => Ok(Shape::Blank),
        _ => Ok(Shape::Other),
    }
}
