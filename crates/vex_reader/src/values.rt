// The values of a statement.
ghost use Rattle.std.specs.Prelude.{◌≡◌, ℕ, ◌+◌, ◌≤◌, List, length, map, IfOk, All};
ghost use Rattle.vex_lex.specs.Shapes.{span};
ghost use Rattle.vex_reader.specs.Shapes.{mark_of, values_of, stands_in_values, are_values};

use crate::file::Value;
use crate::parts::next_part;
use item_list::ItemList;
use num_time::Name;
use std::alloc::{AllocError, Global};
use vex_lex::{Token, TokenKind};

// The texts of tokens.
fn value_of(alloc: Global, text: &[u8], tokens: &[Token]) -> Result<Value, AllocError>
    requires { All (λ token. token.at + token.len ≤ length text.now) tokens.now }
    ensures { IfOk result (λ value. value ≡ map (λ token. span text.now token.at (token.at + token.len)) tokens.now) }
{
    let mut words = Vec::new(alloc);
    for token in tokens {
        words.push(Name::new(alloc, token.text(text))?)?;
    }
    Ok(ItemList::of(words))
}

/// The values that colons part.
pub fn values_of(
    alloc: Global,
    text: &[u8],
    tokens: &[Token],
) -> Result<ItemList<Value>, AllocError>
    requires { All (λ token. token.at + token.len ≤ length text.now) tokens.now }
    ensures { IfOk result (λ values. values ≡ values_of (map (mark_of text.now) tokens.now)) }
{
    let mut values = Vec::new(alloc);
    let mut rest = tokens;
    while let Some((value, behind)) = next_part(rest, TokenKind::Colon) {
        values.push(value_of(alloc, text, value)?)?;
        rest = behind;
    }
    values.push(value_of(alloc, text, rest)?)?;
    Ok(ItemList::of(values))
}

// Whether tokens of a kind stand in values.
fn stands_in_values(kind: TokenKind) -> bool
    ensures { result ≡ stands_in_values kind }
{
    matches!(kind, TokenKind::Word | TokenKind::Quoted | TokenKind::Colon)
}

/// Whether the tokens are words, quoted texts and colons.
pub fn are_values(tokens: &[Token]) -> bool
    ensures { (text : List ℕ) → result ≡ are_values (map (mark_of text) tokens.now) }
{
    for token in tokens {
        if !stands_in_values(token.kind) {
            return false;
        }
    }
    true
}
