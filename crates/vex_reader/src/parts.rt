// The parts of a row of tokens between signs.
ghost use Rattle.std.specs.Prelude.{◌≡◌, ◌<◌, ◌≤◌, MatchOption, length};
ghost use Rattle.std.specs.List.{position_or_len, before_first, after_first};
ghost use Rattle.vex_reader.specs.Shapes.{is_sign};

use vex_lex::{Token, TokenKind};

// Whether a token is of a kind.
fn is_sign(sign: TokenKind, token: &Token) -> bool
    ensures { result ≡ is_sign sign token.now.kind }
{
    token.kind == sign
}

// How many tokens stand before the first of a kind.
fn sign_place(tokens: &[Token], sign: TokenKind) -> usize
    ensures place { result ≡ position_or_len (λ token. is_sign sign token.kind) tokens.now }
    ensures within { result ≤ length tokens.now }
{
    let mut at = 0;
    while at < tokens.len() && !is_sign(sign, &tokens[at]) {
        at += 1;
    }
    at
}

/// What stands before the first token of a kind, and what stands behind it; none where there is no such token.
pub fn next_part(tokens: &[Token], sign: TokenKind) -> Option<(&[Token], &[Token])>
    ensures { MatchOption result
        (position_or_len (λ token. is_sign sign token.kind) tokens.now ≡ length tokens.now)
        (λ part. (position_or_len (λ token. is_sign sign token.kind) tokens.now < length tokens.now)
        × (part.0.now ≡ before_first (λ token. is_sign sign token.kind) tokens.now)
        × (part.1.now ≡ after_first (λ token. is_sign sign token.kind) tokens.now)) }
{
    let at = sign_place(tokens, sign);
    if at < tokens.len() {
        Some((&tokens[..at], &tokens[at + 1..]))
    } else {
        None
    }
}
