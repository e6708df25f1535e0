// The pass over a text's statements.
ghost use Rattle.std.specs.Prelude.{◌≡◌, ◌⊎◌, None, Some, ◌+◌, ◌≤◌, length, IfOk, IfErr, All};
ghost use Rattle.vex_lex.specs.declared.token.Token.{Token};
ghost use Rattle.vex_reader.specs.{declared.fault.VexFault.{VexFault}, declared.file.VexFile.{VexFile}, Counts.{HasAtMostScans}, Fault.{out_of_memory}};
ghost use Rattle.vex_reader.specs.{Reading.{fault_of, after, place_of, shape_at, reading}, Grammar.{Answers, IsFileOf, IsVexFaultOf, GivesFile, GivesVexFault}, ReadingState.{state_of}};

use crate::fault::VexFault;
use crate::file::VexFile;
use crate::parts::next_part;
use crate::reading::Reading;
use crate::shape::read_shape;
use std::alloc::Global;
use vex_lex::{Token, TokenKind};

// The byte at which a statement begins.
fn place_of(tokens: &[Token]) -> u64
    ensures { result ≡ place_of tokens.now }
{
    match tokens.split_first() {
        None => 0,
        Some((first, _)) => first.at,
    }
}

// The reading behind the statement of these tokens.
fn read_statement(
    alloc: Global,
    text: &[u8],
    before: Reading,
    tokens: &[Token],
) -> Result<Reading, VexFault>
    requires { All (λ token. token.at + token.len ≤ length text.now) tokens.now }
    ensures faultless { IfOk result (λ _. fault_of (state_of before) (shape_at text.now tokens.now) ≡ None) }
    ensures next { IfOk result (λ next. state_of next ≡ after (state_of before) (place_of tokens.now) (shape_at text.now tokens.now)) }
    ensures fault { IfErr result (λ fault. (fault ≡ out_of_memory)
        ⊎ ((fault_of (state_of before) (shape_at text.now tokens.now) ≡ Some fault.kind) × (fault.at ≡ place_of tokens.now))) }
{
    let shape = read_shape(alloc, text, tokens)?;
    let at = place_of(tokens);
    if let Some(kind) = before.fault(&shape) {
        return Err(VexFault { kind, at });
    }
    Ok(before.after(alloc, at, shape)?)
}

// The answer to a text of these tokens.
fn read_tokens(alloc: Global, text: &[u8], tokens: &[Token]) -> Result<VexFile, VexFault>
    requires { All (λ token. token.at + token.len ≤ length text.now) tokens.now }
    ensures { Answers (reading text.now tokens.now) result }
{
    let mut state = Reading::new(alloc);
    let mut rest = tokens;
    while let Some((statement, behind)) = next_part(rest, TokenKind::Semicolon) {
        state = read_statement(alloc, text, state, statement)?;
        rest = behind;
    }
    state.finish(alloc, text.len() as u64, rest)
}

// The file of a text, or its fault.
fn read_text(alloc: Global, text: &[u8]) -> Result<VexFile, VexFault>
    ensures file { IfOk result (IsFileOf text.now) }
    ensures fault { IfErr result (λ fault. (fault ≡ out_of_memory) ⊎ IsVexFaultOf text.now fault) }
    ensures scans { IfOk result (λ file. HasAtMostScans (length text.now) file.blocks) }
{
    let tokens = vex_lex::tokens(alloc, text)?;
    read_tokens(alloc, text, &tokens)
}

/// The file of a VEX text, or its first fault. Places are bytes of `text`. Want of memory is a fault too, at 0.
pub fn read(alloc: Global, text: &[u8]) -> Result<VexFile, VexFault>
    // The file is what the text's statements say, and the fault is that of the text, or want of memory.
    ensures file { IfOk result (IsFileOf text.now) }
    ensures fault { IfErr result (λ fault. (fault ≡ out_of_memory) ⊎ IsVexFaultOf text.now fault) }

    // Each scan takes bytes of its own.
    ensures scans { IfOk result (λ file. HasAtMostScans (length text.now) file.blocks) }

    // A text that stands for a file is refused for want of memory alone, and one with a fault always.
    ensures reads { (file : VexFile) → IsFileOf text.now file → GivesFile result file }
    ensures refuses { (fault : VexFault) → IsVexFaultOf text.now fault → GivesVexFault result fault }
{
    read_text(alloc, text)
}
