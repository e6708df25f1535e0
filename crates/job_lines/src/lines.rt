//! The lines of a text.
ghost use Rattle.std.specs.Prelude.{◌≡◌, ◌≤◌, [], length, drop};
ghost use Rattle.std.specs.Str.Lines.{strip_carriage_return};

use crate::bytes::len_before;
use std::marker::Model;

/// The lines of a text that are left. A line feed ends a line, and the last line may lack it; a carriage
/// return before a line feed belongs to the end.
#[derive(Debug, Drop)]
pub struct Lines<'a> {
    rest: &'a [u8],
}

impl<'a> Model for Lines<'a> {
    ghost use Rattle.std.specs.Prelude.{List, ℕ};
    ghost use Rattle.std.specs.Str.Lines.{lines};

    ghost Value = { List (List ℕ) };

    ghost view = { λ left. lines left.rest.now };
}

impl<'a> Lines<'a> {
    ghost use Rattle.std.specs.Prelude.{◌∷◌, MatchOption};
    ghost use Rattle.std.specs.Str.Lines.{lines};

    /// The lines of a text.
    pub fn of(text: &'a [u8]) -> Self
        ensures { result ≡ lines text.now }
    {
        Lines { rest: text }
    }

    /// The next line, without its end.
    pub fn next_line(&mut self) -> Option<&'a [u8]>
        ensures { MatchOption result (self.old ≡ []) (λ line. self.old ≡ line.now ∷ self.new) }
    {
        if self.rest.is_empty() {
            return None;
        }
        let end = len_before(self.rest, b'\n');
        let line = &self.rest[..end];
        if end == self.rest.len() {
            self.rest = &[];
            return Some(line);
        }
        self.rest = behind(self.rest, end + 1);
        Some(without_return(line))
    }
}

// What stands behind the first `n` bytes of a text.
fn behind(text: &[u8], n: usize) -> &[u8]
    requires { n ≤ length text.now }
    ensures { result.now ≡ drop n text.now }
{
    &text[n..]
}

// A line without the carriage return at its end, if it has one.
fn without_return(line: &[u8]) -> &[u8]
    ensures { result.now ≡ strip_carriage_return line.now }
{
    match line.split_last() {
        Some((b'\r', rest)) => rest,
        _ => line,
    }
}
