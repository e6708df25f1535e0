// What a text is made of.
ghost use Rattle.std.specs.Prelude.{◌≡◌, ◌+◌, ◌≤◌, length};
ghost use Rattle.vex_lex.specs.Shapes.{span};

/// What a token is.
#[derive(Clone, Copy, Debug, PartialEq, Eq)]
pub enum TokenKind {
    Word,
    /// A text in `"`, with both of them in its span.
    Quoted,
    /// From `start_literal(` to the `)` of its `end_literal`.
    Literal,
    Equals,
    Colon,
    Semicolon,
}

/// A token: the bytes of its source from `at` on, `len` of them.
#[derive(Clone, Copy, Debug, PartialEq, Eq)]
pub struct Token {
    pub kind: TokenKind,
    pub at: u64,
    pub len: u64,
}

impl Token {
    /// The token's bytes, in the text that it is of.
    pub fn text<'a>(&self, source: &'a [u8]) -> &'a [u8]
        requires { self.now.at + self.now.len ≤ length source.now }
        ensures { result.now ≡ span source.now self.now.at (self.now.at + self.now.len) }
    {
        let at = self.at as usize;
        &source[at..at + self.len as usize]
    }
}
