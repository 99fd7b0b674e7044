//! Tokens: where each word of a statement stands in its text.

ghost use Rattle.std.specs.Prelude.{◌≡◌, ◌<◌, length};
ghost use Rattle.sql_lex.specs.Ends.{end_of};

use std::marker::Model;

/// What a token is.
#[derive(Clone, Copy, Debug, PartialEq, Eq)]
pub enum Kind {
    /// A key word or a name.
    Word,
    /// A number: decimal digits.
    Number,
    /// A text between single quotes.
    Quoted,
    /// A punctuation mark or an operator.
    Symbol,
    /// The text's end.
    End,
}

/// A token and its place.
#[derive(Clone, Copy, Debug, PartialEq, Eq)]
pub struct Token {
    /// What it is.
    pub kind: Kind,
    /// The byte offset of its first byte in the text; for `End` the text's length.
    pub start: u32,
    /// The byte offset past its last byte.
    pub end: u32,
}

/// A list of tokens, numbered from 0. Contracts see the list.
#[derive(Debug)]
pub struct Tokens {
    tokens: Vec<Token>,
}

impl Drop for Tokens {
    fn drop(self) {
        let Tokens { tokens: _ } = self;
    }
}

impl Model for Tokens {
    ghost use Rattle.std.specs.Prelude.{List};
    ghost use Rattle.sql_lex.specs.declared.tokens.Token.{Token};

    ghost Value = { List Token };

    ghost view = { λ t. t.tokens.items };
}

impl Tokens {
    /// The list of these tokens.
    pub fn from_vec(v: Vec<Token>) -> Tokens
        ensures { result ≡ v.items }
    {
        Tokens { tokens: v }
    }

    /// The tokens from the left, lent.
    pub fn items(&self) -> &[Token]
        ensures { result.now ≡ self.now }
    {
        &self.tokens
    }

    /// Where the last token ends: the byte offset past its last byte.
    pub fn end(&self) -> u32
        requires { 0 < length self.now }
        ensures { result ≡ end_of self.now }
    {
        self.tokens[self.tokens.len() - 1].end
    }
}
