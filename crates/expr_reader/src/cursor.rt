//! The words of a statement that are left.

ghost use Rattle.std.specs.Prelude.{◌≡◌, ◌≢◌, ◌≤◌, ◌^◌, ℕ, List, [], ◌∷◌, length, drop, take, true, false, IfErr, IfOk, MatchOption, MatchResult};
ghost use Rattle.sql_lex.specs.Words.{AreWords};
ghost use Rattle.sql_grammar.specs.declared.class.Class.TheVariants.{Quoted as ClassQuoted};
ghost use Rattle.sql_grammar.specs.Terminals.{Terminal, Ident, t_key, t_mark, t_name};
ghost use Rattle.sql_grammar.specs.Faults.{terminals};
ghost use Rattle.expr_reader.specs.work.Reading.{Begins, BeginsNot, BeginsName, BeginsNoName, BeginsQuoted, BeginsNoQuoted, IsNextToken, IsNextClass, free_name, TakesNumber, TakesOperator};

use crate::values::{number_value, operator_named, small_letters, unquoted};
use pg_value::{Bytes, Op};
use sql_grammar::{Class, Free, Symbol, Word, class_of};
use sql_lex::{Kind, Token, Tokens};
use std::alloc::{AllocError, Global};
use std::marker::Model;

/// What a token says, and the token.
#[derive(Debug, Drop)]
pub struct Spelled {
    /// A name in small letters, or the value of a quoted text.
    pub bytes: Bytes,
    /// Where it stands.
    pub token: Token,
}

/// A whole number, and its token.
#[derive(Clone, Copy, Debug, PartialEq, Eq)]
pub struct Number {
    /// The number that its digits write, or 2^64 - 1 where it is more.
    pub value: u64,
    /// Where it stands.
    pub token: Token,
}

/// An operator, and its token.
#[derive(Clone, Copy, Debug, PartialEq, Eq)]
pub struct Operator {
    /// Which one it is; `!=` is `<>`.
    pub op: Option<Op>,
    /// Where it stands.
    pub token: Token,
}

/// The words of a statement from some token on, read from the left. Contracts see the list of the words that are left, each
/// with its token.
#[derive(Debug, Drop)]
pub struct Cursor<'a> {
    text: &'a [u8],
    tokens: &'a [Token],
    at: usize,
}

impl<'a> Model for Cursor<'a> {
    ghost use Rattle.std.specs.Prelude.{List, drop, ◌≤◌, length, All};
    ghost use Rattle.sql_grammar.specs.work.Reading.{IsWithin};
    ghost use Rattle.sql_grammar.specs.Terminals.{Terminal};
    ghost use Rattle.sql_grammar.specs.Faults.{terminals};
    ghost use Rattle.expr_reader.specs.work.Reading.{HasDigits};

    ghost Value = { List Terminal };

    ghost view = { λ c. terminals c.text.now (drop c.at c.tokens.now) };

    ghost invariant = { λ c. (c.at ≤ length c.tokens.now) × All (IsWithin c.text.now) c.tokens.now × All (HasDigits c.text.now) c.tokens.now };
}

impl<'a> Cursor<'a> {
    /// The words from token `first` on.
    pub fn new(text: &'a [u8], tokens: &'a Tokens, first: u32) -> Cursor<'a>
        requires short { length text.now ≤ 2 ^ 31 }
        requires words { (from : ℕ) × AreWords text.now from tokens.now }
        requires first { first ≤ length tokens.now }
        ensures { result ≡ terminals text.now (drop first tokens.now) }
    {
        Cursor {
            text,
            tokens: tokens.items(),
            at: first as usize,
        }
    }

    /// The words from token `first` up to, but not including, token `end`.
    pub fn part(text: &'a [u8], tokens: &'a Tokens, first: u32, end: u32) -> Cursor<'a>
        requires short { length text.now ≤ 2 ^ 31 }
        requires words { (from : ℕ) × AreWords text.now from tokens.now }
        requires order { first ≤ end }
        requires within { end ≤ length tokens.now }
        ensures { result ≡ terminals text.now (drop first (take end tokens.now)) }
    {
        let at = first as usize;
        let tokens = &tokens.items()[..end as usize];
        Cursor { text, tokens, at }
    }

    /// The token of the next word, which stays.
    pub fn token(&self) -> Token
        requires { (word : Terminal) × (left : List Terminal) × (self.now ≡ word ∷ left) }
        ensures { IsNextToken result self.now }
    {
        self.tokens[self.at]
    }

    /// The class of the next word, which stays; None where none is left.
    pub fn peek(&self) -> Option<Class>
        ensures { MatchOption result (self.now ≡ []) (λ c. IsNextClass c self.now) }
    {
        if self.at < self.tokens.len() {
            Some(class_of(self.text, self.tokens[self.at]))
        } else {
            None
        }
    }

    /// Whether a quoted text stands behind the next word.
    pub fn is_before_quoted(&self) -> bool
        ensures quoted { result ≡ true → IsNextClass ClassQuoted (drop 1 self.now) }
        ensures other { result ≡ false → BeginsNoQuoted (drop 1 self.now) }
    {
        let mut behind = Cursor {
            text: self.text,
            tokens: self.tokens,
            at: self.at,
        };
        behind.skip(1);
        behind.peek() == Some(Class::Quoted)
    }

    /// Passes over the next words; over all that are left where there are not so many.
    pub fn skip(&mut self, count: usize)
        ensures { self.new ≡ drop count self.old }
    {
        if count < self.tokens.len() - self.at {
            self.at += count;
        } else {
            self.at = self.tokens.len();
        }
    }

    /// Takes the next word where it is this reserved word.
    pub fn takes(&mut self, wanted: Word) -> bool
        ensures took { result ≡ true → Begins (t_key wanted) self.old self.new }
        ensures left { result ≡ false → self.new ≡ self.old }
        ensures other { result ≡ false → BeginsNot (t_key wanted) self.old }
    {
        if self.peek() == Some(Class::Key(wanted)) {
            self.skip(1);
            true
        } else {
            false
        }
    }

    /// Takes the next word where it is this symbol.
    pub fn takes_mark(&mut self, wanted: Symbol) -> bool
        ensures took { result ≡ true → Begins (t_mark wanted) self.old self.new }
        ensures left { result ≡ false → self.new ≡ self.old }
        ensures other { result ≡ false → BeginsNot (t_mark wanted) self.old }
    {
        if self.peek() == Some(Class::Mark(wanted)) {
            self.skip(1);
            true
        } else {
            false
        }
    }

    /// Takes the next word where it is this word, which is not reserved.
    pub fn takes_free(&mut self, wanted: Free) -> bool
        ensures took { result ≡ true → Begins (free_name wanted) self.old self.new }
        ensures left { result ≡ false → self.new ≡ self.old }
        ensures other { result ≡ false → BeginsNot (free_name wanted) self.old }
    {
        if self.peek() == Some(Class::Name(Some(wanted))) {
            self.skip(1);
            true
        } else {
            false
        }
    }

    /// Takes the next word where it is a name.
    pub fn name(&mut self, alloc: Global) -> Result<Option<Spelled>, AllocError>
        ensures { MatchResult result
            (λ found. MatchOption found ((self.new ≡ self.old) × BeginsNoName self.old) (λ s. BeginsName s self.old self.new))
            (λ _. self.new ≡ self.old) }
    {
        match self.peek() {
            Some(Class::Name(_)) => {
                let token = self.tokens[self.at];
                let bytes = small_letters(alloc, self.text, token)?;
                self.skip(1);
                Ok(Some(Spelled { bytes, token }))
            }
            _ => Ok(None),
        }
    }

    /// Takes the next word where it is a quoted text.
    pub fn quoted(&mut self, alloc: Global) -> Result<Option<Spelled>, AllocError>
        ensures { MatchResult result
            (λ found. MatchOption found ((self.new ≡ self.old) × BeginsNoQuoted self.old) (λ s. BeginsQuoted s self.old self.new))
            (λ _. self.new ≡ self.old) }
    {
        match self.peek() {
            Some(Class::Quoted) => {
                let token = self.tokens[self.at];
                let bytes = unquoted(alloc, self.text, token)?;
                self.skip(1);
                Ok(Some(Spelled { bytes, token }))
            }
            _ => Ok(None),
        }
    }

    /// Takes the next word where it is a number.
    pub fn number(&mut self) -> Option<Number>
        ensures { TakesNumber result self.old self.new }
    {
        match self.peek() {
            Some(Class::Number) => {
                let token = self.tokens[self.at];
                let value = number_value(self.text, token);
                self.skip(1);
                Some(Number { value, token })
            }
            _ => None,
        }
    }

    /// Takes the next word where it is an operator.
    pub fn operator(&mut self) -> Option<Operator>
        ensures { TakesOperator result self.old self.new }
    {
        match self.peek() {
            Some(Class::Operator) => {
                let token = self.tokens[self.at];
                let op = operator_named(self.text, token);
                self.skip(1);
                Some(Operator { op, token })
            }
            _ => None,
        }
    }

    /// Takes the next word, which is a name. The error means that memory ran out.
    pub fn expect_name(&mut self, alloc: Global) -> Result<Spelled, AllocError>
        requires { (n : Ident) × (left : List Terminal) × (self.old ≡ t_name n ∷ left) }
        ensures read { IfOk result (λ s. BeginsName s self.old self.new) }
        ensures left { IfErr result (λ _. self.new ≡ self.old) }
    {
        let Some(found) = self.name(alloc)? else {
            unreachable!();
        };
        Ok(found)
    }
}
