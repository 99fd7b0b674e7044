//! The bytes of a line that are left.

ghost use Rattle.std.specs.Prelude.{◌≡◌, ◌↔◌, ◌<◌, ◌≤◌, ◌+◌, ◌^◌, ◌++◌, ℕ, List, IfSome, IsTrue, false, length, true};
ghost use Rattle.std.specs.Fmt.{decimal};
ghost use Rattle.std.specs.List.{list_all};
ghost use Rattle.pg_base.specs.Names.{is_in_name};
ghost use Rattle.certificate_text.specs.work.Words.{IsNextNumber, IsNextWord, PassesOver, below_end, has_leading_zero, number_written, stops, word_end};

use pg_value::read_digits;
use std::marker::Model;

/// A line, read from the left. Contracts see the bytes that are left.
#[derive(Drop)]
pub struct LineCursor<'a> {
    left: &'a [u8],
}

impl<'a> Model for LineCursor<'a> {
    ghost use Rattle.std.specs.Prelude.{List, ℕ};

    ghost Value = { List ℕ };

    ghost view = { λ c. c.left.now };
}

/// Whether a byte may stand in a name: a small letter, a digit, `_` or `$`.
fn is_in_word(b: u8) -> bool
    ensures { result ≡ is_in_name b }
{
    b.is_ascii_lowercase() || b.is_ascii_digit() || b == b'_' || b == b'$'
}

/// How many bytes of names a text begins with.
fn word_length(text: &[u8]) -> usize
    ensures within { result ≤ length text.now }
    ensures word { result ≡ word_end text.now }
{
    for n in 0..text.len() {
        if !is_in_word(text[n]) {
            return n;
        }
    }
    text.len()
}

/// Whether digits begin with a zero that is not the only one.
fn has_leading_zero(digits: &[u8]) -> bool
    ensures { result ≡ has_leading_zero digits.now }
{
    digits.len() > 1 && digits[0] == b'0'
}

/// A number below 10^19.
fn below_end(n: u64) -> Option<u64>
    ensures { result ≡ below_end n }
{
    if n < 10_000_000_000_000_000_000 {
        Some(n)
    } else {
        None
    }
}

/// The number that a text writes as numbers are written. None where it writes none below 10^19.
fn number_of(digits: &[u8]) -> Option<u64>
    ensures { result ≡ number_written digits.now }
{
    if has_leading_zero(digits) {
        return None;
    }
    match read_digits(digits) {
        Some(n) => below_end(n),
        None => None,
    }
}

impl<'a> LineCursor<'a> {
    /// The whole line.
    pub fn new(line: &'a [u8]) -> LineCursor<'a>
        ensures { result ≡ line.now }
    {
        LineCursor { left: line }
    }

    /// Whether no byte is left.
    pub fn is_done(&self) -> bool
        ensures { IsTrue result ↔ (length self.now ≡ 0) }
    {
        self.left.is_empty()
    }

    /// Passes over these bytes where they come next. Where they do not, it says so, and nothing is passed over.
    pub fn eat(&mut self, wanted: &[u8]) -> bool
        ensures took { PassesOver wanted.now self.old self.new result }
        ensures left { result ≡ false → self.new ≡ self.old }
        ensures is { result ≡ true → self.old ≡ wanted.now ++ self.new }
        ensures shorter { length self.new ≤ length self.old }
        ensures less { result ≡ true → length self.new + length wanted.now ≤ length self.old }
    {
        match self.left.strip_prefix(wanted) {
            Some(rest) => {
                self.left = rest;
                true
            }
            None => false,
        }
    }

    /// The longest run of bytes of names that comes next, which may be empty, and passes over it.
    pub fn word(&mut self) -> &'a [u8]
        ensures split { self.old ≡ result.now ++ self.new }
        ensures word { list_all is_in_name result.now ≡ true }
        ensures stops { stops self.new ≡ true }
        ensures only { IsNextWord self.old self.new result.now }
        ensures shorter { length self.new ≤ length self.old }
    {
        let left = self.left;
        let end = word_length(left);
        self.left = &left[end..];
        &left[..end]
    }

    /// The number that the next word writes, and passes over the word. None where it writes none below 10^19 as numbers are
    /// written, without a leading zero.
    pub fn number(&mut self) -> Option<u64>
        ensures is { IfSome result (λ n. (n < 10 ^ 19) × (self.old ≡ decimal n ++ self.new)) }
        ensures only { IsNextNumber self.old self.new result }
        ensures shorter { length self.new ≤ length self.old }
    {
        number_of(self.word())
    }
}
