//! Tests of single bytes, and how far a run of bytes goes.

ghost use Rattle.std.specs.Prelude.{◌≡◌, ◌≤◌, ◌+◌, nat_eq, length, drop, IsTrue};
ghost use Rattle.std.specs.Char.{is_ascii_digit};
ghost use Rattle.std.specs.List.{prefix_len, starts_with};
ghost use Rattle.sql_lex.specs.Letters as letters;

pub fn is_space(b: u8) -> bool
    ensures { result ≡ letters.is_space b }
{
    b == b' ' || b == b'\t' || b == b'\n' || b == 12 || b == b'\r'
}

pub fn begins_word(b: u8) -> bool
    ensures { result ≡ letters.begins_word b }
{
    b.is_ascii_alphabetic() || b == b'_'
}

pub fn is_in_word(b: u8) -> bool
    ensures { result ≡ letters.is_in_word b }
{
    b.is_ascii_alphanumeric() || b == b'_' || b == b'$'
}

/// How many bytes of a word stand at the front.
pub fn word_len(bytes: &[u8]) -> usize
    ensures { result ≡ prefix_len letters.is_in_word bytes.now }
{
    bytes.iter().take_while(|b| is_in_word(**b)).count()
}

/// How many digits stand at the front.
pub fn digits_len(bytes: &[u8]) -> usize
    ensures { result ≡ prefix_len is_ascii_digit bytes.now }
{
    bytes.iter().take_while(|b| b.is_ascii_digit()).count()
}

/// How many bytes there are before an LF, or before the end where there is none.
pub fn line_len(bytes: &[u8]) -> usize
    ensures { result ≡ prefix_len letters.is_in_line bytes.now }
{
    bytes.iter().take_while(|b| **b != b'\n').count()
}

/// The bytes from a place on.
pub fn rest(bytes: &[u8], at: usize) -> &[u8]
    requires { at ≤ length bytes.now }
    ensures { result.now ≡ drop at bytes.now }
{
    &bytes[at..]
}

/// Whether these bytes stand at a place.
pub fn stands_at(bytes: &[u8], at: usize, mark: &[u8]) -> bool
    requires { at ≤ length bytes.now }
    ensures value { result ≡ starts_with nat_eq (drop at bytes.now) mark.now }
    ensures within { IsTrue result → at + length mark.now ≤ length bytes.now }
{
    rest(bytes, at).starts_with(mark)
}
