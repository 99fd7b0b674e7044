//! Numbers with a fixed number of digits behind the point.

ghost use Rattle.std.specs.Prelude.{◌≡◌, ◌<◌, ◌^◌, true, cond, IfSome, Some, None};
ghost use Rattle.std.specs.Char.{is_ascii_digit};
ghost use Rattle.std.specs.List.{list_all, prefix_len};
ghost use Rattle.std.specs.Str.Parse.{without_leading_sign};
ghost use Rattle.civil.specs.Numerics.{is_decimal, is_fraction, is_in, is_nought, is_numeral, numeric_value, scaled};

use crate::forms::{behind, fraction_of, is_negative, number_of, ten_to, up_to, with_sign};
use crate::ranges::has_size;
use crate::unread::Unread;

/// A text without a sign before it.
fn unsigned(text: &[u8]) -> &[u8]
    ensures { result.now ≡ without_leading_sign text.now }
{
    match text {
        [b'-' | b'+', rest @ ..] => rest,
        _ => text,
    }
}

/// How many decimal digits a text begins with.
fn digits_of(text: &[u8]) -> usize
    ensures { result ≡ prefix_len is_ascii_digit text.now }
{
    for n in 0..text.len() {
        if !text[n].is_ascii_digit() {
            return n;
        }
    }
    text.len()
}

/// A text is one decimal digit or more.
fn is_numeral_text(text: &[u8]) -> bool
    ensures { result ≡ is_numeral text.now }
{
    if text.is_empty() {
        return false;
    }
    for n in 0..text.len() {
        if !text[n].is_ascii_digit() {
            return false;
        }
    }
    true
}

/// A text is nothing, or a point and digits.
fn is_fraction_text(text: &[u8]) -> bool
    ensures { result ≡ is_fraction text.now }
{
    match text {
        [] => true,
        [b'.', digits @ ..] => is_numeral_text(digits),
        _ => false,
    }
}

/// A text is digits, and optionally a point and digits.
fn is_decimal_text(text: &[u8]) -> bool
    ensures { result ≡ is_decimal text.now }
{
    let place = digits_of(text);
    is_numeral_text(up_to(text, place)) && is_fraction_text(behind(text, place))
}

/// A text is zeros alone.
fn are_noughts(text: &[u8]) -> bool
    ensures { result ≡ list_all is_nought text.now }
{
    for n in 0..text.len() {
        if text[n] != b'0' {
            return false;
        }
    }
    true
}

/// A number times 10 to the scale, or none where the type has no such number.
fn size_of(digits: u8, scale: u8, text: &[u8]) -> Option<u64>
    requires { is_decimal text.now ≡ true }
    ensures value { result ≡ cond (is_in digits scale text.now) (Some (scaled scale text.now)) None }
    ensures bound { IfSome result (λ n. n < 10 ^ 18) }
{
    if !has_size(digits, scale) {
        return None;
    }
    let place = digits_of(text);
    let places = behind(behind(text, place), 1);
    if !are_noughts(behind(places, usize::from(scale))) {
        return None;
    }
    let whole = u128::from(number_of(up_to(text, place)));
    let part = u128::from(fraction_of(places, usize::from(scale)));
    let size = whole * u128::from(ten_to(usize::from(scale))) + part;
    if size < u128::from(ten_to(usize::from(digits))) {
        Some(size as u64)
    } else {
        None
    }
}

/// The number that a text spells, times 10 to the scale: one of at most `digits` decimal digits, `scale` of them behind
/// the point. A type has from 1 to 18 digits; of other sizes no number is in range.
pub fn read_numeric(digits: u8, scale: u8, text: &[u8]) -> Result<i64, Unread>
    ensures { result ≡ numeric_value digits scale text.now }
{
    let number = unsigned(text);
    if !is_decimal_text(number) {
        return Err(Unread::Form);
    }
    match size_of(digits, scale, number) {
        Some(size) => Ok(with_sign(is_negative(text), size)),
        None => Err(Unread::Range),
    }
}
