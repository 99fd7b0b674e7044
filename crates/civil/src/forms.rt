//! Forms of texts, character by character, and the numbers that their digits write.

ghost use Rattle.std.specs.Prelude.{◌≡◌, ◌≤◌, ◌<◌, ◌-◌, ◌^◌, true, min, take, drop};
ghost use Rattle.std.specs.Char.{is_ascii_digit};
ghost use Rattle.std.specs.List.{list_all};
ghost use Rattle.std.specs.Str.Parse.{digits_value, starts_with_minus};
ghost use Rattle.civil.specs.Forms.{fraction, has_form, is_uuid_text, number_at, signed, stands_for};

/// A character is one that a form's character stands for.
fn is_at(form: u8, byte: u8) -> bool
    ensures { result ≡ stands_for form byte }
{
    match form {
        b'D' => byte.is_ascii_digit(),
        b'H' => byte.is_ascii_hexdigit(),
        _ => form == byte,
    }
}

/// A text has a form.
pub(crate) fn fits(form: &[u8], text: &[u8]) -> bool
    ensures { result ≡ has_form form.now text.now }
{
    if form.len() != text.len() {
        return false;
    }
    for n in 0..form.len() {
        if !is_at(form[n], text[n]) {
            return false;
        }
    }
    true
}

/// The first bytes of a text, so many where it has them.
pub(crate) fn up_to(text: &[u8], place: usize) -> &[u8]
    ensures { result.now ≡ take place text.now }
{
    if place > text.len() {
        return text;
    }
    &text[..place]
}

/// What stands behind the first bytes of a text.
pub(crate) fn behind(text: &[u8], place: usize) -> &[u8]
    ensures { result.now ≡ drop place text.now }
{
    if place > text.len() {
        return &[];
    }
    &text[place..]
}

/// The number that digits write, or 2^64 - 1 where it is more.
pub(crate) fn number_of(digits: &[u8]) -> u64
    requires { list_all is_ascii_digit digits.now ≡ true }
    ensures { result ≡ min (digits_value 10 digits.now) (2 ^ 64 - 1) }
{
    let mut number: u64 = 0;
    for digit in digits {
        number = number
            .saturating_mul(10)
            .saturating_add(u64::from(*digit - b'0'));
    }
    number
}

/// A power of ten.
pub(crate) fn ten_to(n: usize) -> u64
    requires { n ≤ 18 }
    ensures { result ≡ 10 ^ n }
{
    10_u64.pow(n as u32)
}

/// The number that so many digits of a text write, from a place on; 0 where the text ends before.
pub(crate) fn number_in(text: &[u8], place: usize, count: usize) -> u64
    requires few { count ≤ 18 }
    requires digits { list_all is_ascii_digit (take count (drop place text.now)) ≡ true }
    ensures value { result ≡ number_at place count text.now }
    ensures bound { result < 10 ^ count }
{
    number_of(up_to(behind(text, place), count))
}

/// The number that the digits behind a point write, counted in the last of so many places; further ones are left out.
pub(crate) fn fraction_of(digits: &[u8], places: usize) -> u64
    requires few { places ≤ 18 }
    requires digits { list_all is_ascii_digit digits.now ≡ true }
    ensures value { result ≡ fraction places digits.now }
    ensures bound { result < 10 ^ places }
{
    let part = up_to(digits, places);
    number_of(part) * ten_to(places - part.len())
}

/// A text begins with a minus.
pub(crate) fn is_negative(text: &[u8]) -> bool
    ensures { result ≡ starts_with_minus text.now }
{
    matches!(text, [b'-', ..])
}

/// The number of this size, below 0 where `minus`.
pub(crate) fn with_sign(minus: bool, size: u64) -> i64
    requires { size ≤ 10 ^ 18 }
    ensures { result ≡ signed minus size }
{
    if minus { -(size as i64) } else { size as i64 }
}

/// A text is a uuid: 8, 4, 4, 4 and 12 hexadecimal digits in capital or small letters, with hyphens between.
pub fn is_uuid(text: &[u8]) -> bool
    ensures { result ≡ is_uuid_text text.now }
{
    fits(b"HHHHHHHH-HHHH-HHHH-HHHH-HHHHHHHHHHHH", text)
}
