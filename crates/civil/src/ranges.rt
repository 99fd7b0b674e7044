//! The whole numbers that are dates, instants and numerics.

ghost use Rattle.std.specs.Prelude.{◌≡◌, ◌≤◌, ◌-◌, ◌^◌, ℕ, min, nat_lt};
ghost use Rattle.civil.specs.Days.{is_date_number};
ghost use Rattle.civil.specs.Forms.{signed};
ghost use Rattle.civil.specs.Numerics.{is_numeric_number, is_size, whole_numeric_of};
ghost use Rattle.civil.specs.Times as times;

use crate::forms::{ten_to, with_sign};

/// The days of 0001-01-01, the least, and of 9999-12-31, the greatest.
const FIRST_DAY: i64 = -730_119;

const LAST_DAY: i64 = 2_921_939;

/// The microseconds of 0001-01-01 00:00:00, the least, and of 9999-12-31 23:59:59.999999, the greatest.
const FIRST_INSTANT: i64 = -63_082_281_600_000_000;

const LAST_INSTANT: i64 = 252_455_615_999_999_999;

/// A number is a date's.
pub fn is_date(n: i64) -> bool
    ensures { result ≡ is_date_number n }
{
    FIRST_DAY <= n && n <= LAST_DAY
}

/// A number is that of a timestamp, with time zone or without.
pub fn is_instant(n: i64) -> bool
    ensures { result ≡ times.is_instant n }
{
    FIRST_INSTANT <= n && n <= LAST_INSTANT
}

/// There is a numeric type of so many digits, so many of them behind the point.
pub(crate) fn has_size(digits: u8, scale: u8) -> bool
    ensures { result ≡ is_size digits scale }
{
    1 <= digits && digits <= 18 && scale <= digits
}

/// A size is below the end of a numeric type.
fn is_below_end(digits: u8, size: u128) -> bool
    requires { digits ≤ 18 }
    ensures { result ≡ nat_lt size (10 ^ digits) }
{
    size < u128::from(ten_to(usize::from(digits)))
}

/// A number is a numeric's, of a type of so many digits, so many of them behind the point.
pub fn is_numeric(digits: u8, scale: u8, n: i64) -> bool
    ensures { result ≡ is_numeric_number digits scale n }
{
    if !has_size(digits, scale) {
        return false;
    }
    is_below_end(digits, u128::from(n.unsigned_abs()))
}

/// A whole number as a numeric: 10^scale times as much, or none where the type does not have it. The magnitude 2^64 - 1 stands for
/// all greater ones too.
pub fn whole_numeric(digits: u8, scale: u8, minus: bool, magnitude: u64) -> Option<i64>
    ensures { (n : ℕ) → magnitude ≡ min n (2 ^ 64 - 1) → result ≡ whole_numeric_of digits scale (signed minus n) }
{
    if !has_size(digits, scale) {
        return None;
    }
    let size = u128::from(magnitude) * u128::from(ten_to(usize::from(scale)));
    if is_below_end(digits, size) {
        Some(with_sign(minus, size as u64))
    } else {
        None
    }
}
