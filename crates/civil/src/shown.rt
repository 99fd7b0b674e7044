//! The texts of dates, timestamps and numerics.

ghost use Rattle.std.specs.Prelude.{◌≡◌, ◌≤◌, ◌+◌, ◌++◌, length, Some, true};
ghost use Rattle.civil.specs.Days.{day_numbered, day_with, is_date_number};
ghost use Rattle.civil.specs.Times.{is_instant};
ghost use Rattle.civil.specs.Shown.{date_text_of, fraction_text, numeric_text_of, size_text, time_text, timestamp_text_of, timestamptz_text_of};

use crate::dates::DAYS_TO_2000;
use crate::forms::ten_to;
use crate::times::DAY;
use crate::written::Written;
use jiff_core::civil::Date;

/// The day with a number.
fn day_at(day: i64) -> (u16, u8, u8)
    requires { is_date_number day ≡ true }
    ensures { day_numbered day ≡ Some (day_with result.0 result.1 result.2) }
{
    match Date::from_unix_epoch_day(day + i64::from(DAYS_TO_2000)) {
        Ok(date) => (date.year.unsigned_abs(), date.month, date.day),
        Err(_) => (0, 0, 0),
    }
}

/// Puts a day's date at the end of a text.
fn put_date(text: &mut Written, day: i64)
    requires room { length text.old ≤ 10 }
    requires day { is_date_number day ≡ true }
    ensures text { text.new ≡ text.old ++ date_text_of day }
    ensures long { length text.new ≡ length text.old + 10 }
{
    let (year, month, day) = day_at(day);
    text.put_figures(4, u64::from(year));
    text.put(b'-');
    text.put_figures(2, u64::from(month));
    text.put(b'-');
    text.put_figures(2, u64::from(day));
}

/// Puts a point and the fraction of a second at the end of a text, or nothing where there is none.
fn put_fraction(text: &mut Written, micros: u64)
    requires room { length text.old ≤ 30 }
    ensures text { text.new ≡ text.old ++ fraction_text micros }
    ensures long { length text.new ≤ length text.old + 7 }
{
    if micros != 0 {
        text.put(b'.');
        text.put_short_figures(6, micros);
    }
}

/// Puts the time of day that so many microseconds make at the end of a text.
fn put_time(text: &mut Written, micros: u64)
    requires room { length text.old ≤ 20 }
    ensures text { text.new ≡ text.old ++ time_text micros }
    ensures long { length text.new ≤ length text.old + 15 }
{
    text.put_figures(2, micros / 3_600_000_000);
    text.put(b':');
    text.put_figures(2, micros / 60_000_000 % 60);
    text.put(b':');
    text.put_figures(2, micros / 1_000_000 % 60);
    put_fraction(text, micros % 1_000_000);
}

/// Puts a number without its sign at the end of a text, with so many digits behind the point.
fn put_size(text: &mut Written, scale: u8, size: u64)
    requires room { length text.old ≤ 1 }
    requires scale { scale ≤ 18 }
    ensures { text.new ≡ text.old ++ size_text scale size }
{
    text.put_decimal(size / ten_to(usize::from(scale)));
    if scale > 0 {
        text.put(b'.');
        text.put_figures(usize::from(scale), size);
    }
}

/// The text of a date.
pub fn date_text(day: i64) -> Written
    requires { is_date_number day ≡ true }
    ensures { result ≡ date_text_of day }
{
    let mut text = Written::nothing();
    put_date(&mut text, day);
    text
}

/// A timestamp's text, of at most 26 bytes.
fn moment_text(n: i64) -> Written
    requires { is_instant n ≡ true }
    ensures text { result ≡ timestamp_text_of n }
    ensures long { length result ≤ 26 }
{
    let mut text = Written::nothing();
    put_date(&mut text, n.div_euclid(DAY));
    text.put(b' ');
    put_time(&mut text, n.rem_euclid(DAY) as u64);
    text
}

/// The text of a timestamp.
pub fn timestamp_text(n: i64) -> Written
    requires { is_instant n ≡ true }
    ensures { result ≡ timestamp_text_of n }
{
    moment_text(n)
}

/// The text of a timestamp with time zone, in UTC.
pub fn timestamptz_text(n: i64) -> Written
    requires { is_instant n ≡ true }
    ensures { result ≡ timestamptz_text_of n }
{
    let mut text = moment_text(n);
    text.put(b'+');
    text.put(b'0');
    text.put(b'0');
    text
}

/// The text of a numeric with so many digits behind the point.
pub fn numeric_text(scale: u8, n: i64) -> Written
    requires { scale ≤ 18 }
    ensures { result ≡ numeric_text_of scale n }
{
    let mut text = Written::nothing();
    if n < 0 {
        text.put(b'-');
    }
    put_size(&mut text, scale, n.unsigned_abs());
    text
}
