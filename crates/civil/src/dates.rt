//! Dates.

ghost use Rattle.std.specs.Prelude.{◌≡◌, ◌≤◌, true, take};
ghost use Rattle.civil.specs.Days.{day_with};
ghost use Rattle.civil.specs.work.Days.{number_of_day};
ghost use Rattle.civil.specs.Times.{date_value, day_in, is_date_text};

use crate::forms::{fits, number_in};
use crate::unread::Unread;
use jiff_core::civil::Date;

/// The number of 2000-01-01, counted from 1970-01-01 on.
pub(crate) const DAYS_TO_2000: i32 = 10_957;

/// The number of a day that the calendar has, or none.
fn number_of(year: u16, month: u8, day: u8) -> Option<i32>
    requires year { year ≤ 9999 }
    requires month { month ≤ 99 }
    requires day { day ≤ 99 }
    ensures { result ≡ number_of_day (day_with year month day) }
{
    if year == 0 {
        return None;
    }
    match Date::new(year as i16, month as i8, day as i8) {
        Ok(date) => Some(date.to_unix_epoch_day() - DAYS_TO_2000),
        Err(_) => None,
    }
}

/// A text is of the form of a date.
pub(crate) fn has_date(text: &[u8]) -> bool
    ensures { result ≡ is_date_text text.now }
{
    fits(b"DDDD-DD-DD", text)
}

/// The number of the day that a text of the form of a date begins with, or none where the calendar has no such day.
pub(crate) fn day_of(text: &[u8]) -> Option<i32>
    requires { is_date_text (take 10 text.now) ≡ true }
    ensures { result ≡ number_of_day (day_in text.now) }
{
    let year = number_in(text, 0, 4) as u16;
    let month = number_in(text, 5, 2) as u8;
    let day = number_in(text, 8, 2) as u8;
    number_of(year, month, day)
}

/// The date that a text spells: its day's number, 0 for 2000-01-01.
pub fn read_date(text: &[u8]) -> Result<i64, Unread>
    ensures { result ≡ date_value text.now }
{
    if !has_date(text) {
        return Err(Unread::Form);
    }
    match day_of(text) {
        Some(number) => Ok(i64::from(number)),
        None => Err(Unread::Range),
    }
}
