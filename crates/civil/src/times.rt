//! Times of day and timestamps.

ghost use Rattle.std.specs.Prelude.{◌≡◌, ◌≤◌, ◌<◌, ◌≤ℤ◌, pos, neg_ℤ, nat_le, true, cond, take, drop, IfSome, Some, None};
ghost use Rattle.std.specs.Char.{is_ascii_digit};
ghost use Rattle.std.specs.List.{list_all};
ghost use Rattle.civil.specs.Forms.{has_a_form, number_at};
ghost use Rattle.civil.specs.Times.{clock_micros, fraction_forms, is_clock, is_moment, is_time_part, is_timestamp_text, moment, time_forms, timestamp_value};

use crate::dates::{day_of, has_date};
use crate::forms::{behind, fits, fraction_of, number_in, up_to};
use crate::unread::Unread;

/// The microseconds of a day.
pub(crate) const DAY: i64 = 86_400_000_000;

/// A text is a time with one to six digits of a fraction of a second.
fn has_fraction(time: &[u8]) -> bool
    ensures { result ≡ has_a_form fraction_forms time.now }
{
    fits(b"DD:DD:DD.D", time)
        || fits(b"DD:DD:DD.DD", time)
        || fits(b"DD:DD:DD.DDD", time)
        || fits(b"DD:DD:DD.DDDD", time)
        || fits(b"DD:DD:DD.DDDDD", time)
        || fits(b"DD:DD:DD.DDDDDD", time)
}

/// A text is a time: hours and minutes, then seconds, then a fraction, where they are written.
fn is_time(time: &[u8]) -> bool
    ensures { result ≡ has_a_form time_forms time.now }
{
    fits(b"DD:DD", time) || fits(b"DD:DD:DD", time) || has_fraction(time)
}

/// What stands behind a date is nothing, or a space or `T` and a time.
fn is_part(part: &[u8]) -> bool
    ensures { result ≡ is_time_part part.now }
{
    match part {
        [] => true,
        [b' ' | b'T', time @ ..] => is_time(time),
        _ => false,
    }
}

/// A text is a timestamp's: a date, and behind it nothing or a time.
pub(crate) fn is_timestamp(text: &[u8]) -> bool
    ensures { result ≡ is_timestamp_text text.now }
{
    has_date(up_to(text, 10)) && is_part(behind(text, 10))
}

/// The number that two digits of a text write from a place on, or none where it is more than `most`.
pub(crate) fn part_in(text: &[u8], place: usize, most: u64) -> Option<u64>
    requires digits { list_all is_ascii_digit (take 2 (drop place text.now)) ≡ true }
    ensures value { result ≡ cond (nat_le (number_at place 2 text.now) most) (Some (number_at place 2 text.now)) None }
    ensures bound { IfSome result (λ n. n ≤ most) }
{
    let number = number_in(text, place, 2);
    if number <= most { Some(number) } else { None }
}

/// The microseconds from midnight on of the time that a timestamp's text has, or none where no clock shows it.
fn clock_of(text: &[u8]) -> Option<u64>
    requires { is_timestamp_text text.now ≡ true }
    ensures value { result ≡ cond (is_clock (drop 11 text.now)) (Some (clock_micros (drop 11 text.now))) None }
    ensures bound { IfSome result (λ n. n < 86_400_000_000) }
{
    let time = behind(text, 11);
    let hours = match part_in(time, 0, 23) {
        Some(hours) => hours,
        None => return None,
    };
    let minutes = match part_in(time, 3, 59) {
        Some(minutes) => minutes,
        None => return None,
    };
    let seconds = match part_in(time, 6, 59) {
        Some(seconds) => seconds,
        None => return None,
    };
    let fraction = fraction_of(behind(time, 9), 6);
    Some(((hours * 60 + minutes) * 60 + seconds) * 1_000_000 + fraction)
}

/// The microseconds of a timestamp's day and time from 2000-01-01 00:00:00 on, or none where a part is out of range.
pub(crate) fn moment_of(text: &[u8]) -> Option<i64>
    requires { is_timestamp_text text.now ≡ true }
    ensures value { result ≡ cond (is_moment text.now) (Some (moment text.now)) None }
    ensures bound { IfSome result (λ n. (neg_ℤ (pos 400_000_000_000_000_000) ≤ℤ n) × (n ≤ℤ pos 400_000_000_000_000_000)) }
{
    match day_of(text) {
        Some(day) => match clock_of(text) {
            Some(clock) => Some(i64::from(day) * DAY + clock as i64),
            None => None,
        },
        None => None,
    }
}

/// The timestamp that a text spells: its microseconds from 2000-01-01 00:00:00 on.
pub fn read_timestamp(text: &[u8]) -> Result<i64, Unread>
    ensures { result ≡ timestamp_value text.now }
{
    if !is_timestamp(text) {
        return Err(Unread::Form);
    }
    match moment_of(text) {
        Some(moment) => Ok(moment),
        None => Err(Unread::Range),
    }
}
