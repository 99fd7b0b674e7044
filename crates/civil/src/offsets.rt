//! Offsets from UTC, and timestamps with time zone.

ghost use Rattle.std.specs.Prelude.{◌≡◌, ◌≤ℤ◌, pos, neg_ℤ, true, cond, IfSome, Some, None};
ghost use Rattle.civil.specs.Forms.{has_a_form};
ghost use Rattle.civil.specs.Times.{has_instant, instant, instant_value, is_of_time, is_offset, is_timestamp_text, offset_forms, offset_micros, offset_place, timestamptz_value};

use crate::forms::{behind, fits, is_negative, up_to, with_sign};
use crate::ranges::is_instant;
use crate::times::{is_timestamp, moment_of, part_in};
use crate::unread::Unread;

/// A text is an offset: nothing, `Z`, or a sign, hours, and minutes where they are written.
fn is_offset_text(offset: &[u8]) -> bool
    ensures { result ≡ has_a_form offset_forms offset.now }
{
    fits(b"", offset)
        || fits(b"Z", offset)
        || fits(b"+DD", offset)
        || fits(b"-DD", offset)
        || fits(b"+DD:DD", offset)
        || fits(b"-DD:DD", offset)
}

/// The microseconds of an offset from UTC, or none where a part of it is out of range.
fn size_of(offset: &[u8]) -> Option<i64>
    requires { has_a_form offset_forms offset.now ≡ true }
    ensures value { result ≡ cond (is_offset offset.now) (Some (offset_micros offset.now)) None }
    ensures bound { IfSome result (λ n. (neg_ℤ (pos 57_600_000_000) ≤ℤ n) × (n ≤ℤ pos 57_600_000_000)) }
{
    let hours = match part_in(offset, 1, 15) {
        Some(hours) => hours,
        None => return None,
    };
    let minutes = match part_in(offset, 4, 59) {
        Some(minutes) => minutes,
        None => return None,
    };
    Some(with_sign(is_negative(offset), (hours * 60 + minutes) * 60_000_000))
}

/// A byte of a time: a digit, a colon or a point.
fn is_time_byte(byte: u8) -> bool
    ensures { result ≡ is_of_time byte }
{
    byte.is_ascii_digit() || byte == b':' || byte == b'.'
}

/// Where the offset of a text begins.
fn offset_at(text: &[u8]) -> usize
    ensures { result ≡ offset_place text.now }
{
    let time = behind(text, 11);
    for n in 0..time.len() {
        if !is_time_byte(time[n]) {
            return 11 + n;
        }
    }
    11 + time.len()
}

/// The clock's time less the offset, or none where a part or the instant is out of range.
fn instant_of(clock: &[u8], offset: &[u8]) -> Option<i64>
    requires clock { is_timestamp_text clock.now ≡ true }
    requires offset { has_a_form offset_forms offset.now ≡ true }
    ensures { result ≡ cond (has_instant clock.now offset.now) (Some (instant clock.now offset.now)) None }
{
    let moment = match moment_of(clock) {
        Some(moment) => moment,
        None => return None,
    };
    let size = match size_of(offset) {
        Some(size) => size,
        None => return None,
    };
    let instant = moment - size;
    if is_instant(instant) {
        Some(instant)
    } else {
        None
    }
}

/// What the text of a timestamp and that of an offset spell.
fn read_instant(clock: &[u8], offset: &[u8]) -> Result<i64, Unread>
    ensures { result ≡ instant_value clock.now offset.now }
{
    if !is_timestamp(clock) {
        return Err(Unread::Form);
    }
    if !is_offset_text(offset) {
        return Err(Unread::Form);
    }
    match instant_of(clock, offset) {
        Some(instant) => Ok(instant),
        None => Err(Unread::Range),
    }
}

/// The instant that a text spells: the microseconds of its time in UTC from 2000-01-01 00:00:00 on.
pub fn read_timestamptz(text: &[u8]) -> Result<i64, Unread>
    ensures { result ≡ timestamptz_value text.now }
{
    let place = offset_at(text);
    read_instant(up_to(text, place), behind(text, place))
}
