//! Moments, as a command line says them.

use crate::layout::Moment;
use jiff_fmt::temporal::{parse_date, parse_time};

/// The nanoseconds of a second.
const SECOND: i64 = 1_000_000_000;

/// The seconds of a day.
const DAY: i64 = 86_400;

/// How many nanoseconds each digit behind the point stands for.
const PLACES: [i64; 9] = [
    100_000_000,
    10_000_000,
    1_000_000,
    100_000,
    10_000,
    1_000,
    100,
    10,
    1,
];

/// A number of one to so many digits, and nothing else.
fn digits(text: &str, most: usize) -> Option<i64> {
    if text.is_empty() || text.len() > most || !text.bytes().all(|byte| byte.is_ascii_digit()) {
        return None;
    }
    text.parse::<i64>().ok()
}

/// The nanoseconds that digits behind a point stand for. None where they aren't one to nine digits.
fn fraction(text: &str) -> Option<i64> {
    digits(text, PLACES.len())?;
    let mut nanos: i64 = 0;
    for (byte, place) in text.bytes().zip(PLACES) {
        let part = i64::from(byte.wrapping_sub(b'0')).checked_mul(place)?;
        nanos = nanos.checked_add(part)?;
    }
    Some(nanos)
}

/// The nanoseconds of seconds, which may have digits behind a point.
fn seconds_in(text: &str, most: usize) -> Option<(i64, i64)> {
    match text.split_once('.') {
        Some((seconds, rest)) => Some((digits(seconds, most)?, fraction(rest)?)),
        None => Some((digits(text, most)?, 0)),
    }
}

/// Whether a text has nothing but digits and these signs.
fn has_only(text: &str, signs: &[u8]) -> bool {
    text.bytes()
        .all(|byte| byte.is_ascii_digit() || signs.contains(&byte))
}

/// The nanoseconds since midnight of a time of day. An offset from UTC is none.
fn time_of_day(text: &str) -> Option<i64> {
    if !has_only(text, b":.") {
        return None;
    }
    let time = parse_time(text.as_bytes()).ok()?;
    i64::try_from(time.to_nanosecond()).ok()
}

/// The nanoseconds from the beginning of 1970 to that of a day.
fn day_in(text: &str) -> Option<i64> {
    if !has_only(text, b"-") {
        return None;
    }
    let day = parse_date(text.as_bytes()).ok()?.to_unix_epoch_day();
    i64::from(day).checked_mul(DAY)?.checked_mul(SECOND)
}

/// The units of a time that is told back from now, in seconds.
const UNITS: [(char, i64); 4] = [('s', 1), ('m', 60), ('h', 3_600), ('d', DAY)];

/// The nanoseconds of seconds, minutes, hours or days, as `1.5h`. None where no unit ends the text.
fn length_in(text: &str) -> Option<i64> {
    for (sign, seconds) in UNITS {
        if let Some(number) = text.strip_suffix(sign) {
            return nanos_in(number)?.checked_mul(seconds);
        }
    }
    None
}

/// The nanoseconds of a number of seconds of at most ten digits, which may have more behind a point.
fn nanos_in(text: &str) -> Option<i64> {
    let (seconds, nanos) = seconds_in(text, 10)?;
    seconds.checked_mul(SECOND)?.checked_add(nanos)
}

/// HH:MM:SS of each day, or YYYY-MM-DDTHH:MM:SS, also with a blank in the place of the T, as rows have it.
fn dated_in(text: &str) -> Option<Moment> {
    match text.split_once('T').or_else(|| text.split_once(' ')) {
        Some((day, time)) => {
            let nanos = day_in(day)?.checked_add(time_of_day(time)?)?;
            Some(Moment::Dated(nanos))
        }
        None => Some(Moment::OfDay(time_of_day(text)?)),
    }
}

/// A length before now; or seconds before the first message, which have a point, as rows do: what has none is rather meant to
/// be a length.
fn before_in(text: &str) -> Option<Moment> {
    if let Some(length) = length_in(text) {
        return Some(Moment::Ago(length));
    }
    if !text.contains('.') {
        return None;
    }
    Some(Moment::SinceFirst(nanos_in(text)?.checked_neg()?))
}

/// Seconds since the first message, with a sign or without.
fn seconds_since(text: &str) -> Option<Moment> {
    Some(Moment::SinceFirst(nanos_in(text.strip_prefix('+').unwrap_or(text))?))
}

/// The nanoseconds of a monotonic time stamp, as a listing has them: they have more digits than seconds may have.
fn stamp_in(text: &str) -> Option<Moment> {
    let digits = text.strip_prefix('-').unwrap_or(text);
    if digits.len() > 10 && digits.bytes().all(|byte| byte.is_ascii_digit()) {
        return Some(Moment::Monotonic(text.parse::<i64>().ok()?));
    }
    None
}

/// The moment that a text names: HH:MM:SS of each day, YYYY-MM-DDTHH:MM:SS, seconds since the first message, each with digits
/// behind a point or without, a length before now as -5s, or a monotonic time stamp. None where it names none.
pub fn moment_in(text: &str) -> Option<Moment> {
    if text.contains(':') {
        return dated_in(text);
    }
    if let Some(stamp) = stamp_in(text) {
        return Some(stamp);
    }
    match text.strip_prefix('-') {
        Some(text) => before_in(text),
        None => seconds_since(text),
    }
}
