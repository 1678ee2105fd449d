//! Time stamps, as a person reads them.

use jiff_core::civil::DateTime;
use std::fmt;
use trace_times::{Time, time_of_stamp};

/// The nanoseconds of a second.
const SECOND: u64 = 1_000_000_000;

/// A time stamp as it is listed: a time of a wall clock as the day and the time of day of UTC, a monotonic one in seconds, and
/// one that has no such time as it is.
#[derive(Clone, Copy)]
pub struct Stamp<'a>(pub &'a str);

impl Stamp<'_> {
    /// How many nanoseconds it is before another one of the same clock.
    pub fn before(&self, other: Stamp<'_>) -> Option<i64> {
        match (
            time_of_stamp(self.0.as_bytes())?,
            time_of_stamp(other.0.as_bytes())?,
        ) {
            (Time::Wall(from), Time::Wall(to)) => to.checked_sub(from),
            (Time::Monotonic(from), Time::Monotonic(to)) => to.checked_sub(from),
            _ => None,
        }
    }
}

impl fmt::Display for Stamp<'_> {
    fn fmt<W: fmt::Write>(&self, f: &mut fmt::Formatter<W>) -> fmt::Result {
        match time_of_stamp(self.0.as_bytes()) {
            Some(Time::Wall(nanos)) => tell_wall(f, nanos, self.0),
            Some(Time::Monotonic(nanos)) => write!(f, "{} s", Seconds(nanos)),
            None => f.write_str(self.0),
        }
    }
}

/// Tells a time of a wall clock, and as it is listed where no calendar has its day.
fn tell_wall<W: fmt::Write>(f: &mut fmt::Formatter<W>, nanos: i64, listed: &str) -> fmt::Result {
    let Ok(told) = DateTime::from_nanosecond(i128::from(nanos)) else {
        return f.write_str(listed);
    };
    let (year, month, day) = (told.date.year, told.date.month, told.date.day);
    let (hour, minute, second) = (told.time.hour, told.time.minute, told.time.second);
    let micros = told.time.subsec_nanosecond / 1_000;
    write!(
        f,
        "{year:04}-{month:02}-{day:02}T{hour:02}:{minute:02}:{second:02}.{micros:06}Z"
    )
}

/// Nanoseconds as seconds, without the last digits where these are three zeros.
#[derive(Clone, Copy)]
pub struct Seconds(pub i64);

impl fmt::Display for Seconds {
    fn fmt<W: fmt::Write>(&self, f: &mut fmt::Formatter<W>) -> fmt::Result {
        let nanos = self.0.unsigned_abs();
        let (seconds, rest) = (nanos / SECOND, nanos % SECOND);
        if self.0 < 0 {
            f.write_str("-")?;
        }
        if rest % 1_000 == 0 {
            let micros = rest / 1_000;
            write!(f, "{seconds}.{micros:06}")
        } else {
            write!(f, "{seconds}.{rest:09}")
        }
    }
}
