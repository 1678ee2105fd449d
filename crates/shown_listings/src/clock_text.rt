//! The times of rows.

use crate::zone::Zone;
use command_line::TimeColumn;
use jiff_core::civil::DateTime;
use std::alloc::{AllocError, Global};
use std::fmt;
use trace_times::Time;

/// The nanoseconds of a second.
const SECOND: u64 = 1_000_000_000;

/// The nanoseconds of a day.
const DAY: i64 = 86_400_000_000_000;

/// A day, by how many come between it and the first of 1970.
#[derive(Clone, Copy, PartialEq, Eq)]
pub struct Day(i64);

impl Day {
    /// The day of a time in nanoseconds since the beginning of 1970.
    pub fn of(nanos: i64) -> Day {
        Day(nanos.div_euclid(DAY))
    }
}

impl fmt::Display for Day {
    fn fmt<W: fmt::Write>(&self, f: &mut fmt::Formatter<W>) -> fmt::Result {
        let nanos = i128::from(self.0.saturating_mul(DAY));
        match DateTime::from_nanosecond(nanos) {
            Ok(start) => {
                let (year, month, day) = (start.date.year, start.date.month, start.date.day);
                write!(f, "{year:04}-{month:02}-{day:02}")
            }
            Err(_) => Ok(()),
        }
    }
}

/// The time of day, to the microsecond.
#[derive(Clone, Copy)]
pub struct TimeOfDay(pub u64);

impl fmt::Display for TimeOfDay {
    fn fmt<W: fmt::Write>(&self, f: &mut fmt::Formatter<W>) -> fmt::Result {
        let seconds = self.0 / SECOND;
        let (hours, minutes) = (seconds / 3_600, seconds / 60 % 60);
        let (rest, micros) = (seconds % 60, self.0 % SECOND / 1_000);
        write!(f, "{hours:02}:{minutes:02}:{rest:02}.{micros:06}")
    }
}

/// How finely seconds are told.
#[derive(Clone, Copy)]
pub enum Fineness {
    Micros,
    Nanos,
}

/// A time in seconds.
#[derive(Clone, Copy)]
pub struct Seconds {
    pub nanos: u64,
    pub fineness: Fineness,
}

impl fmt::Display for Seconds {
    fn fmt<W: fmt::Write>(&self, f: &mut fmt::Formatter<W>) -> fmt::Result {
        let (seconds, nanos) = (self.nanos / SECOND, self.nanos % SECOND);
        let micros = nanos / 1_000;
        match self.fineness {
            Fineness::Micros => write!(f, "{seconds}.{micros:06}"),
            Fineness::Nanos => write!(f, "{seconds}.{nanos:09}"),
        }
    }
}

/// How finely the times of a stamp are told.
pub fn fineness_of(stamp: Time) -> Fineness {
    match stamp {
        Time::Wall(_) => Fineness::Micros,
        Time::Monotonic(_) => Fineness::Nanos,
    }
}

/// The times of one clock that rows had.
#[derive(Clone, Copy)]
struct Had {
    first: Option<i64>,
    last: Option<i64>,
}

impl Had {
    const NONE: Had = Had {
        first: None,
        last: None,
    };

    /// What passed since the first of these times, or since the last; nothing where there is none.
    fn passed(self, column: TimeColumn, nanos: i64) -> i64 {
        let from = match column {
            TimeColumn::SinceLast => self.last,
            TimeColumn::Clock | TimeColumn::SinceFirst => self.first,
        };
        nanos.saturating_sub(from.unwrap_or(nanos))
    }

    /// A row has this time.
    fn note(&mut self, nanos: i64) {
        self.first = Some(self.first.unwrap_or(nanos));
        self.last = Some(nanos);
    }
}

/// The columns of a time without a date.
const TIME: usize = 15;

/// The columns of a time with a date.
const DATED: usize = 26;

/// The column of times.
#[derive(Drop)]
pub struct Clock {
    wall: Had,
    monotonic: Had,
    /// Today, as the clocks of the zone tell it, where that is known.
    today: Option<Day>,
    /// The day of the last time of day.
    day: Option<Day>,
    /// The columns of the last time, 0 where there is none.
    columns: usize,
}

/// A time with its sign.
fn signed(alloc: Global, nanos: i64, fineness: Fineness) -> Result<String, AllocError> {
    let sign = if nanos < 0 { '-' } else { '+' };
    let nanos = nanos.unsigned_abs();
    let seconds = Seconds { nanos, fineness };
    format!(in alloc; "{sign}{seconds}")
}

impl Clock {
    /// No row had a time.
    pub fn new(today: Option<Day>) -> Clock {
        Clock {
            wall: Had::NONE,
            monotonic: Had::NONE,
            today,
            day: None,
            columns: 0,
        }
    }

    /// The columns that a row without a time leaves empty: those of the last time and two, where a row had one.
    pub fn blanks(&self) -> usize {
        if self.columns > 0 {
            self.columns.saturating_add(2)
        } else {
            0
        }
    }

    /// What passed since the first time of its clock, which this may be.
    pub fn since_first(&mut self, stamp: Time, may_be_first: bool) -> i64 {
        let nanos = stamp.nanos();
        let had = match stamp {
            Time::Wall(_) => &mut self.wall,
            Time::Monotonic(_) => &mut self.monotonic,
        };
        if may_be_first {
            had.first = Some(had.first.unwrap_or(nanos));
        }
        had.passed(TimeColumn::SinceFirst, nanos)
    }

    /// Whether a row was told how long it came after the first: a monotonic clock tells no time of day.
    pub fn is_since_first(&self, column: TimeColumn) -> bool {
        match column {
            TimeColumn::Clock => self.monotonic.first.is_some(),
            TimeColumn::SinceFirst => self.wall.first.is_some() || self.monotonic.first.is_some(),
            TimeColumn::SinceLast => false,
        }
    }

    /// Appends a time of day, by what the clocks tell, with its day where that isn't today, or isn't that of the last.
    fn put_of_day(&mut self, text: &mut String, nanos: i64) -> Result<(), AllocError> {
        let day = Day::of(nanos);
        let time = TimeOfDay(u64::try_from(nanos.rem_euclid(DAY)).unwrap_or(0));
        let is_other = self.day.is_some_and(|last| last != day);
        let is_today = self.today.is_some_and(|today| today == day);
        self.day = Some(day);
        if is_other || !is_today {
            self.columns = DATED;
            write!(text, "{day} {time}  ")
        } else {
            self.columns = TIME;
            write!(text, "{time}  ")
        }
    }

    /// Appends what the column has for a row with this time, in a zone, and two blanks.
    pub fn put(
        &mut self,
        text: &mut String,
        column: TimeColumn,
        stamp: Time,
        zone: &Zone,
    ) -> Result<(), AllocError> {
        let nanos = stamp.nanos();
        let had = match stamp {
            Time::Wall(_) => &mut self.wall,
            Time::Monotonic(_) => &mut self.monotonic,
        };
        let passed = had.passed(column, nanos);
        had.note(nanos);
        match (stamp, column) {
            (Time::Wall(nanos), TimeColumn::Clock) => self.put_of_day(text, zone.told_at(nanos)),
            _ => {
                let time = signed(*text.allocator(), passed, fineness_of(stamp))?;
                self.columns = TIME;
                write!(text, "{time:>15}  ")
            }
        }
    }
}
