//! The numbers of a row, as a table shows them.
ghost use Rattle.std.specs.Prelude.{◌≡◌, ◌≤◌};
ghost use Rattle.trace_views.specs.Counting.{is_process, known_waiting};

use crate::row::{FunctionRow, ProcessRow};
use std::fmt;

/// Which number of a row a column shows.
#[derive(Clone, Copy)]
pub enum Figure {
    Calls,
    Exceptions,
    Total,
    Own,
    Mean,
    Longest,
    Open,
    Sent,
    Received,
    Waiting,
    Count,
}

impl Figure {
    /// The name of its column.
    pub fn name(self) -> &'static str {
        match self {
            Figure::Calls => "calls",
            Figure::Exceptions => "exceptions",
            Figure::Total => "total",
            Figure::Own => "own",
            Figure::Mean => "mean",
            Figure::Longest => "longest",
            Figure::Open => "open",
            Figure::Sent => "sent",
            Figure::Received => "received",
            Figure::Waiting => "waiting",
            Figure::Count => "count",
        }
    }
}

/// A number in a table, or a dash in its place.
#[derive(Clone, Copy)]
pub enum Cell {
    Count(u64),
    /// Whole seconds and thousandths.
    Seconds(u64, u64),
    /// Whole milliseconds and tenths.
    Millis(u64, u64),
    Micros(u64),
    Nanos(u64),
    None,
}

impl Cell {
    /// Of nanoseconds.
    pub fn of_time(nanoseconds: u64) -> Cell {
        match nanoseconds {
            0..1_000 => Cell::Nanos(nanoseconds),
            1_000..1_000_000 => Cell::Micros(nanoseconds / 1_000),
            1_000_000..1_000_000_000 => {
                Cell::Millis(nanoseconds / 1_000_000, nanoseconds / 100_000 % 10)
            }
            _ => Cell::Seconds(nanoseconds / 1_000_000_000, nanoseconds / 1_000_000 % 1_000),
        }
    }

    /// Of nanoseconds, where there are some.
    fn of_some_time(nanoseconds: Option<u64>) -> Cell {
        match nanoseconds {
            Some(nanoseconds) => Cell::of_time(nanoseconds),
            None => Cell::None,
        }
    }

    /// Of a number, where there is one.
    fn of_some_count(count: Option<u64>) -> Cell {
        match count {
            Some(count) => Cell::Count(count),
            None => Cell::None,
        }
    }

    /// How many characters it has.
    pub fn width(self) -> usize {
        match self {
            Cell::Count(number) => digits(number),
            Cell::Seconds(whole, _) => digits(whole) + ".000s".len(),
            Cell::Millis(whole, _) => digits(whole) + ".0ms".len(),
            Cell::Micros(number) | Cell::Nanos(number) => digits(number) + "us".len(),
            Cell::None => 1,
        }
    }
}

impl fmt::Display for Cell {
    fn fmt<W: fmt::Write>(&self, f: &mut fmt::Formatter<W>) -> fmt::Result {
        match self {
            Cell::Count(number) => write!(f, "{number}"),
            Cell::Seconds(whole, thousandths) => write!(f, "{whole}.{thousandths:03}s"),
            Cell::Millis(whole, tenths) => write!(f, "{whole}.{tenths}ms"),
            Cell::Micros(number) => write!(f, "{number}us"),
            Cell::Nanos(number) => write!(f, "{number}ns"),
            Cell::None => f.write_str("-"),
        }
    }
}

/// How many digits a number has.
fn digits(number: u64) -> usize
    ensures { result ≤ 20 }
{
    match number.checked_ilog10() {
        Some(power) => power as usize + 1,
        None => 1,
    }
}

/// A row, of which a table shows numbers.
pub trait Shown: Copy {
    /// One of them, of the row of this text; of a function with the open calls of each, by its number.
    fn cell(&self, figure: Figure, text: &[u8], open: &[u64]) -> Cell;
}

impl Shown for FunctionRow {
    fn cell(&self, figure: Figure, _text: &[u8], open: &[u64]) -> Cell {
        let mean = self.times.mean();
        match figure {
            Figure::Calls => Cell::Count(self.calls),
            Figure::Exceptions => Cell::Count(self.exceptions),
            Figure::Total => Cell::of_some_time(mean.map(|_| self.times.total)),
            Figure::Own => Cell::of_some_time(self.times.own),
            Figure::Mean => Cell::of_some_time(mean),
            Figure::Longest => Cell::of_some_time(mean.map(|_| self.times.longest)),
            Figure::Open => Cell::Count(open_of(open, *self)),
            _ => Cell::None,
        }
    }
}

impl Shown for ProcessRow {
    fn cell(&self, figure: Figure, text: &[u8], _open: &[u64]) -> Cell {
        match figure {
            Figure::Calls => Cell::Count(self.calls),
            Figure::Sent => Cell::Count(self.sent),
            Figure::Received => Cell::Count(self.received),
            Figure::Waiting => Cell::of_some_count(waiting_of(text, *self)),
            _ => Cell::None,
        }
    }
}

impl Shown for u64 {
    fn cell(&self, _figure: Figure, _text: &[u8], _open: &[u64]) -> Cell {
        Cell::Count(*self)
    }
}

/// How many calls of a function are open. None is where no end of it is told: it is never told when these are over.
pub fn open_of(open: &[u64], row: FunctionRow) -> u64 {
    if row.has_end() {
        open.get(row.number as usize).copied().unwrap_or(0)
    } else {
        0
    }
}

/// Whether a row is for a process or a port, by its text, and not for a registered name.
fn is_process(text: &[u8]) -> bool
    ensures { result ≡ is_process text.now }
{
    matches!(text, [b'<' | b'#', ..])
}

/// The most messages that waited for a process. It isn't known of one to which none is told to be sent, and of a name.
pub fn waiting_of(text: &[u8], row: ProcessRow) -> Option<u64>
    ensures { result ≡ known_waiting text.now row.waiting.most }
{
    if is_process(text) && row.waiting.most > 0 {
        Some(row.waiting.most)
    } else {
        None
    }
}
