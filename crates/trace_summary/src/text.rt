//! A trace in numbers, as text for a person.

use crate::info::{Info, PART, Part};
use crate::stamp::{Seconds, Stamp};
use crate::summary::End;
use segment::{SegHeader, StoreSpec};
use std::fmt;
use trace_lookup::Shown;
use trace_text::{KIND_COUNT, kind_at};

impl fmt::Display for Info {
    fn fmt<W: fmt::Write>(&self, f: &mut fmt::Formatter<W>) -> fmt::Result {
        if let Some(newest) = self.parts.last() {
            tell_kind(f, &newest.summary.header)?;
        }
        writeln!(f, "state: {}", self.state())?;
        tell_totals(f, self)?;
        tell_files(f, self)?;
        tell_words(f, self)?;
        tell_stamps(f, self)
    }
}

fn tell_kind<W: fmt::Write>(f: &mut fmt::Formatter<W>, header: &SegHeader) -> fmt::Result {
    let version = header.version;
    match header.spec {
        StoreSpec::File => writeln!(f, "kind: file\nversion: {version}"),
        StoreSpec::Wrap { size, count } => writeln!(
            f,
            "kind: wrap by size\nversion: {version}\ncount: {count} runs\nsize: {size} bytes"
        ),
        StoreSpec::Timed { millis, count } => writeln!(
            f,
            "kind: wrap by time\nversion: {version}\ncount: {count} runs\ntime: {millis} ms"
        ),
    }
}

/// The numbers of the entries, and what they take.
fn tell_totals<W: fmt::Write>(f: &mut fmt::Formatter<W>, info: &Info) -> fmt::Result {
    let totals = info.totals();
    let (first, lost_before) = info.before();
    if first > 0 {
        writeln!(f, "before: entries {first}, messages lost {lost_before}")?;
    }
    write!(f, "entries: {}", totals.entries)?;
    tell_ranges(f, info)?;
    match totals.lost {
        Some(lost) => writeln!(f, "drop records: {}, messages lost: {lost}", totals.drops)?,
        None => writeln!(
            f,
            "drop records: {}, messages lost: more than {}",
            totals.drops,
            u64::MAX
        )?,
    }
    writeln!(f, "bytes: {}", totals.bytes)
}

/// Tells the numbers of the entries, where there are any.
fn tell_ranges<W: fmt::Write>(f: &mut fmt::Formatter<W>, info: &Info) -> fmt::Result {
    let mut place = 0;
    let mut mark = " (";
    let mut end = "\n";
    for _ in 0..info.parts.len() {
        let Some((range, behind)) = info.range_from(place) else {
            break;
        };
        write!(f, "{mark}{} to {}", range.first, range.last)?;
        place = behind;
        mark = ", ";
        end = ")\n";
    }
    f.write_str(end)
}

fn tell_files<W: fmt::Write>(f: &mut fmt::Formatter<W>, info: &Info) -> fmt::Result {
    for part in &info.parts {
        tell_file(f, part, info.is_kept(part))?;
    }
    for name in &info.headless {
        let name = Shown(name.as_str());
        writeln!(f, "file {name}: damaged at 0")?;
    }
    Ok(())
}

fn tell_file<W: fmt::Write>(f: &mut fmt::Formatter<W>, part: &Part, is_kept: bool) -> fmt::Result {
    let name = Shown(part.name.as_str());
    let summary = &part.summary;
    write!(f, "file {name}: ")?;
    if summary.header.spec != StoreSpec::File {
        write!(f, "generation {}, ", summary.header.generation)?;
    }
    let tally = summary.counted.tally;
    write!(f, "entries {}, bytes {}", tally.entries, tally.bytes)?;
    if let End::Damaged { place } = summary.end {
        write!(f, ", damaged at {place}")?;
    }
    f.write_str(if is_kept { "\n" } else { ", not kept\n" })
}

/// How many messages there are of each kind of which there are any.
fn tell_words<W: fmt::Write>(f: &mut fmt::Formatter<W>, info: &Info) -> fmt::Result {
    for place in 0..KIND_COUNT {
        let count = info.count(place);
        if count > 0 {
            let word = kind_at(place);
            writeln!(f, "{word}: {count}")?;
        }
    }
    match info.lone_parts() {
        0 => Ok(()),
        parts => writeln!(f, "{PART}: {parts}"),
    }
}

fn tell_stamps<W: fmt::Write>(f: &mut fmt::Formatter<W>, info: &Info) -> fmt::Result {
    if let (Some(first), Some(last)) = (info.first_stamp(), info.last_stamp()) {
        writeln!(f, "first time: {}", Stamp(first))?;
        writeln!(f, "last time: {}", Stamp(last))?;
    }
    match info.length() {
        Some(length) => writeln!(f, "length: {} s", Seconds(length)),
        None => Ok(()),
    }
}
