//! A trace in numbers.
ghost use Rattle.std.specs.Prelude.{◌≡◌, ◌≤◌, Some, None, length, IsTrue, IsErr, OnOk, MatchResult};

use crate::parting::Unfinished;
use crate::stamp::Stamp;
use crate::summary::{Counted, End, FileFound, FileSummary};
use recovery::{Outlined, RecoverFault};
use std::alloc::{AllocError, Global};
use std::str;

/// The word for parts of long messages.
pub const PART: &str = "part";

/// A file of a trace that is open.
#[derive(Drop)]
pub struct Part {
    pub name: String,
    /// Which of the trace's files it is.
    pub file: u32,
    pub summary: FileSummary,
}

/// Numbers of entries, from the first to the last one.
#[derive(Clone, Copy)]
pub struct Range {
    pub first: u64,
    pub last: u64,
}

impl Range {
    /// The numbers of the entries of a file; None where it has none.
    fn of(part: &Part) -> Option<Range> {
        let first = part.summary.header.entries_before;
        let more = part.summary.counted.tally.entries.checked_sub(1)?;
        Some(Range {
            first,
            last: first.saturating_add(more),
        })
    }

    /// With the numbers of another one, where these begin right behind it.
    fn joined(self, next: Range) -> Option<Range> {
        if self.last.checked_add(1) == Some(next.first) {
            Some(Range {
                first: self.first,
                last: next.last,
            })
        } else {
            None
        }
    }
}

/// A trace, in numbers.
#[derive(Drop)]
pub struct Info {
    /// The files whose headers can be read, the oldest first.
    pub parts: Vec<Part>,
    /// The names of those whose headers can't be.
    pub headless: Vec<String>,
    /// What the files read as together, or why they aren't one whole trace.
    outlined: Result<Outlined, RecoverFault>,
    /// Another process has the trace.
    pub is_written: bool,
}

/// What is told of entries.
#[derive(Clone, Copy)]
pub struct Totals {
    pub entries: u64,
    pub drops: u64,
    /// The messages that drop records count, and the long ones that begin there and aren't whole. None where that has no value
    /// in u64.
    pub lost: Option<u64>,
    pub bytes: u64,
}

impl Totals {
    fn with(self, counted: &Counted) -> Totals {
        let lost = match (self.lost, counted.tally.lost) {
            (Some(lost), Some(more)) => lost.checked_add(more),
            _ => None,
        };
        Totals {
            entries: self.entries.saturating_add(counted.tally.entries),
            drops: self.drops.saturating_add(counted.drops),
            lost,
            bytes: self.bytes.saturating_add(counted.tally.bytes),
        }
    }
}

impl Info {
    /// Of a trace of which no file was looked at yet.
    pub fn new(alloc: Global, outlined: Result<Outlined, RecoverFault>, is_written: bool) -> Info
        ensures { result.outlined ≡ outlined }
    {
        Info {
            parts: Vec::new(alloc),
            headless: Vec::new(alloc),
            outlined,
            is_written,
        }
    }

    /// Takes what is found in the next file.
    pub fn add(&mut self, file: u32, name: String, found: FileFound) -> Result<(), AllocError>
        ensures { OnOk result (self.new.outlined ≡ self.old.outlined) }
    {
        match found {
            FileFound::Closed => {
                drop(name);
                Ok(())
            }
            FileFound::Headless => Ok(self.headless.push(name)?),
            FileFound::Open(summary) => {
                let at = self.place_for(summary.header.generation);
                let part = Part {
                    name,
                    file,
                    summary,
                };
                Ok(self.parts.insert(at, part)?)
            }
        }
    }

    /// Where a part of this generation belongs among the parts.
    fn place_for(&self, generation: u64) -> usize
        ensures { result ≤ length self.now.parts.items }
    {
        let after = |part: &Part| generation < part.summary.header.generation;
        self.parts
            .iter()
            .position(after)
            .unwrap_or(self.parts.len())
    }

    /// Whether the files may have changed while they were read.
    pub fn is_to_repeat(&self) -> bool
        ensures { IsTrue result → IsErr self.now.outlined }
    {
        self.is_written && self.fault().is_some()
    }

    /// Why the files aren't one whole trace, if they aren't.
    pub fn fault(&self) -> Option<RecoverFault>
        ensures { MatchResult self.now.outlined (λ _. result ≡ None)
            (λ fault. result ≡ Some fault) }
    {
        match &self.outlined {
            Ok(_) => None,
            Err(fault) => Some(*fault),
        }
    }

    /// How many entries come before the first damage in its file, and how many are counted in the other ones.
    pub fn around_damage(&self) -> (u64, u64) {
        let (mut before, mut elsewhere): (u64, u64) = (0, 0);
        for part in &self.parts {
            let entries = part.summary.counted.tally.entries;
            if self.damaged_file() == Some(part.file) {
                before = entries;
            } else {
                elsewhere = elsewhere.saturating_add(entries);
            }
        }
        (before, elsewhere)
    }

    /// Which file is the first that is damaged.
    fn damaged_file(&self) -> Option<u32> {
        match self.fault()? {
            RecoverFault::Damaged { file, place: _ } => Some(file),
            _ => None,
        }
    }

    /// Whether the run of a part is kept; of files that aren't one whole trace each is.
    pub fn is_kept(&self, part: &Part) -> bool {
        match &self.outlined {
            Ok(outlined) => outlined.kept.contains(&part.file),
            Err(_) => true,
        }
    }

    /// The numbers of the runs that are kept.
    pub fn totals(&self) -> Totals {
        let mut totals = Totals {
            entries: 0,
            drops: 0,
            lost: Some(0),
            bytes: 0,
        };
        for part in &self.parts {
            if self.is_kept(part) {
                totals = totals.with(&part.summary.counted);
            }
        }
        if let Ok(outlined) = &self.outlined {
            totals.entries = outlined.total.saturating_sub(outlined.first);
            totals.lost = Some(outlined.drops.saturating_sub(outlined.lost));
        }
        totals.lost = match totals.lost {
            Some(lost) => lost.checked_add(self.unfinished()),
            None => None,
        };
        totals
    }

    /// How many long messages begin in the runs that are kept, and aren't whole in these.
    fn unfinished(&self) -> u64 {
        let mut unfinished = Unfinished::new();
        let mut end = None;
        for part in &self.parts {
            if self.is_kept(part) {
                let summary = &part.summary;
                let first = summary.header.entries_before;
                if end != Some(first) {
                    unfinished.part();
                }
                unfinished.add(&summary.counted.kinds);
                end = first.checked_add(summary.counted.tally.entries);
            }
        }
        unfinished.count()
    }

    /// The numbers of the entries of a part, where its run is kept and it has some.
    fn numbers(&self, part: &Part) -> Option<Range> {
        if self.is_kept(part) {
            Range::of(part)
        } else {
            None
        }
    }

    /// The first numbers, without a gap, of the entries of the parts from this place on; and the place behind these parts.
    pub fn range_from(&self, place: usize) -> Option<(Range, usize)> {
        let mut found: Option<Range> = None;
        for at in place..self.parts.len() {
            let Some(next) = self.numbers(&self.parts[at]) else {
                continue;
            };
            found = match found {
                None => Some(next),
                Some(range) => match range.joined(next) {
                    None => return Some((range, at)),
                    joined => joined,
                },
            };
        }
        Some((found?, self.parts.len()))
    }

    /// The number of the last entry.
    pub fn last(&self) -> Option<u64> {
        for part in self.parts.iter().rev() {
            if let Some(range) = self.numbers(part) {
                return Some(range.last);
            }
        }
        None
    }

    /// How many entries came before the first that is kept, and how many messages were lost by them.
    pub fn before(&self) -> (u64, u64) {
        if let Ok(outlined) = &self.outlined {
            return (outlined.first, outlined.lost);
        }
        match self.parts.first() {
            Some(oldest) => {
                let header = &oldest.summary.header;
                (header.entries_before, header.drops_before)
            }
            None => (0, 0),
        }
    }

    /// The word for the state that it is in.
    pub fn state(&self) -> &'static str {
        if self.is_written {
            return "being written";
        }
        match &self.outlined {
            Err(RecoverFault::Damaged { file: _, place: _ }) => "damaged",
            Ok(outlined) if outlined.spec.is_none() => "empty",
            Ok(outlined) if outlined.is_sealed => "sealed",
            Err(_) if self.ends_sealed() => "sealed",
            _ => "open",
        }
    }

    /// Whether the newest file is sealed.
    fn ends_sealed(&self) -> bool {
        match self.parts.last() {
            Some(newest) => matches!(newest.summary.end, End::Sealed),
            None => false,
        }
    }

    /// How many messages are of the kind of this word.
    pub fn count(&self, word: usize) -> u64 {
        let mut count: u64 = 0;
        for part in &self.parts {
            if self.is_kept(part) {
                count = count.saturating_add(part.summary.counted.kinds.count(word));
            }
        }
        count
    }

    /// How many parts there are of long messages of which not all parts stand in one file.
    pub fn lone_parts(&self) -> u64 {
        let mut count: u64 = 0;
        for part in &self.parts {
            if self.is_kept(part) {
                count = count.saturating_add(part.summary.counted.kinds.parts());
            }
        }
        count
    }

    /// How many nanoseconds come between the first time stamp and the last one.
    pub fn length(&self) -> Option<i64> {
        Stamp(self.first_stamp()?).before(Stamp(self.last_stamp()?))
    }

    /// The first time stamp.
    pub fn first_stamp(&self) -> Option<&str> {
        for part in &self.parts {
            let stamp = part.summary.counted.kinds.first();
            if self.is_kept(part) && !stamp.is_empty() {
                return shown(stamp);
            }
        }
        None
    }

    /// The last one.
    pub fn last_stamp(&self) -> Option<&str> {
        for part in self.parts.iter().rev() {
            let stamp = part.summary.counted.kinds.last();
            if self.is_kept(part) && !stamp.is_empty() {
                return shown(stamp);
            }
        }
        None
    }
}

fn shown(stamp: &[u8]) -> Option<&str> {
    str::from_utf8(stamp).ok()
}
