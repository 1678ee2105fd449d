//! What a row says that shows no term.

use crate::shown_object::{member, number};
use json::Value;
use std::alloc::{AllocError, Global};
use std::fmt;

/// So many things of a name.
#[derive(Clone, Copy)]
struct Many {
    count: u64,
    one: &'static str,
    more: &'static str,
}

impl fmt::Display for Many {
    fn fmt<W: fmt::Write>(&self, f: &mut fmt::Formatter<W>) -> fmt::Result {
        let (count, name) = match self.count {
            1 => (1, self.one),
            count => (count, self.more),
        };
        write!(f, "{count} {name}")
    }
}

/// Messages that were lost.
fn messages_lost(count: u64) -> Many {
    Many {
        count,
        one: "message was lost",
        more: "messages were lost",
    }
}

/// Entries that aren't there.
fn entries_missing(count: u64) -> Many {
    Many {
        count,
        one: "entry is missing",
        more: "entries are missing",
    }
}

/// Entries that a wrap ended before they could be listed.
fn entries_overtaken(count: u64) -> Many {
    Many {
        count,
        one: "entry was overtaken",
        more: "entries were overtaken",
    }
}

/// What a listing is to go on with.
#[derive(Clone, Copy)]
pub struct Reached {
    /// The entry that is to come next.
    pub next: u64,
    /// It is that one, and no later one.
    pub is_exact: bool,
}

/// What is told of the entries that a wrap no longer has, by what was listed before.
fn overtaken(
    alloc: Global,
    first: u64,
    lost: Many,
    reached: Reached,
) -> Result<String, AllocError> {
    let overtaken = entries_overtaken(first.saturating_sub(reached.next));
    let most = if reached.is_exact { "" } else { "at most " };
    format!(in alloc; "{most}{overtaken}: the trace goes on at entry {first}, and {lost} before")
}

/// What an object that has no text tells, in words, by what was listed before it, where entries were.
pub fn notice_of(
    alloc: Global,
    object: &Option<Value<'_>>,
    reached: Option<Reached>,
) -> Result<Option<String>, AllocError> {
    let told = |name| number(object, name).unwrap_or(0);
    let lost = messages_lost(told("dropped"));
    Ok(Some(match member(object, "kind").unwrap_or("") {
        "drop" => {
            let lost = messages_lost(told("count"));
            format!(in alloc; "{lost} here")?
        }
        "opaque" => {
            let size = told("size");
            format!(in alloc; "a message of {size} bytes that is no term, or too long")?
        }
        "part" => {
            let (part, of, size) = (told("part"), told("of"), told("size"));
            format!(in alloc; "part {part} of {of} of a message of {size} bytes that isn't whole")?
        }
        "before" => {
            let first = told("entries");
            match reached {
                Some(reached) => overtaken(alloc, first, lost, reached)?,
                None => format!(in alloc; "the trace begins at entry {first}: {lost} before")?,
            }
        }
        "missing" => {
            let missing = entries_missing(told("entries"));
            format!(in alloc; "{missing} here, and {lost}")?
        }
        "end_of_trace" => String::from_str(alloc, "end of trace")?,
        _ => return Ok(None),
    }))
}
