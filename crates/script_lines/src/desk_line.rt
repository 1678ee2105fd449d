//! What a line of a script says to a desk.
ghost use Rattle.std.specs.Prelude.{◌≡◌, ◌≢◌, ◌↔◌, ◌<◌, IfOk, IsTrue};
ghost use Rattle.script_lines.specs.Spellings.{IsFound, Sole, Three, texts};
ghost use Rattle.script_lines.specs.Table.{IsLong, IsTracee, IsFlags, HasLetters, DeskRow, count_of, set_in, Names};
ghost use Rattle.script_lines.specs.declared.keyword.Keyword.TheVariants as keywords;

use crate::arguments::{first, one, sole_number, three, two};
use crate::event::{EventFault, event};
use crate::keyword::Keyword;
use crate::spelling::within;
use std::alloc::{AllocError, Global};
use trace_message::{Event, Flags};

/// The greatest number of a tracee.
const LAST_TRACEE: u32 = 999;

/// No event is asked for.
const NO_FLAGS: Flags = Flags {
    call: false,
    send: false,
    receive: false,
    arity: false,
    timestamp: false,
    monotonic: false,
};

/// A line for a desk.
#[derive(Drop)]
pub enum DeskLine {
    /// The moment of later events, but for their monotonic time.
    Stamp {
        mega: u32,
        sec: u32,
        micro: u32,
    },
    /// The monotonic time of later events, in nanoseconds.
    Mono(i64),
    /// A new tracee of this number.
    Tracee {
        number: u32,
        capacity: u32,
        drop_limit: u32,
        flags: Flags,
    },
    /// What the tracee of this number is asked.
    OfTracee(u32, TraceeLine),
}

/// A line for a tracee.
#[derive(Drop)]
pub enum TraceeLine {
    Emit(Event),
    /// At most so many entries go into the port.
    Hand(u32),
    FlushFor,
    Counts,
}

/// The number of at most 32 bits that a word spells; else None.
fn word_number(word: &str) -> Option<u32>
    ensures { IsFound (IsLong word.now) result }
{
    within(word, 0, u32::MAX)
}

/// The number of a tracee that a word spells, 0 to 999; else None.
fn tracee_number(word: &str) -> Option<u32>
    ensures { IsFound (IsTracee word.now) result }
{
    within(word, 0, LAST_TRACEE)
}

/// Whether the letter is among these.
fn has(letters: &[u8], letter: u8) -> bool
    ensures { IsTrue result ↔ (0 < count_of letter letters.now) }
{
    letters.contains(&letter)
}

/// How many of the flags are set.
fn count(flags: Flags) -> usize
    ensures { result ≡ set_in flags }
{
    usize::from(flags.call)
        + usize::from(flags.send)
        + usize::from(flags.receive)
        + usize::from(flags.arity)
        + usize::from(flags.timestamp)
        + usize::from(flags.monotonic)
}

/// The flags whose letters are among these.
fn flags_named(letters: &[u8]) -> Flags
    ensures { Names letters.now result }
{
    Flags {
        call: has(letters, b'c'),
        send: has(letters, b's'),
        receive: has(letters, b'r'),
        arity: has(letters, b'a'),
        timestamp: has(letters, b't'),
        monotonic: has(letters, b'm'),
    }
}

/// The flags of these letters; None where one names no flag, or comes twice.
fn flags_among(letters: &[u8]) -> Option<Flags>
    ensures { IsFound (HasLetters letters.now) result }
{
    let flags = flags_named(letters);
    if letters.len() == count(flags) {
        return Some(flags);
    }
    None
}

/// The flags that a word's letters name, none for `-`; None where the word is empty, or a letter names no flag or comes twice.
fn flags_of(word: &str) -> Option<Flags>
    ensures { IsFound (IsFlags word.now) result }
{
    if word.is_empty() {
        return None;
    }
    if word == "-" {
        return Some(NO_FLAGS);
    }
    flags_among(word.as_bytes())
}

/// Parses the words of a `stamp` line; None where they aren't its three numbers.
fn stamp(words: &[&str]) -> Option<DeskLine>
    ensures { IsFound (DeskRow keywords.Stamp (texts words.now)) result }
{
    let (mega, sec, micro) = three(words)?;
    let mega = word_number(mega)?;
    let sec = word_number(sec)?;
    let micro = word_number(micro)?;
    Some(DeskLine::Stamp { mega, sec, micro })
}

/// Parses the word of a `mono` line; None where it isn't one number, of nanoseconds.
fn mono(words: &[&str]) -> Option<DeskLine>
    ensures { IsFound (DeskRow keywords.Mono (texts words.now)) result }
{
    let nanos = i64::try_from(sole_number(words)?).ok()?;
    Some(DeskLine::Mono(nanos))
}

/// Parses the capacity of a new tracee, its limit of drops, and its flags; None where the words are none.
fn tracee_fields(words: &[&str]) -> Option<(u32, u32, Flags)>
    ensures { IsFound (λ x. Three IsLong IsLong IsFlags (texts words.now) x.0 x.1 x.2) result }
{
    let (capacity, drop_limit, letters) = three(words)?;
    let capacity = word_number(capacity)?;
    let drop_limit = word_number(drop_limit)?;
    let flags = flags_of(letters)?;
    Some((capacity, drop_limit, flags))
}

/// Parses the words of a `tracee` line; None where they are none.
fn tracee(words: &[&str]) -> Option<DeskLine>
    ensures { IsFound (DeskRow keywords.Tracee (texts words.now)) result }
{
    let (number, others) = first(words)?;
    let number = tracee_number(number)?;
    let (capacity, drop_limit, flags) = tracee_fields(others)?;
    Some(DeskLine::Tracee {
        number,
        capacity,
        drop_limit,
        flags,
    })
}

/// Parses the words of a `hand` line, a tracee and how many entries it hands over at most; None where they are none.
fn hand(words: &[&str]) -> Option<DeskLine>
    ensures { IsFound (DeskRow keywords.Hand (texts words.now)) result }
{
    let (number, limit) = two(words)?;
    let number = tracee_number(number)?;
    let limit = word_number(limit)?;
    Some(DeskLine::OfTracee(number, TraceeLine::Hand(limit)))
}

/// The number of a tracee that the only word spells; else None.
fn sole_tracee(words: &[&str]) -> Option<u32>
    ensures { IsFound (Sole IsTracee (texts words.now)) result }
{
    tracee_number(one(words)?)
}

/// Parses the words of an `emit` line, a tracee and its event; None where they are none.
fn emit(alloc: Global, words: &[&str]) -> Result<Option<DeskLine>, AllocError>
    ensures { IfOk result (IsFound (DeskRow keywords.Emit (texts words.now))) }
{
    let Some((number, others)) = first(words) else {
        return Ok(None);
    };
    let Some(number) = tracee_number(number) else {
        return Ok(None);
    };
    match event(alloc, others) {
        Ok(event) => Ok(Some(DeskLine::OfTracee(number, TraceeLine::Emit(event)))),
        Err(EventFault::Unspelled) => Ok(None),
        Err(EventFault::NoMemory) => Err(AllocError),
    }
}

/// Parses a keyword and the words after it as a line for a desk other than `emit`; None where they are none.
fn plain_desk_line(keyword: Keyword, words: &[&str]) -> Option<DeskLine>
    requires { keyword ≢ keywords.Emit }
    ensures { IsFound (DeskRow keyword (texts words.now)) result }
{
    match keyword {
        Keyword::Stamp => stamp(words),
        Keyword::Mono => mono(words),
        Keyword::Tracee => tracee(words),
        Keyword::Hand => hand(words),
        Keyword::FlushFor => Some(DeskLine::OfTracee(sole_tracee(words)?, TraceeLine::FlushFor)),
        Keyword::Counts => Some(DeskLine::OfTracee(sole_tracee(words)?, TraceeLine::Counts)),
        _ => None,
    }
}

/// Parses a keyword and the words after it as a line for a desk; None where they are none.
pub fn desk_line(
    alloc: Global,
    keyword: Keyword,
    words: &[&str],
) -> Result<Option<DeskLine>, AllocError>
    ensures { IfOk result (IsFound (DeskRow keyword (texts words.now))) }
{
    match keyword {
        Keyword::Emit => emit(alloc, words),
        _ => Ok(plain_desk_line(keyword, words)),
    }
}
