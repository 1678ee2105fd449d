//! What a line of a script says.
ghost use Rattle.std.specs.Prelude.{◌≡◌, [], ◌≤◌, IfOk, IfSome};
ghost use Rattle.script_lines.specs.{Keywords.Behind, Lines.IsWithinLimits, Lines.pick_of};
ghost use Rattle.script_lines.specs.Spellings.{IsFound, Sole, Two, texts};
ghost use Rattle.script_lines.specs.Table.{IsAlone, IsByte, IsLong, IsShort, Creates, Resumes, Crashes, PlainRow, HeldRow, IsOfDesk, Row, Spells};
ghost use Rattle.script_lines.specs.declared.keyword.Keyword.TheVariants as keywords;

use crate::arguments::{one, sole_number, sole_within, two};
use crate::desk_line::{DeskLine, desk_line};
use crate::keyword::{Keyword, keyword_behind};
use crate::spelling::{byte, bytes, within, words};
use entry_codec::Entry;
use std::alloc::{AllocError, Global};
use stores::Pick;

/// Files of the largest store.
const MOST_FILES: u32 = 1001;

/// What a crash leaves of what is unsynced.
#[derive(Clone, Copy)]
pub enum Unsynced {
    /// What a read gives.
    Kept,
    /// This byte at each unsynced position, at the greatest length or the least.
    Fill { byte: u8, longest: bool },
}

impl From<Unsynced> for Pick {
    ghost from_gives = { λ unsynced pick. pick ≡ pick_of unsynced };

    fn from(unsynced: Unsynced) -> Pick {
        match unsynced {
            Unsynced::Kept => Pick::Kept,
            Unsynced::Fill { byte, longest } => Pick::Fill { byte, longest },
        }
    }
}

/// A line of a script.
#[derive(Drop)]
pub enum Line {
    /// A blank store of so many files.
    Store(u32),
    /// A store in which this file holds these bytes.
    Bytes(u32, Vec<u8>),
    /// A store whose device calls fail after so many.
    Fuse(u64),
    /// A store whose device calls fail once, after so many.
    FailOnce(u64),
    CreateFile(u64),
    ResumeFile(u64),
    /// A wrap by size, in bytes, that keeps so many runs.
    CreateWrap { size: u32, count: u16 },
    /// A wrap by time that keeps so many runs.
    CreateTime { millis: u32, count: u16 },
    ResumeWrap,
    Put(Entry),
    Flush,
    Seal,
    /// The time, in milliseconds.
    Tick(u64),
    Abandon,
    Close,
    Crash(Unsynced),
    /// The port goes into a desk.
    Desk,
    AtDesk(DeskLine),
    Files,
    List,
    Wipe,
}

impl Line {
    ghost use Rattle.std.specs.Prelude.{◌↔◌, IsTrue};
    ghost use Rattle.script_lines.specs.Lines.{IsOfRecord};

    /// Whether the line may stand in a script for a desk, such as `dbgrec record` reads.
    pub fn is_of_desk(&self) -> bool
        ensures { IsTrue result ↔ IsOfRecord self.now }
    {
        matches!(
            self,
            Line::Flush | Line::Seal | Line::Tick(_) | Line::Abandon | Line::AtDesk(_)
        )
    }
}

/// `line`, where no word follows; else None.
fn alone(words: &[&str], line: Line) -> Option<Line>
    ensures { IsFound (IsAlone (texts words.now) line) result }
{
    words.is_empty().then_some(line)
}

/// The size or time of a wrap, and its count, as two words spell them; None where these aren't numbers of 32 and 16 bits.
fn wrap_numbers(words: &[&str]) -> Option<(u32, u16)>
    ensures { IsFound (λ found. Two IsLong IsShort (texts words.now) found.0 found.1) result }
{
    let (most, count) = two(words)?;
    let most = within(most, 0, u32::MAX)?;
    let count = u16::try_from(within(count, 0, u32::from(u16::MAX))?).ok()?;
    Some((most, count))
}

/// Parses what a `create` line creates; None where the words are none.
fn created(kind: Keyword, words: &[&str]) -> Option<Line>
    ensures { IsFound (Creates kind (texts words.now)) result }
{
    match kind {
        Keyword::File => Some(Line::CreateFile(sole_number(words)?)),
        Keyword::Wrap => {
            let (size, count) = wrap_numbers(words)?;
            Some(Line::CreateWrap { size, count })
        }
        Keyword::Time => {
            let (millis, count) = wrap_numbers(words)?;
            Some(Line::CreateTime { millis, count })
        }
        _ => None,
    }
}

fn create(words: &[&str]) -> Option<Line>
    ensures { IsFound (Behind Creates (texts words.now)) result }
{
    let (kind, others) = keyword_behind(words)?;
    created(kind, others)
}

/// Parses what a `resume` line resumes; None where the words are none.
fn resumed(kind: Keyword, words: &[&str]) -> Option<Line>
    ensures { IsFound (Resumes kind (texts words.now)) result }
{
    match kind {
        Keyword::File => Some(Line::ResumeFile(sole_number(words)?)),
        Keyword::Wrap => alone(words, Line::ResumeWrap),
        _ => None,
    }
}

fn resume(words: &[&str]) -> Option<Line>
    ensures { IsFound (Behind Resumes (texts words.now)) result }
{
    let (kind, others) = keyword_behind(words)?;
    resumed(kind, others)
}

/// The byte that the only word spells; else None.
fn sole_byte(words: &[&str]) -> Option<u8>
    ensures { IsFound (Sole IsByte (texts words.now)) result }
{
    byte(one(words)?.as_bytes())
}

/// Parses what a `crash` line leaves; None where the words are none.
fn left(kind: Keyword, words: &[&str]) -> Option<Line>
    ensures { IsFound (Crashes kind (texts words.now)) result }
{
    match kind {
        Keyword::Kept => alone(words, Line::Crash(Unsynced::Kept)),
        Keyword::Low => {
            let byte = sole_byte(words)?;
            Some(Line::Crash(Unsynced::Fill {
                byte,
                longest: false,
            }))
        }
        Keyword::High => {
            let byte = sole_byte(words)?;
            Some(Line::Crash(Unsynced::Fill {
                byte,
                longest: true,
            }))
        }
        _ => None,
    }
}

fn crash(words: &[&str]) -> Option<Line>
    ensures { IsFound (Behind Crashes (texts words.now)) result }
{
    let (kind, others) = keyword_behind(words)?;
    left(kind, others)
}

/// Parses the words of a `bytes` line; None where no store has that file, or the second spells no bytes.
fn file_bytes(alloc: Global, words: &[&str]) -> Result<Option<Line>, AllocError>
    ensures { IfOk result (IsFound (HeldRow keywords.Bytes (texts words.now))) }
{
    let Some((file, hex)) = two(words) else {
        return Ok(None);
    };
    let Some(file) = within(file, 0, MOST_FILES - 1) else {
        return Ok(None);
    };
    let Some(found) = bytes(alloc, hex)? else {
        return Ok(None);
    };
    Ok(Some(Line::Bytes(file, found)))
}

/// Parses the word of a `put` line; None where it spells no bytes that an entry may hold.
fn message(alloc: Global, words: &[&str]) -> Result<Option<Line>, AllocError>
    ensures { IfOk result (IsFound (HeldRow keywords.Put (texts words.now))) }
{
    let Some(hex) = one(words) else {
        return Ok(None);
    };
    let Some(found) = bytes(alloc, hex)? else {
        return Ok(None);
    };
    let entry = Entry::Message(found);
    if !entry.is_lawful() {
        return Ok(None);
    }
    Ok(Some(Line::Put(entry)))
}

/// Parses a keyword and its words as a line without bytes that isn't for a desk; None where they are none.
fn plain_line(keyword: Keyword, words: &[&str]) -> Option<Line>
    ensures { IsFound (PlainRow keyword (texts words.now)) result }
{
    match keyword {
        Keyword::Store => Some(Line::Store(sole_within(words, 1, MOST_FILES)?)),
        Keyword::Fuse => Some(Line::Fuse(sole_number(words)?)),
        Keyword::FailOnce => Some(Line::FailOnce(sole_number(words)?)),
        Keyword::Create => create(words),
        Keyword::Resume => resume(words),
        Keyword::Files => alone(words, Line::Files),
        Keyword::List => alone(words, Line::List),
        Keyword::Wipe => alone(words, Line::Wipe),
        Keyword::Crash => crash(words),
        Keyword::Lose => Some(Line::Put(Entry::Drop(sole_within(words, 1, u32::MAX)?))),
        Keyword::Flush => alone(words, Line::Flush),
        Keyword::Seal => alone(words, Line::Seal),
        Keyword::Tick => Some(Line::Tick(sole_number(words)?)),
        Keyword::Abandon => alone(words, Line::Abandon),
        Keyword::Close => alone(words, Line::Close),
        Keyword::Desk => alone(words, Line::Desk),
        _ => None,
    }
}

/// Parses a keyword and its words as a `bytes` or `put` line; None where they are none.
fn held_line(alloc: Global, keyword: Keyword, words: &[&str]) -> Result<Option<Line>, AllocError>
    ensures { IfOk result (IsFound (HeldRow keyword (texts words.now))) }
{
    match keyword {
        Keyword::Bytes => file_bytes(alloc, words),
        Keyword::Put => message(alloc, words),
        _ => Ok(None),
    }
}

/// Parses a keyword and its words as a line for a desk; None where they are none.
fn at_desk(alloc: Global, keyword: Keyword, words: &[&str]) -> Result<Option<Line>, AllocError>
    ensures { IfOk result (IsFound (IsOfDesk keyword (texts words.now))) }
{
    match desk_line(alloc, keyword, words)? {
        Some(line) => Ok(Some(Line::AtDesk(line))),
        None => Ok(None),
    }
}

/// Parses a keyword and the words after it as any line; None where they are none.
fn row(alloc: Global, keyword: Keyword, words: &[&str]) -> Result<Option<Line>, AllocError>
    ensures { IfOk result (IsFound (Row keyword (texts words.now))) }
{
    if let Some(line) = plain_line(keyword, words) {
        return Ok(Some(line));
    }
    if let Some(line) = held_line(alloc, keyword, words)? {
        return Ok(Some(line));
    }
    at_desk(alloc, keyword, words)
}

/// The line that the text spells; None where it spells none.
pub fn parse(alloc: Global, text: &str) -> Result<Option<Line>, AllocError>
    ensures limits { IfOk result (λ found. IfSome found IsWithinLimits) }
    ensures spells { IfOk result (IsFound (λ line. Spells line text.now)) }
{
    let words = words(alloc, text)?;
    let Some((keyword, others)) = keyword_behind(words.as_slice()) else {
        return Ok(None);
    };
    row(alloc, keyword, others)
}
