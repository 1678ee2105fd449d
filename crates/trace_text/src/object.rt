//! The objects of a listing.
ghost use Rattle.std.specs.Prelude.{◌≡◌, ◌<◌, ◌∷◌, ◌++◌, ℕ, List, [], length, OnOk, OnErr, IfOk, IsTrue, IsFalse, true};
ghost use Rattle.entry_codec.specs.{Entries.Message};
ghost use Rattle.trace_text.specs.Choosing.{asks_of, suits_opaque, suits_if, term_in};
ghost use Rattle.trace_text.specs.Objects.{Member, IsObject, number_members, opaque_members, drop_members, counts_members, end_members, object_line};
ghost use Rattle.trace_text.specs.{Parts.IsReadSo, PartLines.part_members, PrettyLines.longest_message};

use crate::any_term::Sighted;
use crate::choice::Choice;
use crate::facts::{put_facts, suits};
use crate::members::{put_head, put_more_number, put_term, put_text};
use crate::pretty::{read_message, word_of};
use crate::sight::{Kind, Sight};
use std::alloc::AllocError;

/// Appends the closing bracket of an object, and its line feed.
fn put_close(out: &mut Vec<u8>) -> Result<(), AllocError>
    ensures { OnOk result (out.new.items ≡ out.old.items ++ 125 ∷ 10 ∷ []) }
{
    out.extend_from_slice(b"}\n")
}

/// Appends the object of a message that was read, with this text.
fn put_message_object(
    out: &mut Vec<u8>,
    number: u64,
    kind: Option<Kind>,
    seen: &[Sight],
    text: &[u8],
) -> Result<(), AllocError>
    ensures { (bytes : List ℕ) → IsReadSo kind bytes seen.now text.now
        → OnOk result ((members : List Member) × IsObject number (Message bytes) members
        × (out.new.items ≡ out.old.items ++ object_line members)) }
{
    put_head(out, number, word_of(kind).as_bytes())?;
    put_facts(out, kind, seen, text)?;
    put_term(out, text)?;
    put_close(out)
}

/// Appends the object of an entry that tells nothing but a number of this name.
fn put_number_object(
    out: &mut Vec<u8>,
    number: u64,
    kind: &[u8],
    name: &[u8],
    count: u64,
) -> Result<(), AllocError>
    ensures { OnOk result (out.new.items
        ≡ out.old.items ++ object_line (number_members number kind.now name.now count)) }
{
    put_head(out, number, kind)?;
    put_more_number(out, name, count)?;
    put_close(out)
}

/// Appends the object of a message of `size` bytes that isn't read.
pub fn put_opaque_object(out: &mut Vec<u8>, number: u64, size: u64) -> Result<(), AllocError>
    ensures { OnOk result (out.new.items
        ≡ out.old.items ++ object_line (opaque_members number size)) }
{
    put_number_object(out, number, b"opaque", b"size", size)
}

/// Appends the object of a part of a message of `size` bytes that isn't whole.
pub fn put_part_object(
    out: &mut Vec<u8>,
    number: u64,
    part: u64,
    of: u64,
    size: u64,
) -> Result<(), AllocError>
    ensures { OnOk result (out.new.items
        ≡ out.old.items ++ object_line (part_members number part of size)) }
{
    put_head(out, number, b"part")?;
    put_more_number(out, b"part", part)?;
    put_more_number(out, b"of", of)?;
    put_more_number(out, b"size", size)?;
    put_close(out)
}

/// Appends the object of `count` lost messages.
pub fn put_drop_object(out: &mut Vec<u8>, number: u64, count: u32) -> Result<(), AllocError>
    ensures { OnOk result (out.new.items
        ≡ out.old.items ++ object_line (drop_members number count)) }
{
    put_number_object(out, number, b"drop", b"count", u64::from(count))
}

/// Appends an object of this kind with the numbers of entries that aren't there, and of lost messages.
pub fn put_counts_object(
    out: &mut Vec<u8>,
    kind: &[u8],
    entries: u64,
    lost: u64,
) -> Result<(), AllocError>
    ensures { OnOk result (out.new.items
        ≡ out.old.items ++ object_line (counts_members kind.now entries lost)) }
{
    out.push(b'{')?;
    put_text(out, b"kind", kind)?;
    put_more_number(out, b"entries", entries)?;
    put_more_number(out, b"dropped", lost)?;
    put_close(out)
}

/// Appends the last object of a listing.
pub fn put_end_object(out: &mut Vec<u8>) -> Result<(), AllocError>
    ensures { OnOk result (out.new.items ≡ out.old.items ++ object_line end_members) }
{
    out.push(b'{')?;
    put_text(out, b"kind", b"end_of_trace")?;
    put_close(out)
}

/// Appends the object of a message.
pub fn put_object(
    told: &mut Sighted,
    out: &mut Vec<u8>,
    number: u64,
    bytes: &[u8],
) -> Result<(), AllocError>
    ensures { OnOk result ((members : List Member) × IsObject number (Message bytes.now) members
        × (out.new.items ≡ out.old.items ++ object_line members)) }
{
    match read_message(told, bytes)? {
        Some(kind) => put_message_object(out, number, kind, &told.seen, &told.text),
        None => put_opaque_object(out, number, bytes.len() as u64),
    }
}

/// Appends the object of a message that isn't read, where a choice asks for such messages, and answers whether it does.
fn put_unread_object(
    choice: &Choice,
    out: &mut Vec<u8>,
    number: u64,
    size: usize,
) -> Result<bool, AllocError>
    ensures asked { IfOk result (λ is. is ≡ suits_opaque (asks_of choice.now)) }
    ensures told { IfOk result (λ is. IsTrue is
        → out.new.items ≡ out.old.items ++ object_line (opaque_members number size)) }
    ensures other { IfOk result (λ is. IsFalse is → out.new.items ≡ out.old.items) }
    ensures memory { OnErr result (suits_opaque (asks_of choice.now) ≡ true) }
{
    if !choice.suits_opaque() {
        return Ok(false);
    }
    put_opaque_object(out, number, size as u64)?;
    Ok(true)
}

/// Appends the object of a message that a choice asks for, and answers whether it does. The message is read once.
pub fn put_asked_object(
    told: &mut Sighted,
    choice: &Choice,
    out: &mut Vec<u8>,
    number: u64,
    bytes: &[u8],
) -> Result<bool, AllocError>
    ensures asked { IfOk result (λ is. is ≡ suits_if (asks_of choice.now) (term_in bytes.now)) }
    ensures told { IfOk result (λ is. IsTrue is → (members : List Member)
        × IsObject number (Message bytes.now) members
        × (out.new.items ≡ out.old.items ++ object_line members)) }
    ensures other { IfOk result (λ is. IsFalse is → out.new.items ≡ out.old.items) }
    ensures memory { OnErr result (longest_message < length bytes.now
        → suits_opaque (asks_of choice.now) ≡ true) }
{
    let Some(kind) = read_message(told, bytes)? else {
        return put_unread_object(choice, out, number, bytes.len());
    };
    if !suits(choice, kind, told) {
        return Ok(false);
    }
    put_message_object(out, number, kind, &told.seen, &told.text)?;
    Ok(true)
}
