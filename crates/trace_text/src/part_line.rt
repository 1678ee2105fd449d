//! The line of a part of a long message that isn't there whole.

ghost use Rattle.std.specs.Prelude.{◌≡◌, ◌++◌, Some, OnOk};
ghost use Rattle.trace_text.specs.Choosing.{asks_of};
ghost use Rattle.trace_text.specs.Lines.{asks_in};
ghost use Rattle.trace_text.specs.PartLines.{part_told, part_row, part_line};
ghost use Rattle.trace_text.specs.declared.style.Notation.TheVariants as notations;

use crate::choice::Choice;
use crate::line::{Apart, put_mark};
use crate::object::put_part_object;
use crate::style::Notation;
use crate::term_text::put_number;
use std::alloc::AllocError;

/// Appends which part of a message one is, of how many, and how many bytes the message has.
fn put_told(text: &mut Vec<u8>, part: u64, of: u64, size: u64) -> Result<(), AllocError>
    ensures { OnOk result (text.new.items ≡ text.old.items ++ part_told part of size) }
{
    text.extend_from_slice(b"part ")?;
    put_number(text, part)?;
    text.extend_from_slice(b" of ")?;
    put_number(text, of)?;
    text.extend_from_slice(b" of a message of ")?;
    put_number(text, size)?;
    text.extend_from_slice(b" bytes")
}

/// Appends the line of a part.
fn put_text_line(
    text: &mut Vec<u8>,
    number: u64,
    part: u64,
    of: u64,
    size: u64,
) -> Result<(), AllocError>
    ensures { OnOk result (text.new.items
        ≡ text.old.items ++ part_row notations.Text number part of size) }
{
    put_number(text, number)?;
    text.push(b' ')?;
    put_told(text, part, of, size)?;
    Ok(text.push(b'\n')?)
}

/// Appends the line or the object of a part.
fn put_row(
    text: &mut Vec<u8>,
    notation: Notation,
    number: u64,
    part: u64,
    of: u64,
    size: u64,
) -> Result<(), AllocError>
    ensures { OnOk result (text.new.items
        ≡ text.old.items ++ part_row notation number part of size) }
{
    match notation {
        Notation::Text => put_text_line(text, number, part, of, size),
        Notation::Json => put_part_object(text, number, part, of, size),
    }
}

/// Appends what a listing by a choice has of a part, and the mark where it may end there.
fn put_chosen(
    text: &mut Vec<u8>,
    notation: Notation,
    choice: &Choice,
    number: u64,
    part: u64,
    of: u64,
    size: u64,
) -> Result<(), AllocError>
    ensures { OnOk result (text.new.items
        ≡ text.old.items ++ part_line notation (Some (asks_of choice.now)) number part of size) }
{
    if choice.asks_part(number) {
        put_row(text, notation, number, part, of, size)?;
    }
    put_mark(text, choice, number)
}

/// Appends what a listing has of a part of a message that isn't whole.
pub fn put_part_line(
    text: &mut Vec<u8>,
    apart: &Apart<'_>,
    number: u64,
    part: u64,
    of: u64,
    size: u64,
) -> Result<(), AllocError>
    ensures { OnOk result (text.new.items
        ≡ text.old.items ++ part_line apart.now.style.notation
        (asks_in apart.now.style) number part of size) }
{
    match apart.style.choice {
        Some(choice) => put_chosen(text, apart.style.notation, choice, number, part, of, size),
        None => put_row(text, apart.style.notation, number, part, of, size),
    }
}
