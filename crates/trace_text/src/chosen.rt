//! Whether an entry is one that a choice asks for.

ghost use Rattle.std.specs.Prelude.{◌≡◌, ◌≤◌, ◌<◌, ◌++◌, ℕ, List, length, IfOk, OnErr, IsTrue, IsFalse, true, false, codes};
ghost use Rattle.std.specs.Fmt.{decimal};
ghost use Rattle.trace_text.specs.Choosing.{asks_of, asks_no_text, suits_opaque, suits_if, term_in};
ghost use Rattle.trace_text.specs.PrettyLines.{IsPrettyTold, longest_message};

use crate::any_term::Sighted;
use crate::choice::Choice;
use crate::facts::suits;
use crate::line::put_opaque;
use crate::pretty::{put_kind, read_message};
use crate::term_text::put_number;
use std::alloc::AllocError;

/// Whether a choice asks for a message, whose text is put together in `apart`.
pub fn is_asked(apart: &mut Sighted, choice: &Choice, bytes: &[u8]) -> Result<bool, AllocError>
    ensures asked { IfOk result (λ is. is ≡ suits_if (asks_of choice.now) (term_in bytes.now)) }
    ensures memory { OnErr result (asks_no_text (asks_of choice.now) ≡ false) }
    ensures short { OnErr result (length bytes.now ≤ longest_message) }
{
    if choice.has_no_text() {
        return Ok(true);
    }
    match read_message(apart, bytes)? {
        Some(kind) => Ok(suits(choice, kind, apart)),
        None => Ok(choice.suits_opaque()),
    }
}

/// Appends the number of a message and what it tells, where a choice asks for it, and answers whether it does.
pub fn put_asked(
    told: &mut Sighted,
    choice: &Choice,
    text: &mut Vec<u8>,
    number: u64,
    bytes: &[u8],
) -> Result<bool, AllocError>
    ensures asked { IfOk result (λ is. is ≡ suits_if (asks_of choice.now) (term_in bytes.now)) }
    ensures told { IfOk result (λ is. IsTrue is → (told : List ℕ) × IsPrettyTold bytes.now told
        × (text.new.items ≡ text.old.items ++ (decimal number ++ codes " " ++ told))) }
    ensures other { IfOk result (λ is. IsFalse is → text.new.items ≡ text.old.items) }
    ensures memory { OnErr result (longest_message < length bytes.now
        → suits_opaque (asks_of choice.now) ≡ true) }
{
    let Some(kind) = read_message(told, bytes)? else {
        return put_unread(choice, text, number, bytes.len());
    };
    if !suits(choice, kind, told) {
        return Ok(false);
    }
    put_number(text, number)?;
    text.push(b' ')?;
    put_kind(text, kind, &told.text)?;
    Ok(true)
}

/// Appends the number and the size of a message that isn't read, where a choice asks for such messages, and answers whether it
/// does.
fn put_unread(
    choice: &Choice,
    text: &mut Vec<u8>,
    number: u64,
    size: usize,
) -> Result<bool, AllocError>
    ensures asked { IfOk result (λ is. is ≡ suits_opaque (asks_of choice.now)) }
    ensures told { IfOk result (λ is. IsTrue is
        → text.new.items ≡ text.old.items
        ++ (decimal number ++ codes " " ++ (codes "opaque " ++ decimal size))) }
    ensures other { IfOk result (λ is. IsFalse is → text.new.items ≡ text.old.items) }
    ensures memory { OnErr result (suits_opaque (asks_of choice.now) ≡ true) }
{
    if !choice.suits_opaque() {
        return Ok(false);
    }
    put_number(text, number)?;
    text.push(b' ')?;
    put_opaque(text, size)?;
    Ok(true)
}
