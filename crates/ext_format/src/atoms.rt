//! Atoms and pids, read from the front of bytes.

ghost use Rattle.std.specs.Prelude.{◌≡◌, ◌≤◌, Ok, length, string_bytes, IfOk, IfSome, IsTrue};
ghost use Rattle.std.specs.Str.{encode_utf8_all, IsAscii};
ghost use Rattle.ext_format.specs.Reading.{Gives, short_text, utf8_text, latin1_text, text_at, spelt_at, node_at, pid_at};
ghost use Rattle.ext_format.specs.Widths.{width_of};

use crate::fault::DecodeFault;
use crate::fields::{Bytes, number_at, sized_8, sized_16, tag_behind, u32_at};
use crate::tag::Tag;
use std::alloc::{AllocError, Global};
use std::str;
use trace_terms::{Atom, Pid};

/// The atom of this text, unless it has too many characters.
fn short_atom(alloc: Global, text: &str) -> Result<Atom, DecodeFault>
    ensures { Gives (λ atom. atom) result (short_text text.now) }
{
    Ok(Atom::new(alloc, text)?)
}

/// The atom that these bytes of UTF-8 spell.
#[tactic(auto, unfolding(crate::specs::Reading::utf8_text))]
fn utf8_atom(alloc: Global, bytes: &[u8]) -> Result<Atom, DecodeFault>
    ensures { Gives (λ atom. atom) result (utf8_text bytes.now) }
{
    let Ok(text) = str::from_utf8(bytes) else {
        return Err(DecodeFault::BadText);
    };
    short_atom(alloc, text)
}

/// The text in which each byte is a character.
fn latin1(alloc: Global, bytes: &[u8]) -> Result<String, AllocError>
    ensures { IfOk result (λ text. string_bytes text ≡ encode_utf8_all bytes.now) }
{
    let mut text = String::with_capacity(alloc, bytes.len())?;
    for byte in bytes {
        text.push(char::from(*byte))?;
    }
    Ok(text)
}

/// The atom that these bytes of Latin-1 spell. Each byte is a character, so the text of an atom
/// that is too long isn't made.
fn latin1_atom(alloc: Global, bytes: &[u8]) -> Result<Atom, DecodeFault>
    ensures { Gives (λ atom. atom) result (latin1_text bytes.now) }
{
    if bytes.len() > Atom::MAX_CHARS {
        return Err(DecodeFault::AtomTooLong);
    }
    let text = latin1(alloc, bytes)?;
    short_atom(alloc, text.as_str())
}

/// Bytes that aren't too many for the text of any atom.
fn as_short(text: &[u8]) -> Option<&[u8]>
    ensures text { IfSome result (λ x. x.now ≡ text.now) }
    ensures short { IfSome result (λ x. length x.now ≤ 255) }
    ensures utf8 { IfSome result (λ x. IsAscii x.now → utf8_text text.now ≡ Ok x.now) }
    ensures latin1 { IfSome result (λ x. IsAscii x.now → latin1_text text.now ≡ Ok x.now) }
{
    if text.len() > Atom::MAX_CHARS {
        return None;
    }
    Some(text)
}

/// The bytes of the text of the atom after its tag, and those after them, where they are at most 255. Bytes of ASCII
/// spell themselves in UTF-8 and in Latin-1, so these are then the atom's text. None says nothing.
#[tactic(auto, unfolding(crate::specs::Reading::text_at, crate::specs::Reading::spelt_at))]
pub fn short_at(tag: Tag, bytes: &[u8]) -> Option<(&[u8], &[u8])>
    ensures bytes { IfSome result (λ x. spelt_at tag bytes.now ≡ Ok (x.0.now, x.1.now)) }
    ensures short { IfSome result (λ x. length x.0.now ≤ 255) }
    ensures text { IfSome result (λ x. IsAscii x.0.now
        → text_at tag bytes.now ≡ Ok (x.0.now, x.1.now)) }
{
    match tag {
        Tag::SmallAtomUtf8Ext | Tag::SmallAtomExt => {
            let (text, rest) = sized_8(bytes).ok()?;
            Some((as_short(text)?, rest))
        }
        Tag::AtomUtf8Ext | Tag::AtomExt => {
            let (text, rest) = sized_16(bytes).ok()?;
            Some((as_short(text)?, rest))
        }
        _ => None,
    }
}

/// The atom after its tag. A tag that isn't an atom's is `BadTag`.
#[tactic(auto, unfolding(crate::specs::Reading::text_at))]
pub fn atom_of(alloc: Global, tag: Tag, bytes: &[u8]) -> Result<(Atom, &[u8]), DecodeFault>
    ensures { Gives (λ x. (x.0, x.1.now)) result (text_at tag bytes.now) }
{
    match tag {
        Tag::SmallAtomUtf8Ext => {
            let (text, rest) = sized_8(bytes)?;
            Ok((utf8_atom(alloc, text)?, rest))
        }
        Tag::AtomUtf8Ext => {
            let (text, rest) = sized_16(bytes)?;
            Ok((utf8_atom(alloc, text)?, rest))
        }
        Tag::SmallAtomExt => {
            let (text, rest) = sized_8(bytes)?;
            Ok((latin1_atom(alloc, text)?, rest))
        }
        Tag::AtomExt => {
            let (text, rest) = sized_16(bytes)?;
            Ok((latin1_atom(alloc, text)?, rest))
        }
        _ => Err(DecodeFault::BadTag),
    }
}

/// The node of a pid, an atom with its tag.
#[tactic(auto, unfolding(crate::specs::Reading::node_at))]
fn node_of(alloc: Global, bytes: &[u8]) -> Result<(Atom, &[u8]), DecodeFault>
    ensures { Gives (λ x. (x.0, x.1.now)) result (node_at bytes.now) }
{
    let (tag, rest) = tag_behind(bytes)?;
    atom_of(alloc, tag, rest)
}

/// The pid after its tag, NEW_PID_EXT or PID_EXT, whose creation has four bytes or one.
#[tactic(auto, unfolding(crate::specs::Reading::pid_at))]
pub fn pid_of(alloc: Global, creation: Bytes, bytes: &[u8]) -> Result<(Pid, &[u8]), DecodeFault>
    ensures { Gives (λ x. (x.0, x.1.now)) result (pid_at (width_of creation) bytes.now) }
{
    let (node, rest) = node_of(alloc, bytes)?;
    let (id, rest) = u32_at(rest)?;
    let (serial, rest) = u32_at(rest)?;
    let (creation, rest) = number_at(creation, rest)?;
    Ok((
        Pid {
            node,
            id,
            serial,
            creation,
        },
        rest,
    ))
}
