//! Terms, written at the end of bytes in their canonical spelling. Where memory runs out, a part of
//! a form may be written.

ghost use Rattle.std.specs.Prelude.{◌≡◌, ◌<◌, ◌≤◌, ◌^◌, ◌↔◌, ◌∷◌, ◌++◌, length, true, OnOk, IfOk};
ghost use Rattle.trace_terms.specs.{Data.depth, Data.list, Data.pid as pid_data, View.view, View.members_view};
ghost use Rattle.ext_format.specs.Canonical.{integer_form, big_form, atom_form, arity_form, are_bytes, byte_values, canonical_form, canonical_forms, canonical};
ghost use Rattle.ext_format.specs.{Fits.Fits, Fits.AllFit, Fits.FitsPidFields, Spelling.sized, Spelling.Spells};
ghost use Rattle.std.specs.{Int.w32, Int.w64, Str.chars, Int.RustNames.FitsSigned};

use crate::fault::EncodeFault;
use crate::limits::{MAX_DEPTH, MAX_SIZE, VERSION};
use crate::size::{byte_in, digit_count, is_string, room_after};
use crate::tag::{
    ATOM_UTF8_EXT, BINARY_EXT, INTEGER_EXT, LARGE_TUPLE_EXT, LIST_EXT, NEW_PID_EXT, NIL_EXT,
    SMALL_ATOM_UTF8_EXT, SMALL_BIG_EXT, SMALL_INTEGER_EXT, SMALL_TUPLE_EXT, STRING_EXT,
};
use std::alloc::{AllocError, Global};
use trace_terms::{Pid, Term};

/// The canonical spelling of a term, with its version byte. A term that is nested deeper than 64 is
/// `TooDeep`, also where its spelling would be too long.
pub fn encode(alloc: Global, term: &Term) -> Result<Vec<u8>, EncodeFault>
    ensures ok { IfOk result (λ bytes. bytes.items ≡ canonical (view term.now)) }

    // So decoding gives the term back.
    ensures spelled { IfOk result (λ bytes. Spells (view term.now) bytes.items) }

    ensures too_deep { (result ≡ Err EncodeFault.TooDeep) ↔ (64 < depth (view term.now)) }
    ensures too_long { (result ≡ Err EncodeFault.TooLong)
        ↔ ((depth (view term.now) ≤ 64) × (65531 < length (canonical (view term.now)))) }
{
    if term.depth() > MAX_DEPTH {
        return Err(EncodeFault::TooDeep);
    }
    let Some(unused) = room_after(MAX_SIZE - 1, term) else {
        return Err(EncodeFault::TooLong);
    };
    let mut out = Vec::with_capacity(alloc, MAX_SIZE - unused)?;
    out.push(VERSION)?;
    put_form(&mut out, term)?;
    Ok(out)
}

/// A number that 32 bits do not hold: SMALL_BIG_EXT with the fewest bytes.
#[tactic(auto, unfolding(crate::specs::Canonical::big_form))]
fn put_big(out: &mut Vec<u8>, sign: u8, size: u64) -> Result<(), AllocError>
    ensures { OnOk result (out.new.items ≡ out.old.items ++ big_form sign size) }
{
    let count = digit_count(size);
    out.push(SMALL_BIG_EXT)?;
    out.push(count as u8)?;
    out.push(sign)?;
    out.extend_from_slice(&size.to_le_bytes()[..count])
}

/// A number: SMALL_INTEGER_EXT, INTEGER_EXT or SMALL_BIG_EXT, the first that holds it.
#[tactic(auto, unfolding(crate::specs::Canonical::integer_form))]
pub fn put_integer(out: &mut Vec<u8>, number: i64) -> Result<(), AllocError>
    ensures written { OnOk result (out.new.items ≡ out.old.items ++ integer_form number) }
    ensures fits { FitsSigned w64 number }
{
    if let Ok(byte) = u8::try_from(number) {
        return Ok(out.extend_from_slice(&[SMALL_INTEGER_EXT, byte])?);
    }
    if let Ok(number) = i32::try_from(number) {
        out.push(INTEGER_EXT)?;
        return Ok(out.extend_from_slice(&number.to_be_bytes())?);
    }
    put_big(out, u8::from(number < 0), number.unsigned_abs())
}

/// The atom of this text: SMALL_ATOM_UTF8_EXT up to 255 bytes, else ATOM_UTF8_EXT.
#[tactic(auto, unfolding(crate::specs::Canonical::atom_form))]
pub fn put_atom(out: &mut Vec<u8>, text: &str) -> Result<(), AllocError>
    requires { length (chars text.now) ≤ 255 }
    ensures { OnOk result (out.new.items ≡ out.old.items ++ atom_form text.now) }
{
    let len = text.len();
    if len < 256 {
        out.extend_from_slice(&[SMALL_ATOM_UTF8_EXT, len as u8])?;
    } else {
        out.push(ATOM_UTF8_EXT)?;
        out.extend_from_slice(&(len as u16).to_be_bytes())?;
    }
    out.extend_from_slice(text.as_bytes())
}

/// A pid: NEW_PID_EXT.
pub fn put_pid(out: &mut Vec<u8>, pid: &Pid) -> Result<(), AllocError>
    ensures written { OnOk result (out.new.items
        ≡ out.old.items ++ canonical_form (pid_data pid.now)) }
    ensures fits { OnOk result (FitsPidFields pid.now) }
{
    out.push(NEW_PID_EXT)?;
    put_atom(out, pid.node.text())?;
    out.extend_from_slice(&pid.id.to_be_bytes())?;
    out.extend_from_slice(&pid.serial.to_be_bytes())?;
    out.extend_from_slice(&pid.creation.to_be_bytes())
}

/// The head of a tuple: SMALL_TUPLE_EXT up to an arity of 255, else LARGE_TUPLE_EXT.
#[tactic(auto, unfolding(crate::specs::Canonical::arity_form))]
pub fn put_arity(out: &mut Vec<u8>, arity: usize) -> Result<(), AllocError>
    requires { arity < 2 ^ 32 }
    ensures { OnOk result (out.new.items ≡ out.old.items ++ arity_form arity) }
{
    if arity < 256 {
        return out.extend_from_slice(&[SMALL_TUPLE_EXT, arity as u8]);
    }
    out.push(LARGE_TUPLE_EXT)?;
    out.extend_from_slice(&(arity as u32).to_be_bytes())
}

/// A binary: BINARY_EXT.
fn put_binary(out: &mut Vec<u8>, bytes: &[u8]) -> Result<(), AllocError>
    requires { length bytes.now < 2 ^ 32 }
    ensures { OnOk result (out.new.items ≡ out.old.items ++ 109 ∷ sized w32 bytes.now) }
{
    out.push(BINARY_EXT)?;
    out.extend_from_slice(&(bytes.len() as u32).to_be_bytes())?;
    out.extend_from_slice(bytes)
}

/// The integers from 0 to 255, a byte each.
fn put_bytes(out: &mut Vec<u8>, members: &Vec<Term>) -> Result<(), AllocError>
    requires { are_bytes (members_view members.now.items) ≡ true }
    ensures { OnOk result (out.new.items
        ≡ out.old.items ++ byte_values (members_view members.now.items)) }
{
    for member in members {
        let Some(byte) = byte_in(member) else {
            unreachable!()
        };
        out.push(byte)?;
    }
    Ok(())
}

/// A term without the version.
#[cycle(writing)]
pub fn put_form(out: &mut Vec<u8>, term: &Term) -> Result<(), AllocError>
    requires { length (canonical_form (view term.now)) < 2 ^ 16 }
    ensures written { OnOk result (out.new.items
        ≡ out.old.items ++ canonical_form (view term.now)) }
    ensures fits { OnOk result (Fits (view term.now)) }
{
    match term {
        Term::Int(number) => put_integer(out, *number),
        Term::Atom(atom) => put_atom(out, atom.text()),
        Term::Pid(pid) => put_pid(out, pid),
        Term::Tuple(members) => {
            put_arity(out, members.len())?;
            put_forms(out, members)
        }
        Term::List(members) => put_list(out, members),
        Term::Binary(bytes) => put_binary(out, bytes),
    }
}

/// A list: NIL_EXT where it is empty, STRING_EXT for up to 65,535 integers from 0 to 255, else
/// LIST_EXT.
#[cycle(writing)]
pub fn put_list(out: &mut Vec<u8>, members: &Vec<Term>) -> Result<(), AllocError>
    requires { length (canonical_form (list (members_view members.now.items))) < 2 ^ 16 }
    ensures written { OnOk result (out.new.items
        ≡ out.old.items ++ canonical_form (list (members_view members.now.items))) }
    ensures fits { OnOk result (AllFit (members_view members.now.items)) }
{
    if members.is_empty() {
        return Ok(out.push(NIL_EXT)?);
    }
    if is_string(members) {
        out.push(STRING_EXT)?;
        out.extend_from_slice(&(members.len() as u16).to_be_bytes())?;
        return put_bytes(out, members);
    }
    out.push(LIST_EXT)?;
    out.extend_from_slice(&(members.len() as u32).to_be_bytes())?;
    put_forms(out, members)?;
    Ok(out.push(NIL_EXT)?)
}

/// Terms one after the other, each without the version.
#[cycle(writing)]
fn put_forms(out: &mut Vec<u8>, members: &Vec<Term>) -> Result<(), AllocError>
    requires { length (canonical_forms (members_view members.now.items)) < 2 ^ 16 }
    ensures written { OnOk result (out.new.items
        ≡ out.old.items ++ canonical_forms (members_view members.now.items)) }
    ensures fits { OnOk result (AllFit (members_view members.now.items)) }
{
    for member in members {
        put_form(out, member)?;
    }
    Ok(())
}
