//! How much room canonical forms take.

ghost use Rattle.std.specs.Prelude.{◌≡◌, length, MatchOption, true, false};
ghost use Rattle.trace_terms.specs.{Data.list, Data.pid as pid_data, View.view, View.members_view};
ghost use Rattle.ext_format.specs.Canonical as forms;
ghost use Rattle.ext_format.specs.Canonical.{integer_form, atom_form, arity_form, is_byte, byte_value, are_bytes, canonical_form, canonical_forms};
ghost use Rattle.ext_format.specs.Room.{LeavesRoom};

use trace_terms::{Pid, Term};

/// The fewest bytes of a number from `2^31` on.
pub(crate) fn digit_count(size: u64) -> usize
    ensures { result ≡ forms.digit_count size }
{
    if size < 1 << 32 {
        4
    } else if size < 1 << 40 {
        5
    } else if size < 1 << 48 {
        6
    } else if size < 1 << 56 {
        7
    } else {
        8
    }
}

/// How many bytes a number takes.
#[tactic(auto, unfolding(crate::specs::Canonical::integer_form, crate::specs::Canonical::big_form))]
pub fn integer_size(number: i64) -> usize
    ensures { result ≡ length (integer_form number) }
{
    if u8::try_from(number).is_ok() {
        2
    } else if i32::try_from(number).is_ok() {
        5
    } else {
        3 + digit_count(number.unsigned_abs())
    }
}

/// The room that is left after an atom of this text, if it suffices.
#[tactic(auto, unfolding(crate::specs::Canonical::atom_form))]
pub fn room_after_atom(room: usize, text: &str) -> Option<usize>
    ensures { LeavesRoom result room (length (atom_form text.now)) }
{
    let head = if text.len() < 256 { 2 } else { 3 };
    room.checked_sub(head)?.checked_sub(text.len())
}

/// The room that is left after a pid, if it suffices.
pub fn room_after_pid(room: usize, pid: &Pid) -> Option<usize>
    ensures { LeavesRoom result room (length (canonical_form (pid_data pid.now))) }
{
    room_after_atom(room, pid.node.text())?.checked_sub(13)
}

/// How many bytes the head of a tuple takes.
#[tactic(auto, unfolding(crate::specs::Canonical::arity_form))]
pub fn arity_size(arity: usize) -> usize
    ensures { result ≡ length (arity_form arity) }
{
    if arity < 256 { 2 } else { 5 }
}

/// The integer, if it is one from 0 to 255.
pub(crate) fn byte_in(term: &Term) -> Option<u8>
    ensures { MatchOption result (is_byte (view term.now) ≡ false)
        (λ byte. (is_byte (view term.now) ≡ true) × (byte_value (view term.now) ≡ byte)) }
{
    match term {
        Term::Int(number) => u8::try_from(*number).ok(),
        Term::Atom(_) | Term::Pid(_) | Term::Tuple(_) | Term::List(_) | Term::Binary(_) => None,
    }
}

/// Whether the members are integers from 0 to 255.
fn are_bytes(members: &Vec<Term>) -> bool
    ensures { result ≡ forms.are_bytes (members_view members.now.items) }
{
    for member in members {
        if byte_in(member).is_none() {
            return false;
        }
    }
    true
}

/// Whether a list of these members is spelled as a string.
#[tactic(auto, using(crate::proofs::Sizes::counted))]
pub(crate) fn is_string(members: &Vec<Term>) -> bool
    ensures { result ≡ forms.is_string (members_view members.now.items) }
{
    members.len() < 1 << 16 && are_bytes(members)
}

/// The room that is left after a term's form, if it suffices.
#[cycle(size)]
pub fn room_after(room: usize, term: &Term) -> Option<usize>
    ensures { LeavesRoom result room (length (canonical_form (view term.now))) }
{
    match term {
        Term::Int(number) => room.checked_sub(integer_size(*number)),
        Term::Atom(atom) => room_after_atom(room, atom.text()),
        Term::Pid(pid) => room_after_pid(room, pid),
        Term::Tuple(members) => {
            room_after_members(room.checked_sub(arity_size(members.len()))?, members)
        }
        Term::List(members) => room_after_list(room, members),
        Term::Binary(bytes) => room.checked_sub(5)?.checked_sub(bytes.len()),
    }
}

/// The room that is left after a list of these members, if it suffices.
#[cycle(size)]
pub fn room_after_list(room: usize, members: &Vec<Term>) -> Option<usize>
    ensures { LeavesRoom result room (length
        (canonical_form (list (members_view members.now.items)))) }
{
    if members.is_empty() {
        room.checked_sub(1)
    } else if is_string(members) {
        room.checked_sub(3)?.checked_sub(members.len())
    } else {
        room_after_members(room.checked_sub(6)?, members)
    }
}

/// The same for the members of a tuple or of a list.
#[cycle(size)]
fn room_after_members(room: usize, members: &Vec<Term>) -> Option<usize>
    ensures { LeavesRoom result room (length (canonical_forms (members_view members.now.items))) }
{
    let mut left = room;
    for member in members {
        left = room_after(left, member)?;
    }
    Some(left)
}
