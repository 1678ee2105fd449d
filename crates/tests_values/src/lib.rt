//! Tests of terms, of their External Term Format, of trace messages, of entries, and of a tracee's intake, through what each
//! crate offers to others; and what tests of more than one crate begin with. In `refused_memory_terms` calls are refused memory,
//! and made again.
#![tactic(auto)]

#[cfg(test)]
mod entry_codec_tests;
#[cfg(test)]
mod ext_format_tests;
#[cfg(test)]
mod refused_memory_terms;
#[cfg(test)]
mod trace_message_tests;

use intake::Tracee;
use std::alloc::Global;
use trace_message::{Event, Flags, Stamp};
use trace_terms::{Atom, Pid, Term};

/// `{trace,<nonode@nohost.80.0.0>,'receive',ok}` in the External Term Format.
pub const EXAMPLE: &[u8] =
    b"\x83\x68\x04\x77\x05trace\x58\x77\x0dnonode@nohost\x00\x00\x00\x50\x00\x00\x00\x00\x00\x00\x00\x00\x77\x07receive\x77\x02ok";

/// A moment without monotonic time.
pub const MOMENT: Stamp = Stamp {
    mega: 1,
    sec: 2,
    micro: 3,
    mono: 0,
};

/// So often something is begun anew that was refused memory.
pub const TRIES: u32 = 3;

/// Messages received are asked for, and nothing else.
pub const RECEIVE: Flags = Flags {
    call: false,
    send: false,
    receive: true,
    arity: false,
    timestamp: false,
    monotonic: false,
};

/// Whether memory is refused from now on, also to this.
pub fn is_refused_for_good(alloc: Global) -> bool {
    let asked: Result<Vec<u8>, _> = Vec::with_capacity(alloc, 8);
    asked.is_err()
}

/// The atom of this text, which is made once more where that was refused memory.
fn atom(alloc: Global, text: &str) -> Option<Atom> {
    match Atom::new(alloc, text) {
        Ok(atom) => Some(atom),
        Err(_) => Atom::new(alloc, text).ok(),
    }
}

/// The receipt of the atom `ok`.
pub fn receipt_of_ok(alloc: Global) -> Option<Event> {
    let message = Term::Atom(atom(alloc, "ok")?);
    Some(Event::Receive { message })
}

/// The process `<nonode@nohost.80.0.0>`.
pub fn pid(alloc: Global) -> Option<Pid> {
    Some(Pid {
        node: atom(alloc, "nonode@nohost")?,
        id: 80,
        serial: 0,
        creation: 0,
    })
}

/// A tracee with room for so many messages, which loses at most so many in a row. The process of number 0 is that of `pid`.
pub fn tracee(alloc: Global, number: u32, capacity: u32, drop_limit: u32) -> Option<Tracee> {
    let mut pid = pid(alloc)?;
    pid.id = number.wrapping_add(80);
    Tracee::new(alloc, number, pid, RECEIVE, capacity, drop_limit).ok()
}
