//! Messages that are made, copied, spelled and taken off, while memory is refused.

use crate::{EXAMPLE, MOMENT, RECEIVE, TRIES, is_refused_for_good, pid, receipt_of_ok, tracee};
use entry_codec::Entry;
use ext_format::encode;
use intake::{EmitFault, Offer, Tracee};
use std::alloc::Global;
use std::process::Abort;
use std::test::*;
use trace_message::{Event, message};
use trace_terms::Term;

/// The message of an event.
fn told(alloc: Global, event: &Event) -> Option<Term> {
    let pid = pid(alloc)?;
    let told = message(alloc, event, &pid, RECEIVE, MOMENT);
    drop(pid);
    match told {
        Ok(told) => told,
        Err(_) => None,
    }
}

/// The spelling of a copy of a message.
fn spelled(alloc: Global, message: &Term) -> Option<Vec<u8>> {
    let copy = message.copy().ok()?;
    let bytes = encode(alloc, &copy);
    drop(copy);
    bytes.ok()
}

/// Whether the message of a receipt of `ok` is spelled, which is the example.
fn is_spelled(rt: &impl Abort, alloc: Global) -> bool {
    let Some(event) = receipt_of_ok(alloc) else {
        return false;
    };
    let told = told(alloc, &event);
    drop(event);
    let Some(message) = told else {
        return false;
    };
    let bytes = spelled(alloc, &message);
    drop(message);
    let Some(bytes) = bytes else {
        return false;
    };
    assert!(rt; bytes.as_slice() == EXAMPLE);
    drop(bytes);
    true
}

#[test]
fn a_message_is_spelled_when_there_is_memory(rt: HostRuntime) {
    for _ in 0..TRIES {
        if is_spelled(&rt, rt.alloc()) {
            return;
        }
    }
    assert!(rt; is_refused_for_good(rt.alloc()));
}

/// Whether a tracee had the memory for its answers to these events of one kind, which are so.
fn are_answered(
    rt: &impl Abort,
    alloc: Global,
    tracee: &mut Tracee,
    event: &Event,
    answers: &[Result<Offer, EmitFault>],
) -> bool {
    for answer in answers {
        let found = tracee.emit(alloc, event, MOMENT);
        if found == Err(EmitFault::NoMemory) {
            return false;
        }
        assert!(rt; found == *answer);
    }
    true
}

/// Whether there was memory to take off all that waits, which is these entries: 0 stands for a message, another number for a drop
/// record. Where it was refused the counts stay.
fn are_taken(rt: &impl Abort, alloc: Global, tracee: &mut Tracee, entries: &[u64]) -> bool {
    let before = tracee.counts();
    let Ok(taken) = tracee.take_front(alloc, 100) else {
        assert!(rt; tracee.counts() == before);
        return false;
    };
    let is_same = taken.iter().map(Entry::lost).eq(entries.iter().copied());
    drop(taken);
    assert!(rt; is_same);
    true
}

/// Whether there was memory for a tracee with room for so many messages, which loses at most so many in a row.
fn is_told(
    rt: &impl Abort,
    alloc: Global,
    capacity: u32,
    drop_limit: u32,
    answers: &[Result<Offer, EmitFault>],
    entries: &[u64],
) -> bool {
    let Some(event) = receipt_of_ok(alloc) else {
        return false;
    };
    let Some(mut tracee) = tracee(alloc, 7, capacity, drop_limit) else {
        drop(event);
        return false;
    };
    let is_told = are_answered(rt, alloc, &mut tracee, &event, answers)
        && are_taken(rt, alloc, &mut tracee, entries);
    drop(event);
    drop(tracee);
    is_told
}

#[test]
fn what_finds_no_room_is_told_by_one_drop_up_to_the_limit(rt: HostRuntime) {
    let alloc = rt.alloc();
    let kept = Ok(Offer::Kept);
    let dropped = Ok(Offer::Dropped);
    let full = Err(EmitFault::CountFull);
    let table: [(u32, u32, &[Result<Offer, EmitFault>], &[u64]); 3] = [
        (
            2,
            4_294_967_295,
            &[kept, kept, dropped, dropped, dropped],
            &[0, 0, 3],
        ),
        (1, 2, &[kept, dropped, dropped, full], &[0, 2]),
        (1, 1, &[kept, dropped, full], &[0, 1]),
    ];
    for (capacity, drop_limit, answers, entries) in table {
        let is_told = is_told(&rt, alloc, capacity, drop_limit, answers, entries)
            || is_told(&rt, alloc, capacity, drop_limit, answers, entries);
        assert!(rt; is_told || is_refused_for_good(alloc));
    }
}
