//! Stores that are lent and come back sealed, while memory is refused.

use crate::GREATEST;
use crate::lent_port_tests::assert_sealed;
use intake::{Offer, Tracee};
use std::alloc::Global;
use std::process::Abort;
use std::test::*;
use stores::MemStore;
use tests_values::{MOMENT, TRIES, is_refused_for_good, receipt_of_ok, tracee};
use trace_port::{PortFault, begin_create};
use trace_store::Store;
use tracees::{HandFault, Receipt, record_one};

/// Whether there was memory for two messages of a tracee.
fn are_kept(alloc: Global, tracee: &mut Tracee) -> bool {
    let Some(event) = receipt_of_ok(alloc) else {
        return false;
    };
    let mut are_kept = true;
    for _ in 0..2 {
        are_kept = matches!(tracee.emit(alloc, &event, MOMENT), Ok(Offer::Kept)) && are_kept;
    }
    drop(event);
    are_kept
}

/// The tracee's counts behind an answer: one message was handed over, of which the receipt tells, or none where memory for that
/// was refused.
fn is_recorded(rt: &impl Abort, tracee: &Tracee, answer: &Result<Receipt, HandFault>) -> bool {
    let (handed, waiting) = match answer {
        Ok(receipt) => {
            assert!(rt; (receipt.desk, receipt.tracee) == (0, 0));
            assert!(rt; (receipt.first, receipt.covered) == (0, 0));
            assert!(rt; receipt.entries.len() == 1);
            (1, 1)
        }
        Err(HandFault::NoMemory) => (0, 2),
        Err(
            HandFault::Port {
                fault: PortFault::Device,
                receipt: _,
            },
        ) => return false,
        Err(_) => panic!(rt; "another refusal"),
    };
    let counts = tracee.counts();
    assert!(rt; counts.handed == handed && counts.waiting == waiting);
    handed == 1
}

/// Records the first of what waits. Whether there was memory for it.
fn is_sealed(rt: &impl Abort, alloc: Global, store: &mut MemStore, tracee: Tracee) -> bool {
    let Ok(opening) = begin_create(alloc, store, GREATEST) else {
        drop(tracee);
        return false;
    };
    let (tracee, answer) = record_one(alloc, store, opening, tracee, 1);
    let is_recorded = is_recorded(rt, &tracee, &answer);
    drop(tracee);
    drop(answer);
    if !is_recorded || store.failures() != 0 {
        return false;
    }
    assert_sealed(rt, store);
    true
}

/// Whether there was memory to record the first of two messages that wait.
fn is_done(rt: &impl Abort, alloc: Global) -> bool {
    let Some(mut tracee) = tracee(alloc, 0, 2, 9) else {
        return false;
    };
    if !are_kept(alloc, &mut tracee) {
        drop(tracee);
        return false;
    }
    let Ok(mut store) = MemStore::blank(alloc, 1) else {
        drop(tracee);
        return false;
    };
    let is_done = is_sealed(rt, alloc, &mut store, tracee);
    drop(store);
    is_done
}

#[test]
fn what_waits_is_recorded_when_there_is_memory(rt: HostRuntime) {
    for _ in 0..TRIES {
        if is_done(&rt, rt.alloc()) {
            return;
        }
    }
    assert!(rt; is_refused_for_good(rt.alloc()));
}
