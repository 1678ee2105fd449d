use crate::GREATEST;
use entry_codec::Entry;
use intake::{Counts, Offer};
use recovery::recover;
use std::alloc::Global;
use std::process::Abort;
use std::test::*;
use stores::MemStore;
use tests_values::{EXAMPLE, MOMENT, receipt_of_ok, tracee};
use trace_port::{FilePort, PortFault, TracePort};
use tracees::{Bookkeeping, Desk, HandFault, PlainBook, Receipt, Traced};

/// Attaches the tracee 0, which has room for two messages, of which so many wait.
fn attach<P: TracePort>(
    rt: &impl Abort,
    alloc: Global,
    desk: &mut Desk<'_, P, PlainBook>,
    waiting: u32,
) -> Traced<PlainBook> {
    let event = receipt_of_ok(alloc).expect(rt, "memory");
    let tracee = tracee(alloc, 0, 2, 9).expect(rt, "memory");
    assert!(rt; desk.attached() != u32::MAX);
    let mut traced = desk.attach(tracee);
    for _ in 0..waiting {
        assert!(rt; traced.emit(alloc, &event, MOMENT) == Ok(Offer::Kept));
    }
    drop(event);
    traced
}

fn is_example(entry: &Entry) -> bool {
    matches!(entry, Entry::Message(bytes) if bytes.as_slice() == EXAMPLE)
}

/// Whether a receipt of the tracee 0 at the desk 3 begins with this number, has so many entries, and says so many as covered.
fn says(receipt: &Receipt, first: u64, count: usize, covered: u64) -> bool {
    receipt.desk == 3
        && receipt.tracee == 0
        && receipt.first == first
        && receipt.covered == covered
        && receipt.entries.len() == count
        && receipt.entries.iter().all(is_example)
}

/// A tracee that leaves its desk has so many messages waiting. So many messages went through its account, of which so many
/// are flushed, and no drop.
fn leaves<K: Bookkeeping>(
    rt: &impl Abort,
    traced: Traced<K>,
    waiting: u64,
    messages: u64,
    flushed: u64,
) {
    let (tracee, account) = traced.detach();
    assert!(rt; tracee.counts().waiting == waiting);
    drop(tracee);
    let sums = account.sums();
    assert!(rt; sums.messages == messages && sums.drops == 0 && sums.flushed == flushed);
    drop(account);
}

/// A tracee of another desk gives nothing to the desk 4.
fn assert_stranger<P: TracePort>(
    rt: &impl Abort,
    alloc: Global,
    port: &mut P,
    traced: &mut Traced<PlainBook>,
) {
    let mut desk = Desk::new(4, port, PlainBook::new());
    let handed = desk.hand_over(alloc, traced, 1);
    let flushed = desk.flush_for(alloc, traced);
    assert!(rt; matches!(&handed, Err(HandFault::Stranger)));
    assert!(rt; matches!(&flushed, Err(HandFault::Stranger)));
    drop(handed);
    drop(flushed);
    assert!(rt; desk.status().accepted == 0);
    drop(desk);
    let waits = Counts {
        offered: 2,
        waiting: 2,
        unsent: 0,
        handed: 0,
        lost: 0,
    };
    assert!(rt; traced.counts() == waits);
}

/// Two tracees at the desk 3, and one of them at the desk 4.
fn shared<P: TracePort, Q: TracePort>(rt: &impl Abort, alloc: Global, port: &mut P, other: &mut Q) {
    let mut desk = Desk::new(3, port, PlainBook::new());
    let mut one = attach(rt, alloc, &mut desk, 2);
    let mut two = attach(rt, alloc, &mut desk, 1);
    assert!(rt; desk.number() == 3 && desk.attached() == 2);
    assert!(rt; one.desk() == 3 && one.number() == 0);
    assert_stranger(rt, alloc, other, &mut one);
    let handed = desk.hand_over(alloc, &mut one, 1);
    assert!(rt; matches!(&handed, Ok(receipt) if says(receipt, 0, 1, 0)));
    drop(handed);
    let flushed = desk.flush_for(alloc, &mut two);
    assert!(rt; matches!(&flushed, Ok(receipt) if says(receipt, 1, 1, 2)));
    drop(flushed);
    drop(desk);
    leaves(rt, one, 1, 1, 0);
    leaves(rt, two, 0, 1, 1);
}

/// A desk that is given up while a message waits moves nothing.
fn abandoned<P: TracePort>(rt: &impl Abort, alloc: Global, port: &mut P) {
    let mut desk = Desk::new(3, port, PlainBook::new());
    let mut traced = attach(rt, alloc, &mut desk, 1);
    desk.abandon();
    let handed = desk.hand_over(alloc, &mut traced, 1);
    assert!(rt;
        matches!(&handed, Err(HandFault::Port { fault: PortFault::Broken, receipt })
            if says(receipt, 0, 0, 0))
    );
    drop(handed);
    assert!(rt; matches!(desk.flush(), Err(PortFault::Broken)));
    drop(desk);
    leaves(rt, traced, 1, 0, 0);
}

#[test]
fn a_tracee_is_served_at_its_own_desk_alone(rt: HostRuntime) {
    let alloc = rt.alloc();
    let mut store = MemStore::blank(alloc, 1).expect(&rt, "memory");
    let mut other_store = MemStore::blank(alloc, 1).expect(&rt, "memory");
    let Ok(mut port) = FilePort::create(alloc, &mut store, GREATEST) else {
        panic!(&rt; "no port")
    };
    let Ok(mut other_port) = FilePort::create(alloc, &mut other_store, GREATEST) else {
        panic!(&rt; "no port")
    };
    shared(&rt, alloc, &mut port, &mut other_port);
    drop(other_port);
    drop(port);
    drop(other_store);
    drop(store);
}

#[test]
fn a_desk_that_is_abandoned_moves_nothing(rt: HostRuntime) {
    let alloc = rt.alloc();
    let mut store = MemStore::blank(alloc, 1).expect(&rt, "memory");
    let Ok(mut port) = FilePort::create(alloc, &mut store, GREATEST) else {
        panic!(&rt; "no port")
    };
    abandoned(&rt, alloc, &mut port);
    drop(port);
    let found = recover(alloc, &mut store).expect(&rt, "a trace");
    drop(store);
    assert!(rt; found.entries.is_empty() && !found.sealed);
    drop(found);
}
