//! Steps at desks over ports of two kinds, while memory is refused.

ghost use Rattle.std.specs.Prelude.{◌≡◌};

use crate::GREATEST;
use entry_codec::Entry;
use intake::{EmitFault, Offer, Tracee};
use recovery::recover;
use std::alloc::Global;
use std::process::Abort;
use std::slice;
use std::test::*;
use stores::MemStore;
use tests_values::{MOMENT, TRIES, is_refused_for_good, receipt_of_ok, tracee};
use trace_port::{FilePort, PortFault, TracePort};
use trace_store::Store;
use tracees::{
    Bookkeeping, Desk, EitherPort, HandFault, PlainBook, Receipt, Reply, Step, Traced, audit, drive,
};
use wrap_port::{WrapPort, WrapSpec};

/// A step, whose event is the receipt of the atom `ok`.
#[derive(Clone, Copy)]
enum Asked {
    Receives(u32),
    HandOver(u32),
    FlushFor(u32),
    Flush(u32),
    Seal(u32),
}

/// What is to be replied to a step. Of a receipt: the desk, the tracee, the number of the first entry, how many messages
/// each entry tells as lost, and what is covered.
#[derive(Clone, Copy)]
enum Expected {
    Offer(Offer),
    Receipt(u32, u32, u64, &'static [u64], u64),
    Flushed(u64),
    Sealed,
    Unknown,
}

/// Each step with its reply.
const STEPS: [(Asked, Expected); 14] = [
    (Asked::Receives(0), Expected::Offer(Offer::Kept)),
    (Asked::Receives(1), Expected::Offer(Offer::Kept)),
    (Asked::Receives(2), Expected::Offer(Offer::Kept)),
    (Asked::HandOver(0), Expected::Receipt(0, 0, 0, &[0], 0)),
    (Asked::FlushFor(2), Expected::Receipt(1, 2, 0, &[0], 1)),
    (Asked::FlushFor(1), Expected::Receipt(0, 1, 1, &[0], 2)),
    (Asked::Receives(2), Expected::Offer(Offer::Kept)),
    (Asked::Receives(2), Expected::Offer(Offer::Kept)),
    (Asked::Receives(2), Expected::Offer(Offer::Dropped)),
    (
        Asked::FlushFor(2),
        Expected::Receipt(1, 2, 1, &[0, 0, 1], 4),
    ),
    (Asked::Flush(1), Expected::Flushed(4)),
    (Asked::Seal(0), Expected::Sealed),
    (Asked::HandOver(4), Expected::Unknown),
    (Asked::Flush(2), Expected::Unknown),
];

fn step(alloc: Global, asked: Asked) -> Option<Step> {
    match asked {
        Asked::Receives(tracee) => Some(Step::Emit {
            tracee,
            event: receipt_of_ok(alloc)?,
            stamp: MOMENT,
        }),
        Asked::HandOver(tracee) => Some(Step::HandOver { tracee, limit: 9 }),
        Asked::FlushFor(tracee) => Some(Step::FlushFor { tracee }),
        Asked::Flush(desk) => Some(Step::Flush { desk }),
        Asked::Seal(desk) => Some(Step::Seal { desk }),
    }
}

fn steps(rt: &impl Abort, alloc: Global) -> Option<Vec<Step>> {
    let mut steps = Vec::with_capacity(alloc, STEPS.len()).ok()?;
    for (asked, _) in STEPS {
        let step = step(alloc, asked)?;
        steps.push(step).expect(rt, "room");
    }
    Some(steps)
}

/// Four tracees, the last first, of which each has room for two messages.
fn tracees(rt: &impl Abort, alloc: Global) -> Option<Vec<Tracee>> {
    let mut tracees = Vec::with_capacity(alloc, 4).ok()?;
    for number in [3, 2, 1, 0] {
        let tracee = tracee(alloc, number, 2, 9)?;
        tracees.push(tracee).expect(rt, "room");
    }
    Some(tracees)
}

/// Attaches the last of the tracees.
fn attach_one<P: TracePort, K: Bookkeeping>(
    rt: &impl Abort,
    desk: &mut Desk<'_, P, K>,
    tracees: &mut Vec<Tracee>,
    traced: &mut Vec<Traced<K>>,
)
    ensures { desk.new.number ≡ desk.old.number }
{
    let tracee = tracees.pop().expect(rt, "a tracee");
    assert!(rt; desk.attached() != u32::MAX);
    traced.push(desk.attach(tracee)).expect(rt, "room");
}

/// A desk with two of the tracees.
fn opened<'p, P: TracePort>(
    rt: &impl Abort,
    number: u32,
    port: &'p mut P,
    tracees: &mut Vec<Tracee>,
    traced: &mut Vec<Traced<PlainBook>>,
) -> Desk<'p, P, PlainBook>
    ensures { result.number ≡ number }
{
    let mut desk = Desk::new(number, port, PlainBook::new());
    attach_one(rt, &mut desk, tracees, traced);
    attach_one(rt, &mut desk, tracees, traced);
    desk
}

/// Steps over a desk for each of at most two ports, numbered in their order, with two tracees at each. None where memory was
/// refused.
fn run_all<P: TracePort>(
    rt: &impl Abort,
    alloc: Global,
    ports: &mut [P],
    tracees: &mut Vec<Tracee>,
    steps: &[Step],
) -> Option<Vec<Reply>> {
    let mut desks = Vec::with_capacity(alloc, 2).ok()?;
    let mut traced = Vec::with_capacity(alloc, 4).ok()?;
    let each = ports.iter_mut();
    for port in each {
        let number = u32::try_from(desks.len()).expect(rt, "a number");
        let desk = opened(rt, number, port, tracees, &mut traced);
        desks.push(desk).expect(rt, "room");
    }
    let replies = drive(alloc, &mut desks, &mut traced, steps);
    drop(traced);
    drop(desks);
    replies.ok()
}

/// The same over a port of each kind.
fn run_each<F: TracePort, W: TracePort>(
    rt: &impl Abort,
    alloc: Global,
    file: &mut F,
    wrap: &mut W,
    tracees: &mut Vec<Tracee>,
    steps: &[Step],
) -> Option<Vec<Reply>> {
    let mut ports = Vec::with_capacity(alloc, 2).ok()?;
    ports.push(EitherPort::file(file)).expect(rt, "room");
    ports.push(EitherPort::wrap(wrap)).expect(rt, "room");
    let replies = run_all(rt, alloc, ports.as_mut_slice(), tracees, steps);
    drop(ports);
    replies
}

/// The same over a file port and a wrap port, whose drops finish them.
fn run_both(
    rt: &impl Abort,
    alloc: Global,
    file_store: &mut MemStore,
    wrap_store: &mut MemStore,
    tracees: &mut Vec<Tracee>,
    steps: &[Step],
) -> Option<Vec<Reply>> {
    let spec = WrapSpec::new(100, 2).expect(rt, "a lawful specification");
    let Ok(mut file) = FilePort::create(alloc, file_store, GREATEST) else {
        return None;
    };
    let Ok(mut wrap) = WrapPort::create(alloc, wrap_store, spec) else {
        drop(file);
        return None;
    };
    let replies = run_each(rt, alloc, &mut file, &mut wrap, tracees, steps);
    drop(wrap);
    drop(file);
    replies
}

/// Whether memory was refused to a step, or to its device.
fn is_refused(reply: &Reply) -> bool {
    matches!(
        reply,
        Reply::EmitRefused(EmitFault::NoMemory)
            | Reply::HandRefused(HandFault::NoMemory)
            | Reply::HandRefused(HandFault::Port {
                fault: PortFault::Device,
                ..
            })
            | Reply::PortRefused(PortFault::Device)
    )
}

fn is_as_expected(reply: &Reply, expected: Expected) -> bool {
    match (reply, expected) {
        (Reply::Offer(offer), Expected::Offer(wanted)) => *offer == wanted,
        (Reply::Receipt(receipt), Expected::Receipt(desk, tracee, first, lost, covered)) => {
            let names = (receipt.desk, receipt.tracee) == (desk, tracee);
            let numbers = (receipt.first, receipt.covered) == (first, covered);
            let entries = receipt.entries.iter().map(Entry::lost);
            names && numbers && entries.eq(lost.iter().copied())
        }
        (Reply::Flushed(covered), Expected::Flushed(wanted)) => *covered == wanted,
        (Reply::Sealed, Expected::Sealed) | (Reply::Unknown, Expected::Unknown) => true,
        _ => false,
    }
}

/// The replies are those that are expected, up to one that was refused memory. Whether none was.
fn are_expected(rt: &impl Abort, replies: &[Reply]) -> bool {
    assert!(rt; replies.len() == STEPS.len());
    for (reply, (_, expected)) in replies.iter().zip(STEPS) {
        if is_refused(reply) {
            return false;
        }
        assert!(rt; is_as_expected(reply, expected));
    }
    true
}

/// The receipts of a desk agree with what is left of its trace, which a seal ended. Whether there was memory to recover it.
fn is_audited(
    rt: &impl Abort,
    alloc: Global,
    store: &mut MemStore,
    desk: u32,
    replies: &[Reply],
) -> bool {
    let Ok(window) = recover(alloc, store) else {
        return false;
    };
    for reply in replies {
        if let Reply::Receipt(receipt) = reply {
            let receipts: &[Receipt] = slice::from_ref(receipt);
            assert!(rt; receipt.desk != desk || audit(&window, receipts) == Ok(()));
        }
    }
    assert!(rt; window.sealed && (desk != 0 || window.entries.len() == 2));
    drop(window);
    true
}

/// The replies to the steps over two stores. None where memory was refused.
fn replies(
    rt: &impl Abort,
    alloc: Global,
    file_store: &mut MemStore,
    wrap_store: &mut MemStore,
) -> Option<Vec<Reply>> {
    let mut tracees = tracees(rt, alloc)?;
    let Some(steps) = steps(rt, alloc) else {
        drop(tracees);
        return None;
    };
    let replies = run_both(rt, alloc, file_store, wrap_store, &mut tracees, &steps);
    drop(tracees);
    drop(steps);
    replies
}

/// Takes the steps over two stores. Whether there was memory for them.
fn are_taken(rt: &impl Abort, alloc: Global, file: &mut MemStore, wrap: &mut MemStore) -> bool {
    let Some(replies) = replies(rt, alloc, file, wrap) else {
        return false;
    };
    let are_taken = are_expected(rt, &replies)
        && file.failures() == 0
        && wrap.failures() == 0
        && is_audited(rt, alloc, file, 0, &replies)
        && is_audited(rt, alloc, wrap, 1, &replies);
    drop(replies);
    are_taken
}

/// The same over new stores.
fn is_done(rt: &impl Abort, alloc: Global) -> bool {
    let Ok(mut file) = MemStore::blank(alloc, 1) else {
        return false;
    };
    let Ok(mut wrap) = MemStore::blank(alloc, 3) else {
        drop(file);
        return false;
    };
    let is_done = are_taken(rt, alloc, &mut file, &mut wrap);
    drop(wrap);
    drop(file);
    is_done
}

#[test]
fn desks_over_ports_of_two_kinds_take_steps_in_order(rt: HostRuntime) {
    for _ in 0..TRIES {
        if is_done(&rt, rt.alloc()) {
            return;
        }
    }
    assert!(rt; is_refused_for_good(rt.alloc()));
}
