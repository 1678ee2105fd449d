use crate::jobs::{Do, End, Ended, Plan};
use crate::ledgers::{over_a_file, over_a_wrap};
use entry_codec::Entry;
use recovery::{Recovered, recover};
use std::alloc::Global;
use std::process::Abort;
use std::sync::Wait;
use std::test::*;
use std::thread::Threads;
use stores::Pick;
use trace_port::{PortFault, PortState};
use tracees::{ActFault, HandFault, JobState, Receipt, Totals, audit};

/// Two jobs, each of which takes in a message and flushes it once both are on their way.
const TWO: Plan = Plan {
    jobs: 2,
    capacity: 8,
    acts: &[Do::Emits(1), Do::FlushFor],
    times: 1,
    meet: 2,
    shut: u32::MAX,
    is_sealed: false,
    missing: 0,
    abandons: false,
};

/// What a plan comes to. Each job has receipts that tell so many messages as lost by each entry, and whether what they tell is
/// covered.
#[derive(Clone, Copy)]
struct Expected {
    receipts: &'static [(&'static [u64], bool)],
    calls: u64,
    totals: Result<Totals, usize>,
    /// How many entries are recovered.
    entries: usize,
    covered: Option<u64>,
}

fn sums(messages: u64, drops: u64, flushed: u64) -> Result<Totals, usize> {
    Ok(Totals {
        messages,
        drops,
        flushed,
    })
}

/// The job finished with these receipts, which agree with what is recovered.
fn assert_finished(rt: &impl Abort, job: &Ended, found: &Recovered, expected: &[(&[u64], bool)]) {
    assert!(rt; matches!(&job.state, JobState::Finished));
    assert!(rt; job.receipts.len() == expected.len());
    for (receipt, (lost, is_covered)) in job.receipts.iter().zip(expected) {
        let entries = receipt.entries.iter().map(Entry::lost);
        assert!(rt; entries.eq(lost.iter().copied()));
        assert!(rt; (receipt.covered > receipt.first) == *is_covered);
    }
    assert!(rt; audit(found, job.receipts.as_slice()) == Ok(()));
}

/// A plan over a file port comes to this.
fn assert_comes_to<R: Threads + Wait + Abort + Sync>(
    rt: &R,
    alloc: Global,
    plan: Plan,
    expected: Expected,
) {
    let (end, mut store) = over_a_file(rt, alloc, plan).expect(rt, "a port");
    let found = recover(alloc, &mut store).expect(rt, "a trace");
    drop(store);
    for job in &end.jobs {
        assert_finished(rt, job, &found, expected.receipts);
    }
    assert!(rt; end.jobs.len() == plan.jobs as usize && end.calls == expected.calls);
    assert!(rt; end.totals == expected.totals && found.entries.len() == expected.entries);
    assert!(rt; end.status.accepted == expected.entries as u64);
    assert!(rt; end.status.state == PortState::Live);
    assert!(rt;
        expected
            .covered
            .is_none_or(|covered: u64| end.status.covered == covered)
    );
    drop(end);
    drop(found);
}

/// Jobs wait for one another, so all are on their way at once. Those that hand over and never flush cover nothing: under the
/// lock a hand-over is all that they do. The accounts settle where none is missing.
#[test]
fn jobs_that_meet_agree_with_what_is_recovered(rt: HostRuntime) {
    let four = Plan {
        jobs: 4,
        capacity: 1,
        acts: &[Do::Emits(2), Do::HandOver(1), Do::FlushFor],
        meet: 4,
        ..TWO
    };
    let handing = Plan {
        times: 2,
        acts: &[Do::Emits(1), Do::HandOver(8)],
        ..TWO
    };
    let unflushed = Plan {
        capacity: 1,
        acts: &[Do::Emits(2), Do::FlushFor, Do::Emits(1), Do::HandOver(1)],
        ..TWO
    };
    let missing = Plan { missing: 1, ..TWO };
    let table = [
        (
            TWO,
            Expected {
                receipts: &[(&[0], true)],
                calls: 4,
                totals: sums(2, 0, 2),
                entries: 2,
                covered: Some(2),
            },
        ),
        (
            four,
            Expected {
                receipts: &[(&[0], false), (&[1], true)],
                calls: 8,
                totals: sums(4, 4, 4),
                entries: 8,
                covered: Some(8),
            },
        ),
        (
            handing,
            Expected {
                receipts: &[(&[0], false), (&[0], false)],
                calls: 8,
                totals: sums(4, 0, 0),
                entries: 4,
                covered: Some(0),
            },
        ),
        (
            unflushed,
            Expected {
                receipts: &[(&[0, 1], true), (&[0], false)],
                calls: 10,
                totals: sums(4, 2, 2),
                entries: 6,
                covered: None,
            },
        ),
        (
            missing,
            Expected {
                receipts: &[(&[0], true)],
                calls: 4,
                totals: Err(1),
                entries: 2,
                covered: Some(2),
            },
        ),
    ];
    for (plan, expected) in table {
        assert_comes_to(&rt, rt.alloc(), plan, expected);
    }
}

/// Each of four tracees takes in 25,000 messages, in rounds of 1,250, of which it has room for 1,000.
const RUSH: Plan = Plan {
    jobs: 4,
    capacity: 1_000,
    acts: &[Do::Emits(1_250), Do::HandOver(600), Do::FlushFor],
    times: 20,
    meet: 4,
    abandons: true,
    ..TWO
};

/// The messages, the drops and the entries that the receipts of jobs name.
fn named(jobs: &[Ended]) -> (u64, u64, u64) {
    let (mut messages, mut drops, mut entries) = (0u64, 0u64, 0u64);
    for job in jobs {
        for receipt in &job.receipts {
            for entry in &receipt.entries {
                entries = entries.saturating_add(1);
                drops = drops.saturating_add(entry.lost());
                if let Entry::Message(_) = entry {
                    messages = messages.saturating_add(1);
                }
            }
        }
    }
    (messages, drops, entries)
}

/// The sums of the accounts, the port's counts and the receipts tell the same.
fn assert_rush_is_told(rt: &impl Abort, end: &End) {
    assert!(rt; end.totals == sums(80_000, 20_000, 80_000));
    assert!(rt; named(end.jobs.as_slice()) == (80_000, 20_000, 80_080));
    let status = end.status;
    assert!(rt; status.accepted == 80_080 && status.dropped == 20_000);
    assert!(rt; status.covered == 80_080 && status.state == PortState::Live);
}

/// And what is recovered after a crash.
#[test]
fn four_jobs_agree_with_what_is_recovered(rt: HostRuntime) {
    let alloc = rt.alloc();
    let (end, mut store) = over_a_wrap(&rt, alloc, RUSH).expect(&rt, "a port");
    assert!(rt; store.crash(Pick::Kept).is_ok());
    let found = recover(alloc, &mut store).expect(&rt, "a trace");
    drop(store);
    assert_rush_is_told(&rt, &end);
    assert!(rt; found.total() == 80_080 && found.drops() == 20_000);
    for job in &end.jobs {
        assert!(rt; audit(&found, job.receipts.as_slice()) == Ok(()));
    }
    drop(end);
    drop(found);
}

/// A job's hand-over found the port sealed, and moved nothing.
fn is_refused(state: &JobState) -> bool {
    match state {
        JobState::Failed {
            act: 1,
            fault: ActFault::Hand(HandFault::Port { fault, receipt }),
        } => *fault == PortFault::Sealed && receipt.entries.is_empty(),
        _ => false,
    }
}

/// One job, over a desk that may be sealed, comes to this.
fn assert_ends<R: Threads + Wait + Abort + Sync>(
    rt: &R,
    alloc: Global,
    shut: u32,
    is_sealed: bool,
) {
    let plan = Plan {
        jobs: 1,
        capacity: 1,
        acts: &[Do::Emits(1), Do::HandOver(1), Do::FlushFor],
        meet: 1,
        shut,
        is_sealed,
        ..TWO
    };
    let (end, store) = over_a_file(rt, alloc, plan).expect(rt, "a port");
    drop(store);
    let [job] = end.jobs.as_slice() else {
        panic!(rt; "another number of jobs")
    };
    let receipts: &[Receipt] = job.receipts.as_slice();
    if is_sealed {
        assert!(rt; is_refused(&job.state) && receipts.is_empty() && end.calls == 4);
    } else {
        assert!(rt; matches!(&job.state, JobState::Shut { act: 2 }));
        assert!(rt; receipts.len() == 1 && end.calls == 5);
    }
    drop(end);
}

#[test]
fn a_job_ends_where_it_is_shut_or_refused(rt: HostRuntime) {
    assert_ends(&rt, rt.alloc(), 2, false);
    assert_ends(&rt, rt.alloc(), 9, true);
}
