//! Jobs on threads, while memory is refused.

use crate::jobs::{Do, Ended, Plan};
use crate::ledgers::over_a_file;
use intake::EmitFault;
use std::alloc::Global;
use std::process::Abort;
use std::sync::Wait;
use std::test::*;
use std::thread::Threads;
use tests_values::{TRIES, is_refused_for_good};
use tracees::{ActFault, HandFault, JobState};

/// Two jobs of which each takes in a message and hands it over.
const TWO: Plan = Plan {
    jobs: 2,
    capacity: 8,
    acts: &[Do::Emits(1), Do::HandOver(1)],
    times: 1,
    meet: 0,
    shut: u32::MAX,
    is_sealed: false,
    missing: 0,
    abandons: false,
};

/// Whether a job finished. One for whose receipts there is no room is ready still, and an act that was refused memory is none
/// that was done.
fn is_finished(rt: &impl Abort, job: &Ended) -> bool {
    let (offered, waiting, handed) = match &job.state {
        JobState::Ready => (0, 0, 0),
        JobState::Failed {
            act: 0,
            fault: ActFault::Emit(EmitFault::NoMemory),
        } => (0, 0, 0),
        JobState::Failed {
            act: 1,
            fault: ActFault::Hand(HandFault::NoMemory),
        } => (1, 1, 0),
        JobState::Finished => (1, 0, 1),
        _ => panic!(rt; "another end"),
    };
    let counts = job.counts;
    assert!(rt; counts.offered == offered && counts.waiting == waiting && counts.handed == handed);
    assert!(rt; job.receipts.len() as u64 == handed);
    handed == 1
}

/// Whether both jobs finished over a file port.
fn are_finished<R: Threads + Wait + Abort + Sync>(rt: &R, alloc: Global) -> bool {
    let Some((end, store)) = over_a_file(rt, alloc, TWO) else {
        return false;
    };
    drop(store);
    let mut all = true;
    for job in &end.jobs {
        all = is_finished(rt, job) && all;
    }
    drop(end);
    all
}

#[test]
fn jobs_finish_when_there_is_memory(rt: HostRuntime) {
    for _ in 0..TRIES {
        if are_finished(&rt, rt.alloc()) {
            return;
        }
    }
    assert!(rt; is_refused_for_good(rt.alloc()));
}
