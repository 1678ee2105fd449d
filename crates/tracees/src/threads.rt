//! Jobs on threads, over one desk behind a lock.

ghost use Rattle.std.specs.Prelude.{◌≡◌, ℕ, ◌<◌, length, All, OnOk, OnErr, slice_index_or};
ghost use Rattle.tracees.specs.Jobs.{HasRoom, HasRun, IsReady, IsReserved, IsSameJob};

use crate::book::Bookkeeping;
use crate::desk::Desk;
use crate::job::{Gate, Job};
use crate::locked::LockedDesk;
use crate::shared::SharedBook;
use crate::working::run_job;
use std::alloc::{AllocError, Global};
use std::sync::{Mutex, Wait};
use std::thread;
use std::thread::Threads;
use trace_port::TracePort;
use trace_terms::NoMemory;

/// Runs each job on a thread of its own.
fn run_each<P: TracePort, K: SharedBook, G: Gate, R: Threads + Wait + Sync>(
    rt: &R,
    alloc: Global,
    desk: &LockedDesk<'_, '_, P, K>,
    jobs: &mut [Job<K>],
    gate: &G,
)
    requires some { 0 < length jobs.old }
    requires room { All (λ job. HasRoom job) jobs.old }
    ensures { (place : ℕ) (d : _) → place < length jobs.old
        → HasRun P.told (G.answers gate.now) (G.told gate.now) (slice_index_or jobs.old place d)
        (slice_index_or jobs.new place d) }
{
    let count = jobs.len();
    thread::for_each_mut(
        rt,
        jobs,
        count,
        &|_, job|
            requires { HasRoom job.now }
            ensures { HasRun P.told (G.answers gate.entry.now)
                (G.told gate.entry.now) job.entry.now job.exit.now }
        { run_job(rt, alloc, desk, gate, job) },
    );
}

/// Reserves memory for the receipts of a job.
fn reserve<K: Bookkeeping>(job: &mut Job<K>) -> Result<(), AllocError>
    ensures same { IsSameJob job.old job.new }
    ensures room { OnOk result (IsReserved job.new) }
{
    let count = job.acts.len();
    job.receipts.reserve(count)
}

/// Reserves memory for the receipts of all jobs.
fn reserve_all<K: Bookkeeping>(jobs: &mut [Job<K>]) -> Result<(), AllocError>
    ensures same { (place : ℕ) (d : _) → place < length jobs.old
        → IsSameJob (slice_index_or jobs.old place d) (slice_index_or jobs.new place d) }
    ensures room { OnOk result ((place : ℕ) (d : _) → place < length jobs.old
        → IsReserved (slice_index_or jobs.new place d)) }
{
    for place in 0..jobs.len() {
        reserve(&mut jobs[place])?;
    }
    Ok(())
}

/// Runs jobs, where there are any, once memory is reserved for the receipts of all.
fn run_jobs<P: TracePort, K: SharedBook, G: Gate, R: Threads + Wait + Sync>(
    rt: &R,
    alloc: Global,
    desk: &LockedDesk<'_, '_, P, K>,
    jobs: &mut [Job<K>],
    gate: &G,
) -> Result<(), NoMemory>
    requires { All (λ job. IsReady job) jobs.old }
    ensures ran { OnOk result ((place : ℕ) (d : _) → place < length jobs.old
        → HasRun P.told (G.answers gate.now) (G.told gate.now) (slice_index_or jobs.old place d)
        (slice_index_or jobs.new place d)) }
    ensures err { OnErr result ((place : ℕ) (d : _) → place < length jobs.old
        → IsSameJob (slice_index_or jobs.old place d) (slice_index_or jobs.new place d)) }
{
    reserve_all(jobs)?;
    if !jobs.is_empty() {
        run_each(rt, alloc, desk, jobs, gate);
    }
    Ok(())
}

/// Runs jobs over one desk, each on a thread of its own; where no thread can be made they run one after another. What a
/// job does under the lock is one call of `hand_over` or `flush_for`; an event and both calls of the gate are outside.
///
/// Without room for a receipt of each act nothing is done, and all jobs stay ready.
pub fn run_threads<P: TracePort, K: SharedBook, G: Gate, R: Threads + Wait + Sync>(
    rt: &R,
    alloc: Global,
    desk: &Mutex<Desk<'_, P, K>>,
    jobs: &mut [Job<K>],
    gate: &G,
) -> Result<(), NoMemory>
    requires { All (λ job. IsReady job) jobs.old }
    ensures ran { OnOk result ((place : ℕ) (d : _) → place < length jobs.old
        → HasRun P.told (G.answers gate.now) (G.told gate.now) (slice_index_or jobs.old place d)
        (slice_index_or jobs.new place d)) }
    ensures err { OnErr result ((place : ℕ) (d : _) → place < length jobs.old
        → IsSameJob (slice_index_or jobs.old place d) (slice_index_or jobs.new place d)) }
{
    run_jobs(rt, alloc, &LockedDesk::over(desk), jobs, gate)
}
