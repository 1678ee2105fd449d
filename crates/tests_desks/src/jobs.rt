//! Jobs on threads over one desk, and what comes of them.

ghost use Rattle.std.specs.Prelude.{All, IfOk, ⊤};
ghost use Rattle.tracees.specs.Jobs.{IsReady};
ghost use Rattle.tests_desks.specs.Beginnings.{Begins};

use intake::Counts;
use std::alloc::Global;
use std::process::Abort;
use std::sync::atomic::{AtomicU64, Ordering};
use std::sync::{Mutex, Wait};
use std::test::*;
use std::thread::Threads;
use tests_values::{MOMENT, receipt_of_ok, tracee};
use trace_port::{Status, TracePort};
use trace_terms::NoMemory;
use tracees::{
    Account, Act, Bookkeeping, Desk, Gate, Job, JobState, Receipt, SettleFault, SharedBook, Totals,
    run_threads, settle,
};

pub(crate) enum Do {
    /// So many receipts of the atom `ok`.
    Emits(u32),
    HandOver(u32),
    FlushFor,
}

/// So many jobs, and what each of them does.
#[derive(Clone, Copy)]
pub(crate) struct Plan {
    pub(crate) jobs: u32,
    /// How many messages a job's tracee has room for.
    pub(crate) capacity: u32,
    /// The acts of a job, which it does so many times over.
    pub(crate) acts: &'static [Do],
    pub(crate) times: u32,
    /// No job does its first act until so many have come to theirs.
    pub(crate) meet: u64,
    /// The gate is shut before the act at this place.
    pub(crate) shut: u32,
    /// Whether the desk is sealed before the jobs begin.
    pub(crate) is_sealed: bool,
    /// So many accounts are missing when they are settled.
    pub(crate) missing: usize,
    /// Whether the port is given up at the end.
    pub(crate) abandons: bool,
}

/// The gate of a plan. It counts the calls of the job 0, and many more where one is out of order: each act is asked for and then
/// told of.
#[derive(Drop)]
struct Watch {
    meet: u64,
    shut: u32,
    come: AtomicU64,
    calls: AtomicU64,
}

impl Watch {
    fn note(&self, tracee: u32, call: u64) {
        if tracee == 0 && self.calls.fetch_add(1, Ordering::SeqCst) != call {
            self.calls.fetch_add(1_000_000, Ordering::SeqCst);
        }
    }
}

impl Gate for Watch {
    ghost answers = { λ gate tracee act passes. ⊤ };

    ghost told = { λ gate tracee act. ⊤ };

    fn before(&self, tracee: u32, act: u32) -> bool {
        self.note(tracee, 2 * u64::from(act));
        if act != 0 {
            return act < self.shut;
        }
        self.come.fetch_add(1, Ordering::SeqCst);
        for _ in 0..2_000_000_000u32 {
            if self.come.load(Ordering::SeqCst) >= self.meet {
                return true;
            }
        }
        false
    }

    fn after(&self, tracee: u32, act: u32) {
        self.note(tracee, 2 * u64::from(act) + 1);
    }
}

/// How a job ended, and what it and its tracee have.
#[derive(Drop)]
pub(crate) struct Ended {
    pub(crate) state: JobState,
    pub(crate) receipts: Vec<Receipt>,
    pub(crate) counts: Counts,
}

/// What is known at the end.
#[derive(Drop)]
pub(crate) struct End {
    pub(crate) jobs: Vec<Ended>,
    /// The calls of the gate for the job 0.
    pub(crate) calls: u64,
    /// The sums of the accounts, or how many came back.
    pub(crate) totals: Result<Totals, usize>,
    /// What the port has done.
    pub(crate) status: Status,
}

fn add_emits(alloc: Global, acts: &mut Vec<Act>, count: u32) -> Result<(), NoMemory> {
    for _ in 0..count {
        let event = receipt_of_ok(alloc).ok_or(NoMemory)?;
        let stamp = MOMENT;
        acts.push(Act::Emit { event, stamp })?;
    }
    Ok(())
}

fn acts(alloc: Global, plan: Plan) -> Result<Vec<Act>, NoMemory> {
    let mut acts = Vec::new(alloc);
    for _ in 0..plan.times {
        for one in plan.acts {
            match *one {
                Do::Emits(count) => add_emits(alloc, &mut acts, count)?,
                Do::HandOver(limit) => acts.push(Act::HandOver { limit })?,
                Do::FlushFor => acts.push(Act::FlushFor)?,
            }
        }
    }
    Ok(acts)
}

/// A job of a new tracee, so that messages differ of a process of its own.
fn job<P: TracePort, K: Bookkeeping>(
    rt: &impl Abort,
    alloc: Global,
    desk: &mut Desk<'_, P, K>,
    number: u32,
    plan: Plan,
) -> Result<Job<K>, NoMemory>
    ensures { IfOk result (λ job. IsReady job) }
{
    let acts = acts(alloc, plan)?;
    assert!(rt; acts.len() <= u32::MAX as usize);
    let tracee = tracee(alloc, number, plan.capacity, 1_000).ok_or(NoMemory)?;
    assert!(rt; desk.attached() != u32::MAX);
    Ok(Job::new(alloc, desk.attach(tracee), acts))
}

/// The jobs of a plan, over one desk.
fn jobs<P: TracePort, K: Bookkeeping>(
    rt: &impl Abort,
    alloc: Global,
    desk: &mut Desk<'_, P, K>,
    plan: Plan,
) -> Result<Vec<Job<K>>, NoMemory>
    ensures { IfOk result (λ jobs. All (λ job. IsReady job) jobs.items) }
{
    let mut jobs = Vec::new(alloc);
    for number in 0..plan.jobs {
        let job = job(rt, alloc, desk, number, plan)?;
        jobs.push(job)?;
    }
    Ok(jobs)
}

/// Runs jobs on threads, over one desk, which comes back with them and with the calls of the gate.
fn run_jobs<'p, P: TracePort, K: SharedBook, R: Threads + Wait + Abort + Sync>(
    rt: &R,
    alloc: Global,
    desk: Desk<'p, P, K>,
    mut jobs: Vec<Job<K>>,
    plan: Plan,
) -> (Desk<'p, P, K>, Vec<Job<K>>, u64)
    requires { All (λ job. IsReady job) jobs.items }
{
    let gate = Watch {
        meet: plan.meet,
        shut: plan.shut,
        come: AtomicU64::new(0),
        calls: AtomicU64::new(0),
    };
    let desk = Mutex::new(desk);
    // Where it is refused memory the jobs stay ready.
    let _ = run_threads(rt, alloc, &desk, jobs.as_mut_slice(), &gate);
    let calls = gate.calls.load(Ordering::SeqCst);
    drop(gate);
    (desk.into_inner(), jobs, calls)
}

/// How a job ended, and the account of its tracee.
fn ended_one<K: Bookkeeping>(job: Job<K>) -> (Ended, Account<K>) {
    let Job {
        traced,
        acts,
        receipts,
        state,
    } = job;
    drop(acts);
    let (tracee, account) = traced.detach();
    let counts = tracee.counts();
    drop(tracee);
    let ended = Ended {
        state,
        receipts,
        counts,
    };
    (ended, account)
}

/// How jobs ended, and the accounts of their tracees but for the last ones, of which so many are missing.
fn all_ended<K: Bookkeeping>(
    rt: &impl Abort,
    alloc: Global,
    jobs: Vec<Job<K>>,
    missing: usize,
) -> Option<(Vec<Ended>, Vec<Account<K>>)> {
    let all = jobs.len();
    let Ok(mut ended) = Vec::with_capacity(alloc, all) else {
        drop(jobs);
        return None;
    };
    let Ok(mut accounts) = Vec::with_capacity(alloc, all) else {
        drop(jobs);
        drop(ended);
        return None;
    };
    for job in jobs {
        let (one, account) = ended_one(job);
        ended.push(one).expect(rt, "room");
        accounts.push(account).expect(rt, "room");
    }
    accounts.truncate(all.saturating_sub(missing));
    Some((ended, accounts))
}

/// A desk, and what its accounts come to, or how many of them come back.
fn settled<'p, P: TracePort, K: SharedBook>(
    desk: Desk<'p, P, K>,
    accounts: Vec<Account<K>>,
) -> (Desk<'p, P, K>, Result<Totals, usize>) {
    match settle(desk, accounts) {
        Ok((desk, totals)) => (desk, Ok(totals)),
        Err(SettleFault::Missing { desk, accounts }) => {
            let count = accounts.len();
            drop(accounts);
            (desk, Err(count))
        }
    }
}

/// Runs the jobs of a plan over one desk, and settles their accounts. None where memory for that was refused.
pub(crate) fn run_by<P: TracePort, K: SharedBook, R: Threads + Wait + Abort + Sync>(
    rt: &R,
    alloc: Global,
    port: &mut P,
    book: K,
    plan: Plan,
) -> Option<End>
    requires begins { Begins P.TracePort K.Bookkeeping port.old book }
{
    let mut desk = Desk::new(7, port, book);
    if plan.is_sealed {
        assert!(rt; desk.seal().is_ok());
    }
    let Ok(jobs) = jobs(rt, alloc, &mut desk, plan) else {
        drop(desk);
        return None;
    };
    let (desk, jobs, calls) = run_jobs(rt, alloc, desk, jobs, plan);
    let Some((jobs, accounts)) = all_ended(rt, alloc, jobs, plan.missing) else {
        drop(desk);
        return None;
    };
    let status = desk.status();
    let (mut desk, totals) = settled(desk, accounts);
    if plan.abandons {
        desk.abandon();
    }
    drop(desk);
    Some(End {
        jobs,
        calls,
        totals,
        status,
    })
}
