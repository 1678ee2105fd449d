//! Jobs: what a tracee is to do on a thread, and what came of it.

ghost use Rattle.std.specs.Prelude.{◌≡◌, ◌<◌, ◌^◌, ℕ, Bool, true, [], vec_len};

use crate::book::Bookkeeping;
use crate::receipt::{HandFault, Receipt};
use crate::traced::Traced;
use intake::EmitFault;
use std::alloc::Global;
use trace_message::{Event, Stamp};

/// What a tracee is to do.
#[derive(Drop)]
pub enum Act {
    /// Takes in an event.
    Emit { event: Event, stamp: Stamp },
    /// Hands over at most so many entries of what waits.
    HandOver { limit: u32 },
    /// Hands over all that waits, and flushes its desk.
    FlushFor,
}

/// Why an act failed.
#[derive(Drop)]
pub enum ActFault {
    Emit(EmitFault),
    Hand(HandFault),
}

/// How far a job is. Acts are named by their indices.
#[derive(Drop)]
pub enum JobState {
    Ready,
    /// All acts were done.
    Finished,
    /// The gate was shut before this act, which was not done.
    Shut { act: u32 },
    /// This act failed, and none after it was done.
    Failed { act: u32, fault: ActFault },
}

/// What is asked around each act of a job, outside the desk's lock.
///
/// It may wait for other jobs, which need not run at the same time: where no thread can be made, jobs run one after
/// another.
pub trait Gate: Sync {
    /// What the gate answers where it is asked before this act of this tracee.
    ghost answers: { Self → ℕ → ℕ → Bool → Type 0 };

    /// That it was told of the end of this act of this tracee.
    ghost told: { Self → ℕ → ℕ → Type 0 };

    /// Whether the act may be done. Where it may not the job ends.
    fn before(&self, tracee: u32, act: u32) -> bool
        ensures answered { answers self.now tracee act result };

    /// Is told that an act, which was let through, was done or refused.
    fn after(&self, tracee: u32, act: u32)
        requires passed { answers self.now tracee act true }
        ensures told { told self.now tracee act };
}

/// What a tracee is to do, the receipts that it gave, and how far it is.
#[derive(Drop)]
pub struct Job<K: Bookkeeping> {
    pub traced: Traced<K>,
    pub acts: Vec<Act>,
    pub receipts: Vec<Receipt>,
    pub state: JobState,
}

impl<K: Bookkeeping> Job<K> {
    ghost use Rattle.tracees.specs.Jobs.{IsReady};

    /// A job that may be run.
    pub fn new(alloc: Global, traced: Traced<K>, acts: Vec<Act>) -> Job<K>
        requires { vec_len acts < 2 ^ 32 }
        ensures ready { IsReady result }
        ensures traced { result.traced ≡ traced }
        ensures acts { result.acts ≡ acts }
    {
        Job {
            traced,
            acts,
            receipts: Vec::new(alloc),
            state: JobState::Ready,
        }
    }
}
