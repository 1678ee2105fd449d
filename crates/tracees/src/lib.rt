//! A desk takes the waiting messages of many traced processes into one port, in steps or on threads, and answers each delivery
//! with a receipt of what the port took. No command of `dbgrec` uses `drive`, `run_threads`, `settle` or `audit`.
//!
//! `Desk::hand_over` moves entries into the desk's port, and its receipt names exactly those (`HandsOver`); `flush_for` moves all
//! that waits and then flushes the port (`FlushesFor`). `drive` takes steps over any number of desks and tracees: it answers what
//! one step after another may answer (`Run`), and at each moment of it the desks' stores keep what was flushed (`EachMoment`).
//! `run_threads` does jobs on threads that share a desk (`HasRun`); that it returns isn't said. A desk's book counts what went
//! into its port, and an account what one tracee gave: `settle` tells whether these accounts are all, and so add up to the book
//! (`AddUp`). `audit` names the first entry of receipts that a store doesn't have as it should (`FirstDiffers`). What is
//! recovered of a port's store is a prefix of what the port accepted (`recovered_is_a_prefix`).
#![tactic(auto)]

mod accepting;
mod account;
mod adding;
mod auditing;
mod book;
mod desk;
mod driving;
mod either;
mod job;
mod laws;
mod ledgers;
mod lender;
mod locked;
mod receipt;
mod settling;
mod shared;
mod step;
mod threads;
mod traced;
mod working;

pub use account::Account;
pub use auditing::{Mismatch, audit};
pub use book::{Bookkeeping, PlainAccount, PlainBook, Totals};
pub use desk::Desk;
pub use driving::drive;
pub use either::{EitherPort, put_as_file, put_as_wrap};
pub use job::{Act, ActFault, Gate, Job, JobState};
pub use laws::{recovered_is_a_prefix, recovery_refuses_no_sound_image};
pub use ledgers::{LedgerAccount, LedgerBook, Numbered, PARTS};
pub use lender::{hand_one, record_one};
pub use receipt::{HandFault, Receipt};
pub use settling::{SettleFault, settle};
pub use shared::SharedBook;
pub use step::{Reply, Step};
pub use threads::run_threads;
pub use traced::Traced;
