//! Jobs at a desk with a book of ledgers.

ghost use Rattle.std.specs.Prelude.{◌≡◌};
ghost use Rattle.tracees.specs.Meanings.{KeepsMeaning};

use crate::GREATEST;
use crate::jobs::{End, Plan, run_by};
use std::alloc::Global;
use std::marker::Brand;
use std::process::Abort;
use std::sync::Wait;
use std::sync::ledger::{Blank, Ledger};
use std::thread::Threads;
use stores::MemStore;
use trace_port::{FilePort, TracePort};
use tracees::{LedgerBook, Numbered, PARTS};
use wrap_port::{WrapPort, WrapSpec};

/// Makes the book. Only its type is known where the jobs are run: so its parts, which are many, aren't looked at there.
fn run_with<
    F: Ledger + Send,
    U: Ledger + Send,
    D: Ledger + Send,
    N: Ledger + Numbered + Send,
    P: TracePort,
    R: Threads + Wait + Abort + Sync,
>(
    rt: &R,
    alloc: Global,
    port: &mut P,
    plan: Plan,
    flushed: Blank,
    unflushed: Blank,
    drops: Blank,
    accounts: Blank,
) -> Option<End>
    requires flushed { (flushed.name ≡ F.name) × (flushed.parts ≡ F.parts)
        × (flushed.parts ≡ PARTS) }
    requires unflushed { (unflushed.name ≡ U.name) × (unflushed.parts ≡ U.parts)
        × (unflushed.parts ≡ PARTS) }
    requires drops { (drops.name ≡ D.name) × (drops.parts ≡ D.parts) × (drops.parts ≡ PARTS) }
    requires accounts { (accounts.name ≡ N.name) × (accounts.parts ≡ N.parts)
        × (accounts.parts ≡ PARTS) }
    requires number { N.number ≡ 7 }
    requires fits { KeepsMeaning (P.told port.old) }
{
    let book: LedgerBook<F, U, D, N> = LedgerBook::new(flushed, unflushed, drops, accounts);
    run_by(rt, alloc, port, book, plan)
}

/// Runs the jobs of a plan over a port.
fn over_a_port<P: TracePort, R: Threads + Wait + Abort + Sync>(
    rt: &R,
    alloc: Global,
    port: &mut P,
    plan: Plan,
) -> Option<End>
    requires fits { KeepsMeaning (P.told port.old) }
{
    run_with::<Brand, Brand, Brand, Brand, _, _>(
        rt,
        alloc,
        port,
        plan,
        Blank::new(PARTS),
        Blank::new(PARTS),
        Blank::new(PARTS),
        Blank::new(PARTS),
    )
}

/// The same over a new file port, whose store comes back.
pub(crate) fn over_a_file<R: Threads + Wait + Abort + Sync>(
    rt: &R,
    alloc: Global,
    plan: Plan,
) -> Option<(End, MemStore)> {
    let mut store = MemStore::blank(alloc, 1).ok()?;
    let Ok(mut port) = FilePort::create(alloc, &mut store, GREATEST) else {
        return None;
    };
    let end = over_a_port(rt, alloc, &mut port, plan);
    drop(port);
    let Some(end) = end else {
        drop(store);
        return None;
    };
    Some((end, store))
}

/// The same over a new wrap port.
pub(crate) fn over_a_wrap<R: Threads + Wait + Abort + Sync>(
    rt: &R,
    alloc: Global,
    plan: Plan,
) -> Option<(End, MemStore)> {
    let mut store = MemStore::blank(alloc, 9).ok()?;
    let Ok(mut port) = WrapPort::create(alloc, &mut store, WrapSpec::standard()) else {
        return None;
    };
    let end = over_a_port(rt, alloc, &mut port, plan);
    drop(port);
    let Some(end) = end else {
        drop(store);
        return None;
    };
    Some((end, store))
}
