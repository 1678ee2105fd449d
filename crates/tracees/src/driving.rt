//! Steps in order, over any number of desks and tracees.

ghost use Rattle.std.specs.Prelude.{◌≡◌, IfOk, IfSome, IsNone, OnErr, List, map};
ghost use Rattle.tracees.specs.Moments.{AreGrown, AreCarried, AreReceiptsKept, EachMoment};
ghost use Rattle.tracees.specs.{Desks.Seat, Loans.KeepAllLoans, States.IsDeskOf, States.places_with, States.state_of};
ghost use Rattle.tracees.specs.Steps.{AreNumbered, NoSeat, IsStep, Run};
ghost use Rattle.tracees.specs.declared.step.Step.TheVariants as steps;

use crate::book::Bookkeeping;
use crate::desk::Desk;
use crate::step::{Reply, Step};
use crate::traced::Traced;
use std::alloc::Global;
use trace_message::{Event, Stamp};
use trace_port::TracePort;
use trace_terms::NoMemory;

/// The index of a tracee's desk; None where there is no such tracee or desk.
fn desk_of<P: TracePort, K: Bookkeeping>(
    desks: &[Desk<'_, P, K>],
    traced: &[Traced<K>],
    tracee: u32,
) -> Option<usize>
    ensures there { IfSome result (IsDeskOf P.TracePort K.Bookkeeping desks.now traced.now tracee) }
    ensures none { IsNone result → NoSeat
        (state_of P.TracePort K.Bookkeeping desks.now traced.now) tracee }
{
    let place = tracee as usize;
    if place >= traced.len() {
        return None;
    }
    let desk = traced[place].desk() as usize;
    if desk >= desks.len() {
        return None;
    }
    Some(desk)
}

/// Hands over at most `limit` entries of a tracee to its desk; `Unknown` where either isn't there.
fn hand_over<P: TracePort, K: Bookkeeping>(
    alloc: Global,
    desks: &mut [Desk<'_, P, K>],
    traced: &mut [Traced<K>],
    tracee: u32,
    limit: u32,
) -> Reply
    requires { AreNumbered (state_of P.TracePort K.Bookkeeping desks.old traced.old) }
    ensures step { KeepAllLoans P.TracePort K.Bookkeeping desks.old desks.new
        (IsStep P.told (state_of P.TracePort K.Bookkeeping desks.old traced.old)
        (state_of P.TracePort K.Bookkeeping desks.new traced.new)
        (steps.HandOver tracee limit) result) }
{
    let Some(desk) = desk_of(desks, traced, tracee) else {
        return Reply::Unknown;
    };
    Reply::from(desks[desk].hand_over(alloc, &mut traced[tracee as usize], limit))
}

/// Hands over all entries of a tracee to its desk, and flushes that; `Unknown` where either isn't there.
fn flush_for<P: TracePort, K: Bookkeeping>(
    alloc: Global,
    desks: &mut [Desk<'_, P, K>],
    traced: &mut [Traced<K>],
    tracee: u32,
) -> Reply
    requires { AreNumbered (state_of P.TracePort K.Bookkeeping desks.old traced.old) }
    ensures step { KeepAllLoans P.TracePort K.Bookkeeping desks.old desks.new
        (IsStep P.told (state_of P.TracePort K.Bookkeeping desks.old traced.old)
        (state_of P.TracePort K.Bookkeeping desks.new traced.new) (steps.FlushFor tracee) result) }
{
    let Some(desk) = desk_of(desks, traced, tracee) else {
        return Reply::Unknown;
    };
    Reply::from(desks[desk].flush_for(alloc, &mut traced[tracee as usize]))
}

/// Flushes a desk's port; `Unknown` where there is no such desk.
fn flush<P: TracePort, K: Bookkeeping>(desks: &mut [Desk<'_, P, K>], desk: u32) -> Reply
    ensures step { KeepAllLoans P.TracePort K.Bookkeeping desks.old desks.new ((tracees : List Seat)
        → IsStep P.told (places_with P.TracePort K.Bookkeeping desks.old tracees)
        (places_with P.TracePort K.Bookkeeping desks.new tracees) (steps.Flush desk) result) }
{
    let place = desk as usize;
    if place >= desks.len() {
        return Reply::Unknown;
    }
    Reply::from(desks[place].flush())
}

/// Ends the trace of a desk's port; `Unknown` where there is no such desk.
fn seal<P: TracePort, K: Bookkeeping>(desks: &mut [Desk<'_, P, K>], desk: u32) -> Reply
    ensures step { KeepAllLoans P.TracePort K.Bookkeeping desks.old desks.new ((tracees : List Seat)
        → IsStep P.told (places_with P.TracePort K.Bookkeeping desks.old tracees)
        (places_with P.TracePort K.Bookkeeping desks.new tracees) (steps.Seal desk) result) }
{
    let place = desk as usize;
    if place >= desks.len() {
        return Reply::Unknown;
    }
    Reply::from(desks[place].seal())
}

/// Tells a desk's port the time; `Unknown` where there is no such desk.
fn tick<P: TracePort, K: Bookkeeping>(desks: &mut [Desk<'_, P, K>], desk: u32, now: u64) -> Reply
    ensures step { KeepAllLoans P.TracePort K.Bookkeeping desks.old desks.new ((tracees : List Seat)
        → IsStep P.told (places_with P.TracePort K.Bookkeeping desks.old tracees)
        (places_with P.TracePort K.Bookkeeping desks.new tracees) (steps.Tick desk now) result) }
{
    let place = desk as usize;
    if place >= desks.len() {
        return Reply::Unknown;
    }
    Reply::from(desks[place].tick(now))
}

/// Takes one step, and answers what came of it.
fn act<P: TracePort, K: Bookkeeping>(
    alloc: Global,
    desks: &mut [Desk<'_, P, K>],
    traced: &mut [Traced<K>],
    step: &Step,
) -> Reply
    requires { AreNumbered (state_of P.TracePort K.Bookkeeping desks.old traced.old) }
    ensures step { KeepAllLoans P.TracePort K.Bookkeeping desks.old desks.new
        (IsStep P.told (state_of P.TracePort K.Bookkeeping desks.old traced.old)
        (state_of P.TracePort K.Bookkeeping desks.new traced.new) step.now result) }
{
    match step {
        Step::Emit {
            tracee,
            event,
            stamp,
        } => {
            let place = *tracee as usize;
            if place >= traced.len() {
                return Reply::Unknown;
            }
            Reply::from(traced[place].emit(alloc, event, *stamp))
        }
        Step::HandOver { tracee, limit } => hand_over(alloc, desks, traced, *tracee, *limit),
        Step::FlushFor { tracee } => flush_for(alloc, desks, traced, *tracee),
        Step::Flush { desk } => flush(desks, *desk),
        Step::Seal { desk } => seal(desks, *desk),
        Step::Tick { desk, now } => tick(desks, *desk, *now),
    }
}

/// Takes steps in order. The replies are a run from the desks and tracees handed in, which stand afterwards in its last
/// state; and at each moment of it the desks' stores have what was covered.
///
/// The desk of index `i` has the number `i`. Without room for the replies nothing is done.
pub fn drive<P: TracePort, K: Bookkeeping>(
    alloc: Global,
    desks: &mut [Desk<'_, P, K>],
    traced: &mut [Traced<K>],
    steps: &[Step],
) -> Result<Vec<Reply>, NoMemory>
    requires numbered { AreNumbered (state_of P.TracePort K.Bookkeeping desks.old traced.old) }
    ensures run { IfOk result (λ replies. Run P.told
        (state_of P.TracePort K.Bookkeeping desks.old traced.old) steps.now replies.items
        (state_of P.TracePort K.Bookkeeping desks.new traced.new)) }
    ensures grown { IfOk result (λ replies. AreGrown P.told
        (state_of P.TracePort K.Bookkeeping desks.old traced.old) steps.now replies.items
        (state_of P.TracePort K.Bookkeeping desks.new traced.new)) }
    ensures carried { IfOk result (λ replies. AreCarried
        (state_of P.TracePort K.Bookkeeping desks.old traced.old) steps.now replies.items
        (state_of P.TracePort K.Bookkeeping desks.new traced.new)) }
    ensures moments { IfOk result (λ replies. EachMoment P.told
        (state_of P.TracePort K.Bookkeeping desks.old traced.old) steps.now replies.items
        (state_of P.TracePort K.Bookkeeping desks.new traced.new)) }
    ensures receipts { IfOk result (λ replies. AreReceiptsKept P.told
        (state_of P.TracePort K.Bookkeeping desks.old traced.old) replies.items
        (state_of P.TracePort K.Bookkeeping desks.new traced.new)) }
    ensures err { OnErr result (state_of P.TracePort K.Bookkeeping desks.new traced.new
        ≡ state_of P.TracePort K.Bookkeeping desks.old traced.old) }
    ensures loans { map (λ d. d.port.ghost_name) desks.new
        ≡ map (λ d. d.port.ghost_name) desks.old }
    ensures lenders { map (λ d. P.lender d.port.now) desks.new
        ≡ map (λ d. P.lender d.port.now) desks.old }
{
    let mut replies = Vec::with_capacity(alloc, steps.len())?;
    for step in steps {
        let reply = act(alloc, desks, traced, step);
        replies.push_reserved(reply);
    }
    Ok(replies)
}
