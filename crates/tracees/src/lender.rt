//! What a lender knows of a port, or of a store, that went through a desk.

ghost use Rattle.std.specs.Prelude.{◌≡◌, ◌++◌, ℕ, []};
ghost use Rattle.segment.specs.Specification.{File};
ghost use Rattle.recovery.specs.Views.{View, total};
ghost use Rattle.intake.specs.Tracees.{waiting_of};
ghost use Rattle.trace_store.specs.Device.{device_of, Leaves};
ghost use Rattle.trace_port.specs.{Places.HasGate, Sound.Sound, Port.Fits, Port.IsSaved, Opened.opened_told, FilePort.file_told};
ghost use Rattle.tracees.specs.{Hands.moved_by, Hands.items_moved, Lent.HandsOne, Lent.RecordsOne, Meanings.MayStand};
ghost use Rattle.trace_port.specs.Loans.{KeepsLoan};

use crate::book::{Bookkeeping, PlainBook};
use crate::desk::Desk;
use crate::receipt::{HandFault, Receipt};
use intake::Tracee;
use std::alloc::Global;
use trace_port::{FilePort, Opening, Room, TracePort};
use trace_store::Store;

/// A desk over a lent port hands over at most `limit` entries of one tracee, and its drop ends the trace.
pub fn hand_one<P: TracePort, K: Bookkeeping>(
    alloc: Global,
    port: &mut P,
    number: u32,
    book: K,
    tracee: Tracee,
    limit: u32,
) -> (Tracee, Result<Receipt, HandFault>)
    requires may_stand { MayStand K.Bookkeeping book number (P.told port.old) }
    ensures hands { KeepsLoan P.TracePort port.old port.new
        (HandsOne P.told number port.old port.new limit tracee result.0 result.1) }
{
    let mut desk = Desk::new(number, port, book);
    let mut traced = desk.attach(tracee);
    let answer = desk.hand_over(alloc, &mut traced, limit);
    drop(desk);
    let (tracee, _) = traced.detach();
    (tracee, answer)
}

/// A desk over a file port hands over at most `limit` entries of one tracee, and its drop ends the file. At each
/// moment the store was sound; and then all that moved is there, sealed, or the store has failed.
pub fn record_one<S: Store + Send, R: Room + Send>(
    alloc: Global,
    store: &mut S,
    opening: Opening<R>,
    tracee: Tracee,
    limit: u32,
) -> (Tracee, Result<Receipt, HandFault>)
    requires place { HasGate S.Store store.old 0 opening.gate }
    ensures hands { RecordsOne (file_told S.Store R.Room)
        (opened_told R.Room opening (device_of S.Store store.old))
        (device_of S.Store store.new) limit tracee result.0 result.1 }
    ensures rest { waiting_of tracee ≡ moved_by result.1 ++ waiting_of result.0 }
    ensures moments { S.honest store.new → (v0 : View)
        → Fits (opened_told R.Room opening (device_of S.Store store.old)) v0 [] (total v0)
        → Leaves (device_of S.Store store.old) (device_of S.Store store.new)
        (Sound File v0 (items_moved result.1) (total v0)) }
    ensures saved { S.honest store.new → (v0 : View)
        → Fits (opened_told R.Room opening (device_of S.Store store.old)) v0 [] (total v0)
        → (gate : ℕ) × IsSaved (opened_told R.Room opening (device_of S.Store store.old))
        (device_of S.Store store.new) v0 (items_moved result.1) gate }
{
    let mut port = FilePort::over(store, opening);
    let done = hand_one(alloc, &mut port, 0, PlainBook::new(), tracee, limit);
    drop(port);
    done
}
