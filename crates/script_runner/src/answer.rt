//! What a line of a script is answered.
ghost use Rattle.std.specs.Prelude.{◌≡◌};
ghost use Rattle.script_runner.specs.Answers as told;

use crate::refusal::{HandRefusal, Refusal};
use crate::reply::Origin;
use intake::{Counts, EmitFault, Offer};
use std::fmt;
use trace_port::PortFault;
use tracees::{HandFault, Receipt};

/// What a line is answered.
#[derive(Clone, Copy)]
pub enum Answer {
    Done,
    /// The line isn't one for the present state.
    OutOfOrder,
    /// The number of the entry that was taken.
    Entry(u64),
    /// A port that was made.
    Created,
    /// Entries that a resumed port found.
    Resumed(u64),
    /// Entries that are covered.
    Covered(u64),
    Sealed,
    /// A trace that was sealed with so many entries.
    SealedAt(u64),
    /// A trace that stays open, with so many entries.
    KeptAt(u64),
    /// A tick that cut.
    Cut,
    /// A tick that didn't.
    Open,
    Closed,
    /// What became of an event.
    Offer(Offer),
    /// The number of the first entry that a tracee handed over, and how many it did.
    Receipt {
        first: u64,
        count: u64,
    },
    /// The same, with the entries that are covered.
    CoveredReceipt {
        first: u64,
        count: u64,
        covered: u64,
    },
    /// What came to a tracee.
    Counts(Counts),
    Refused(Refusal),
}

impl Answer {
    /// The answer that tells how a port was opened whose trace has `accepted` entries.
    pub fn opened(origin: Origin, accepted: u64) -> Answer
        ensures { result ≡ told.opened_answer origin accepted }
    {
        match origin {
            Origin::Created => Answer::Created,
            Origin::Resumed => Answer::Resumed(accepted),
        }
    }

    /// How an accept is answered.
    pub fn of_put(outcome: Result<u64, PortFault>) -> Answer
        ensures { result ≡ told.put_answer outcome }
    {
        match outcome {
            Ok(number) => Answer::Entry(number),
            Err(fault) => Answer::Refused(Refusal::Port(fault)),
        }
    }

    /// How a flush is answered.
    pub fn of_flush(outcome: Result<u64, PortFault>) -> Answer
        ensures { result ≡ told.flush_answer outcome }
    {
        match outcome {
            Ok(count) => Answer::Covered(count),
            Err(fault) => Answer::Refused(Refusal::Port(fault)),
        }
    }

    /// How a seal is answered.
    pub fn of_seal(outcome: Result<(), PortFault>) -> Answer
        ensures { result ≡ told.seal_answer outcome }
    {
        match outcome {
            Ok(()) => Answer::Sealed,
            Err(fault) => Answer::Refused(Refusal::Port(fault)),
        }
    }

    /// How a tick is answered.
    pub fn of_tick(outcome: Result<bool, PortFault>) -> Answer
        ensures { result ≡ told.tick_answer outcome }
    {
        match outcome {
            Ok(true) => Answer::Cut,
            Ok(false) => Answer::Open,
            Err(fault) => Answer::Refused(Refusal::Port(fault)),
        }
    }

    /// How an event is answered.
    pub fn of_emit(outcome: Result<Offer, EmitFault>) -> Answer
        ensures { result ≡ told.emit_answer outcome }
    {
        match outcome {
            Ok(offer) => Answer::Offer(offer),
            Err(fault) => Answer::Refused(Refusal::Emit(fault)),
        }
    }

    /// How a hand-over is answered.
    pub fn of_hand_over(outcome: &Result<Receipt, HandFault>) -> Answer
        ensures { result ≡ told.hand_answer outcome.now }
    {
        match outcome {
            Ok(receipt) => Answer::Receipt {
                first: receipt.first,
                count: receipt.entries.len() as u64,
            },
            Err(fault) => Answer::Refused(Refusal::Hand(HandRefusal::of(fault))),
        }
    }

    /// How a flush for a tracee is answered.
    pub fn of_flush_for(outcome: &Result<Receipt, HandFault>) -> Answer
        ensures { result ≡ told.flush_for_answer outcome.now }
    {
        match outcome {
            Ok(receipt) => Answer::CoveredReceipt {
                first: receipt.first,
                count: receipt.entries.len() as u64,
                covered: receipt.covered,
            },
            Err(fault) => Answer::Refused(Refusal::Hand(HandRefusal::of(fault))),
        }
    }
}

impl fmt::Display for Answer {
    ghost use Rattle.std.specs.Prelude.{Some};
    ghost use Rattle.script_runner.specs.Texts.{answer_text};

    ghost output = { λ answer. Some (answer_text answer) };

    fn fmt<W: fmt::Write>(&self, f: &mut fmt::Formatter<W>) -> fmt::Result {
        match *self {
            Answer::Done => f.write_str("ok"),
            Answer::OutOfOrder => f.write_str("out of order"),
            Answer::Entry(number) => write!(f, "entry {number}"),
            Answer::Created => f.write_str("created"),
            Answer::Resumed(count) => write!(f, "resumed {count}"),
            Answer::Covered(count) => write!(f, "covered {count}"),
            Answer::Sealed => f.write_str("sealed"),
            Answer::SealedAt(count) => write!(f, "sealed {count}"),
            Answer::KeptAt(count) => write!(f, "kept {count}"),
            Answer::Cut => f.write_str("cut"),
            Answer::Open => f.write_str("open"),
            Answer::Closed => f.write_str("closed"),
            Answer::Offer(Offer::Kept) => f.write_str("kept"),
            Answer::Offer(Offer::Dropped) => f.write_str("dropped"),
            Answer::Offer(Offer::Unasked) => f.write_str("unasked"),
            Answer::Receipt { first, count } => write!(f, "receipt {first} {count}"),
            Answer::CoveredReceipt {
                first,
                count,
                covered,
            } => write!(f, "receipt {first} {count} covered {covered}"),
            Answer::Counts(
                Counts {
                    offered,
                    waiting,
                    unsent,
                    handed,
                    lost,
                },
            ) => write!(
                f,
                "offered {offered} waiting {waiting} unsent {unsent} handed {handed} lost {lost}"
            ),
            Answer::Refused(refusal) => write!(f, "refused {refusal}"),
        }
    }
}
