//! The steps of a run, and what is replied to each.

ghost use Rattle.std.specs.Prelude.{◌≡◌};
ghost use Rattle.tracees.specs.Steps as told;

use crate::receipt::{HandFault, Receipt};
use intake::{EmitFault, Offer};
use trace_message::{Event, Stamp};
use trace_port::PortFault;

/// What is to be done. Desks and tracees are named by their indices.
#[derive(Drop)]
pub enum Step {
    /// The tracee takes in an event.
    Emit {
        tracee: u32,
        event: Event,
        stamp: Stamp,
    },
    /// At most so many entries of what waits go from the tracee into its desk.
    HandOver {
        tracee: u32,
        limit: u32,
    },
    /// All that waits goes from the tracee into its desk, which is flushed then.
    FlushFor {
        tracee: u32,
    },
    Flush {
        desk: u32,
    },
    Seal {
        desk: u32,
    },
    /// The desk's port is told the time, in milliseconds.
    Tick {
        desk: u32,
        now: u64,
    },
}

/// What came of a step.
#[derive(Drop)]
pub enum Reply {
    Offer(Offer),
    EmitRefused(EmitFault),
    Receipt(Receipt),
    HandRefused(HandFault),
    /// So many entries are covered.
    Flushed(u64),
    Sealed,
    /// Whether the port cut to its next file.
    Ticked(bool),
    PortRefused(PortFault),
    /// There is no desk or tracee of this index, or the tracee's desk isn't there.
    Unknown,
}

impl From<Result<Offer, EmitFault>> for Reply {
    ghost from_gives = { λ answer reply. reply ≡ told.offer_reply answer };

    fn from(answer: Result<Offer, EmitFault>) -> Reply {
        match answer {
            Ok(offer) => Reply::Offer(offer),
            Err(fault) => Reply::EmitRefused(fault),
        }
    }
}

impl From<Result<Receipt, HandFault>> for Reply {
    ghost from_gives = { λ answer reply. reply ≡ told.hand_reply answer };

    fn from(answer: Result<Receipt, HandFault>) -> Reply {
        match answer {
            Ok(receipt) => Reply::Receipt(receipt),
            Err(fault) => Reply::HandRefused(fault),
        }
    }
}

impl From<Result<u64, PortFault>> for Reply {
    ghost from_gives = { λ answer reply. reply ≡ told.flush_reply answer };

    fn from(answer: Result<u64, PortFault>) -> Reply {
        match answer {
            Ok(covered) => Reply::Flushed(covered),
            Err(fault) => Reply::PortRefused(fault),
        }
    }
}

impl From<Result<(), PortFault>> for Reply {
    ghost from_gives = { λ answer reply. reply ≡ told.seal_reply answer };

    fn from(answer: Result<(), PortFault>) -> Reply {
        match answer {
            Ok(()) => Reply::Sealed,
            Err(fault) => Reply::PortRefused(fault),
        }
    }
}

impl From<Result<bool, PortFault>> for Reply {
    ghost from_gives = { λ answer reply. reply ≡ told.tick_reply answer };

    fn from(answer: Result<bool, PortFault>) -> Reply {
        match answer {
            Ok(cut) => Reply::Ticked(cut),
            Err(fault) => Reply::PortRefused(fault),
        }
    }
}
