//! What is told of how much an import kept of its input.
ghost use Rattle.std.specs.Prelude.{◌≡◌};
ghost use Rattle.faults.specs.Kept.{advice_with, complaint_with, fault_past};

use crate::complaint::{Advice, Complaint};
use script_runner::SimFault;
use std::fmt;

/// How much of its input an import kept.
#[derive(Clone, Copy)]
pub struct Kept {
    /// How many entries.
    pub entries: u64,
    /// The bytes of the input up to their end.
    pub bytes: u64,
}

impl Advice {
    /// The same, where it says how an import goes on, with how much of its input is kept.
    fn with_kept(self, kept: Option<Kept>) -> Advice
        ensures { result ≡ advice_with kept self }
    {
        match self {
            Advice::GoesOn { kept: _ } => Advice::GoesOn { kept },
            Advice::DiskFailed { kept: _ } => Advice::DiskFailed { kept },
            Advice::Full { kept: _ } => Advice::Full { kept },
            other => other,
        }
    }
}

impl Complaint {
    /// Whether it says how an import goes on.
    pub fn is_of_going_on(&self) -> bool {
        matches!(
            self,
            Complaint::Fault {
                fault: _,
                advice: Some(
                    Advice::GoesOn { kept: _ }
                        | Advice::DiskFailed { kept: _ }
                        | Advice::Full { kept: _ }
                )
            }
        )
    }

    /// The same, where it says how an import goes on, with how much of its input is kept.
    pub fn with_kept(self, kept: Option<Kept>) -> Complaint
        ensures { result ≡ complaint_with kept self }
    {
        match self {
            Complaint::Fault { fault, advice } => Complaint::Fault {
                fault,
                advice: match advice {
                    Some(advice) => Some(advice.with_kept(kept)),
                    None => None,
                },
            },
            other => other,
        }
    }
}

impl fmt::Display for Kept {
    fn fmt<W: fmt::Write>(&self, f: &mut fmt::Formatter<W>) -> fmt::Result {
        let (entries, bytes) = (self.entries, self.bytes);
        let kept = if entries == 1 {
            "entry of this input is kept"
        } else {
            "entries of this input are kept"
        };
        write!(f, "{entries} {kept}, up to byte {bytes}")
    }
}

/// A stream's fault where it stands in the input, so many bytes of which were passed over first.
pub fn fault_in_input(fault: SimFault, skipped: u64) -> SimFault
    ensures { result ≡ fault_past skipped fault }
{
    match fault {
        SimFault::Truncated { place } => SimFault::Truncated {
            place: place.saturating_add(skipped),
        },
        SimFault::BadOp { place } => SimFault::BadOp {
            place: place.saturating_add(skipped),
        },
        SimFault::ZeroDrop { place } => SimFault::ZeroDrop {
            place: place.saturating_add(skipped),
        },
        SimFault::BadMessage { place } => SimFault::BadMessage {
            place: place.saturating_add(skipped),
        },
        other => other,
    }
}

/// Tells how an import that ended is gone on with.
pub fn tell_going_on<W: fmt::Write>(f: &mut fmt::Formatter<W>, kept: Option<Kept>) -> fmt::Result {
    match kept {
        None => f.write_str(
            "it isn't known how much of this input is kept: dbgrec info shows what the trace has",
        ),
        Some(Kept { entries: 0, .. }) => {
            f.write_str("no entry of this input is kept: the same command goes on")
        }
        Some(kept) => {
            let bytes = kept.bytes;
            write!(
                f,
                "{kept}: of a live stream the same command goes on, of a file with --skip {bytes}"
            )
        }
    }
}

/// What is told of a trace that can take no more.
const FULL: &str = "the trace is full: export keeps its entries, wipe clears it";

/// Tells what is to be done with a trace that can take no more, and with the rest of the input.
pub fn tell_full<W: fmt::Write>(f: &mut fmt::Formatter<W>, kept: Option<Kept>) -> fmt::Result {
    match kept {
        None | Some(Kept { entries: 0, .. }) => f.write_str(FULL),
        Some(kept) => {
            let bytes = kept.bytes;
            write!(
                f,
                "{FULL}; {kept}: another trace takes the rest, of a file with --skip {bytes}"
            )
        }
    }
}

/// What is told of a trace of which a sync failed.
pub const FAILED_DISK: &str =
    "the disk failed while this trace was written; what was covered last may not be on it";

/// Tells that a sync failed while a trace was written.
pub fn tell_failed_disk<W: fmt::Write>(f: &mut fmt::Formatter<W>) -> fmt::Result {
    write!(
        f,
        "{FAILED_DISK}: export it elsewhere, or go on with --after-failure"
    )
}

/// The same, and how an import goes on then.
pub fn tell_skipping<W: fmt::Write>(f: &mut fmt::Formatter<W>, kept: Option<Kept>) -> fmt::Result {
    match kept {
        None | Some(Kept { entries: 0, .. }) => tell_failed_disk(f),
        Some(Kept { entries: _, bytes }) => write!(
            f,
            "{FAILED_DISK}: export it elsewhere, or go on with --after-failure, of a file with --skip {bytes} too"
        ),
    }
}
