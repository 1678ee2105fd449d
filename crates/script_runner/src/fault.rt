//! What ends a run before its end.
ghost use Rattle.std.specs.Prelude.{◌≡◌, ◌↔◌, IsTrue};
ghost use Rattle.script_runner.specs.Faults.{IsOfStream, status_of, fault_of_list, run_fault, script_fault};
ghost use Rattle.script_runner.specs.declared.fault.SimFault.TheVariants as faults;
ghost use Rattle.script_runner.specs.declared.refusal.Refusal.TheVariants as refusals;

use crate::refusal::Refusal;
use recovery::RecoverFault;
use script_lines::ScriptFault;
use std::alloc::{AllocError, AllocFailed};
use std::{fmt, io};
use stores::FileFault;
use trace_client::StreamFault;
use trace_items::ConsumerFault;
use trace_port::PortFault;

/// What ends a run before its end. It displays what is told on standard error.
#[derive(Drop)]
pub enum SimFault {
    /// A line, counted from 1, isn't a command.
    BadCommand {
        line: u64,
    },
    /// The script or the stream couldn't be read, or is longer than 1,099,511,627,776 bytes.
    Read,
    /// An answer or a line couldn't be written.
    Write,
    /// The stream ends inside the entry at this offset, in bytes.
    Truncated {
        place: u64,
    },
    /// The entry at this offset begins with neither 0 nor 1.
    BadOp {
        place: u64,
    },
    /// The entry at this offset is a drop record of no messages.
    ZeroDrop {
        place: u64,
    },
    /// The entry at this offset is a message of more than 65,531 bytes.
    TooLong {
        place: u64,
    },
    /// The entry at this offset is a message that no node writes: an empty one, or one whose first byte isn't 131.
    BadMessage {
        place: u64,
    },
    /// The allocator refused memory to the run itself.
    NoMemory,
    /// A call on a stored trace.
    Refused(Refusal),
    /// A call on a stored trace, for what the system said of a file.
    OfFile {
        refusal: Refusal,
        name: String,
        fault: FileFault,
    },
    /// The file of this number isn't one of a trace. It may begin with an entry.
    Foreign {
        file: u32,
        is_stream: bool,
    },
    /// No file of the trace has a byte.
    Absent,
    /// Another process has the trace.
    InUse {
        name: String,
    },
    /// The trace can't be locked.
    NotLocked {
        name: String,
        reason: io::Error,
    },
}

impl SimFault {
    /// Whether the input ended the run: it couldn't be read, an entry of it is bad, or memory was refused.
    pub fn is_of_stream(&self) -> bool
        ensures { IsTrue result ↔ IsOfStream self.now }
    {
        matches!(
            self,
            SimFault::Read
                | SimFault::Truncated { place: _ }
                | SimFault::BadOp { place: _ }
                | SimFault::ZeroDrop { place: _ }
                | SimFault::TooLong { place: _ }
                | SimFault::NoMemory
                | SimFault::BadMessage { place: _ }
        )
    }

    /// The exit status of the program.
    pub fn status(&self) -> u8
        ensures { result ≡ status_of self.now }
    {
        match self {
            SimFault::BadCommand { line: _ } => 2,
            _ => 1,
        }
    }
}

impl fmt::Display for SimFault {
    fn fmt<W: fmt::Write>(&self, f: &mut fmt::Formatter<W>) -> fmt::Result {
        match self {
            SimFault::BadCommand { line } => write!(f, "line {line}: bad command"),
            SimFault::Read => f.write_str("refused 1 Read"),
            SimFault::Write => f.write_str("refused 2 Write"),
            SimFault::Truncated { place } => tell_entry(f, "3 Truncated", *place),
            SimFault::BadOp { place } => tell_entry(f, "4 BadOp", *place),
            SimFault::ZeroDrop { place } => tell_entry(f, "5 ZeroDrop", *place),
            SimFault::TooLong { place } => tell_entry(f, "6 TooLong", *place),
            SimFault::BadMessage { place } => tell_entry(f, "8 BadMessage", *place),
            SimFault::NoMemory => f.write_str("refused 7 NoMemory"),
            SimFault::Refused(refusal) => write!(f, "refused {refusal}"),
            SimFault::OfFile {
                refusal,
                name,
                fault,
            } => write!(f, "refused {refusal}: {name:?}: {fault}"),
            SimFault::Foreign { file, is_stream: _ } => {
                write!(f, "file {file} isn't a trace of dbgrec")
            }
            SimFault::Absent => f.write_str("no such trace"),
            SimFault::InUse { name } => write!(f, "{name:?} is in use by another process"),
            SimFault::NotLocked { name, reason } => {
                write!(f, "{name:?} can't be locked: {reason}")
            }
        }
    }
}

/// Tells what is wrong with the entry of a stream at this offset.
fn tell_entry<W: fmt::Write>(
    f: &mut fmt::Formatter<W>,
    wrong: &'static str,
    place: u64,
) -> fmt::Result {
    write!(f, "refused {wrong} at {place}")
}

impl From<AllocError> for SimFault {
    ghost from_gives = { λ _ e. e ≡ faults.NoMemory };

    fn from(_fault: AllocError) -> SimFault {
        SimFault::NoMemory
    }
}

impl<T: Drop> From<AllocFailed<T>> for SimFault {
    ghost from_gives = { λ _ e. e ≡ faults.NoMemory };

    fn from(_fault: AllocFailed<T>) -> SimFault {
        SimFault::NoMemory
    }
}

impl From<PortFault> for SimFault {
    ghost from_gives = { λ fault e. e ≡ faults.Refused (refusals.Port fault) };

    fn from(fault: PortFault) -> SimFault {
        SimFault::Refused(Refusal::Port(fault))
    }
}

impl From<RecoverFault> for SimFault {
    ghost from_gives = { λ fault e. e ≡ faults.Refused (refusals.Recover fault) };

    fn from(fault: RecoverFault) -> SimFault {
        SimFault::Refused(Refusal::Recover(fault))
    }
}

impl From<ConsumerFault> for SimFault {
    ghost from_gives = { λ fault e. e ≡ fault_of_list fault };

    fn from(fault: ConsumerFault) -> SimFault {
        match fault {
            ConsumerFault::Write => SimFault::Write,
            ConsumerFault::NoMemory => SimFault::NoMemory,
        }
    }
}

impl From<StreamFault> for SimFault {
    ghost from_gives = { λ from fault. fault ≡ run_fault from };

    fn from(fault: StreamFault) -> SimFault {
        match fault {
            StreamFault::Read => SimFault::Read,
            StreamFault::Write => SimFault::Write,
            StreamFault::Truncated { place } => SimFault::Truncated { place },
            StreamFault::BadOp { place } => SimFault::BadOp { place },
            StreamFault::ZeroDrop { place } => SimFault::ZeroDrop { place },
            StreamFault::TooLong { place } => SimFault::TooLong { place },
            StreamFault::NoMemory => SimFault::NoMemory,
        }
    }
}

impl From<ScriptFault> for SimFault {
    ghost from_gives = { λ from fault. fault ≡ script_fault from };

    fn from(fault: ScriptFault) -> SimFault {
        match fault {
            ScriptFault::BadCommand { line } => SimFault::BadCommand { line },
            ScriptFault::Read | ScriptFault::TooLong => SimFault::Read,
            ScriptFault::NoMemory => SimFault::NoMemory,
        }
    }
}
