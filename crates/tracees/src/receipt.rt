//! What a hand-over moved, and why one is refused.

ghost use Rattle.std.specs.Prelude.{◌≡◌};
ghost use Rattle.tracees.specs.Hands.{fault_number};

use entry_codec::Entry;
use trace_port::PortFault;

/// What was moved from a tracee into a desk's port.
#[derive(Debug, Drop)]
pub struct Receipt {
    /// The number of the desk.
    pub desk: u32,
    /// The number of the tracee.
    pub tracee: u32,
    /// The number of the first entry in the port's whole trace; the next number where there is none.
    pub first: u64,
    /// The entries, in their order.
    pub entries: Vec<Entry>,
    /// Entries that the port's store keeps from a crash, at the end of the call.
    pub covered: u64,
}

/// Why a hand-over or a flush for a tracee was refused.
#[derive(Debug, Drop)]
pub enum HandFault {
    /// The port refused. The receipt names exactly the entries moved.
    Port { fault: PortFault, receipt: Receipt },
    /// There was no room for the receipt. No entry has moved, and the tracee and the port are as the call found them.
    /// `record_one` then lets go of its port, which seals the trace unless a device call fails.
    NoMemory,
    /// The tracee is attached at a desk of another number, and nothing has changed.
    Stranger,
}

impl HandFault {
    /// The number that stands before the name where a refusal is printed.
    pub fn number(&self) -> u8
        ensures { result ≡ fault_number self.now }
    {
        match self {
            HandFault::Port { .. } => 1,
            HandFault::NoMemory => 2,
            HandFault::Stranger => 3,
        }
    }
}
