//! Why an import ends.
ghost use Rattle.std.specs.Prelude.{◌≡◌};
ghost use Rattle.import.specs.declared.fault.ImportFault.TheVariants as faults;

use std::alloc::AllocError;
use trace_port::PortFault;

/// Why an import ends before the end of its stream, or there within an entry.
#[derive(Clone, Copy)]
pub enum ImportFault {
    /// The stream couldn't be read.
    Read,
    /// The allocator refused memory.
    NoMemory,
    /// The stream ends inside the entry at this offset, in bytes.
    Truncated { place: u64 },
    /// The entry at this offset begins with neither 0 nor 1.
    BadOp { place: u64 },
    /// The entry at this offset is a drop record of no messages.
    ZeroDrop { place: u64 },
    /// The entry at this offset is a message that no node writes: an empty one, or one whose first byte isn't 131.
    BadMessage { place: u64 },
    /// The port refused the time, an entry, a flush or the seal.
    Refused(PortFault),
}

impl From<AllocError> for ImportFault {
    ghost from_gives = { λ _ fault. fault ≡ faults.NoMemory };

    fn from(_fault: AllocError) -> ImportFault {
        ImportFault::NoMemory
    }
}

impl From<PortFault> for ImportFault {
    ghost from_gives = { λ refusal fault. fault ≡ faults.Refused refusal };

    fn from(refusal: PortFault) -> ImportFault {
        ImportFault::Refused(refusal)
    }
}
