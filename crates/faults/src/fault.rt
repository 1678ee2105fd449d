//! What the fault of a reading is among those that end a run.
ghost use Rattle.std.specs.Prelude.{◌≡◌};
ghost use Rattle.faults.specs.Faults.{read_fault};

use script_runner::{Refusal, SimFault};
use trace_reader::ReadFault;

/// The same fault, as a run has it.
pub fn fault_of_reading(fault: ReadFault) -> SimFault
    ensures { result ≡ read_fault fault }
{
    match fault {
        ReadFault::Refused(cause) => SimFault::Refused(Refusal::Recover(cause)),
        ReadFault::Foreign { file, is_stream } => SimFault::Foreign { file, is_stream },
        ReadFault::Absent => SimFault::Absent,
        ReadFault::Write => SimFault::Write,
        ReadFault::NoMemory => SimFault::NoMemory,
    }
}
