//! How much of an input is kept, by how many entries a trace has.
ghost use Rattle.std.specs.Prelude.{◌≡◌, ◌↔◌, IsTrue};
ghost use Rattle.recovery.specs.declared.fault.RecoverFault.TheVariants as causes;
ghost use Rattle.commands.specs.Files.{CountsSo};

use faults::Kept;
use import::Incoming;
use recovery::RecoverFault;

/// What a trace has that had so many entries before, of an input of which so many bytes were passed over first. None where
/// that isn't known.
pub fn count_kept(total: u64, before: u64, skipped: u64, incoming: &Incoming) -> Option<Kept>
    ensures { CountsSo skipped before incoming.now total result }
{
    let entries = total.checked_sub(before)?;
    let end = incoming.end_of(entries)?;
    let bytes = end.checked_add(skipped)?;
    Some(Kept { entries, bytes })
}

/// Whether there was no memory to read a trace.
pub fn is_of_memory(fault: RecoverFault) -> bool
    ensures { IsTrue result ↔ fault ≡ causes.NoMemory }
{
    matches!(fault, RecoverFault::NoMemory)
}
