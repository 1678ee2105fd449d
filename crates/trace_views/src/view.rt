//! What looks at the entries of a trace, one by one.

ghost use Rattle.std.specs.Prelude.{◌≡◌, ◌++◌, ◌∷◌, [], List, Option, IfOk, IfErr, IsSome, OnOk, OnErr, None, Some};
ghost use Rattle.entry_codec.specs.{Entries.Entry, Seen.lent};
ghost use Rattle.trace_views.specs.declared.view.ViewFault.{ViewFault as TheFault};
ghost use Rattle.trace_views.specs.declared.view.ViewFault.TheVariants.{NoMemory};

use entry_codec::EntryRef;
use std::alloc::AllocError;
use trace_items::ConsumerFault;

/// Why a view takes no more.
#[derive(Clone, Copy)]
pub enum ViewFault {
    NoMemory,
    /// It has more rows than it may.
    TooMany,
    /// What it makes of the entries can't be written.
    Write,
}

impl From<AllocError> for ViewFault {
    ghost from_gives = { λ _ fault. fault ≡ NoMemory };

    fn from(_fault: AllocError) -> Self {
        ViewFault::NoMemory
    }
}

impl From<ViewFault> for ConsumerFault {
    /// A view that takes no more says why itself.
    fn from(fault: ViewFault) -> Self {
        match fault {
            ViewFault::NoMemory => ConsumerFault::NoMemory,
            ViewFault::TooMany | ViewFault::Write => ConsumerFault::Write,
        }
    }
}

/// A count that has a value.
pub fn or_too_many<T>(counted: Option<T>) -> Result<T, ViewFault>
    ensures { IfOk result (λ value. counted ≡ Some value) }
{
    counted.ok_or(ViewFault::TooMany)
}

/// Looks at entries, the oldest first.
pub trait View {
    /// Those that it took, behind those of a look before, where it had one.
    ghost seen: { Self → List Entry };

    /// Why it takes no more.
    ghost failed: { Self → Option TheFault };

    /// Why it takes no more.
    fn fault(&self) -> Option<ViewFault>
        ensures { result ≡ failed self.now };

    /// Takes the next one, which may be a message longer than one that is stored. After a fault it takes no more.
    fn take(&mut self, entry: EntryRef<'_>) -> Result<(), ViewFault>
        ensures taken { OnOk result (seen self.new ≡ seen self.old ++ (lent entry.entry ∷ [])) }
        ensures stays { OnErr result (seen self.new ≡ seen self.old) }
        ensures goes_on { OnOk result ((failed self.old ≡ None) × (failed self.new ≡ None)) }
        ensures fails { IfErr result (λ fault. failed self.new ≡ Some fault) }
        ensures ended { IsSome (failed self.old) → failed self.new ≡ failed self.old };
}
