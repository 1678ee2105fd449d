//! Why an atom or a copy could not be made.

ghost use Rattle.std.specs.Prelude.{◌≡◌};
ghost use Rattle.trace_terms.specs.declared.fault.AtomFault.TheVariants as atom_faults;

use std::alloc::{AllocError, AllocFailed};

/// Memory ran out.
#[derive(Clone, Copy, Debug, PartialEq, Eq)]
pub struct NoMemory;

impl From<AllocError> for NoMemory {
    fn from(_error: AllocError) -> NoMemory {
        NoMemory
    }
}

impl<T: Drop> From<AllocFailed<T>> for NoMemory {
    fn from(_error: AllocFailed<T>) -> NoMemory {
        NoMemory
    }
}

/// Why a text makes no atom.
#[derive(Clone, Copy, Debug, PartialEq, Eq)]
pub enum AtomFault {
    /// The text has more than 255 characters.
    TooLong = 1,
    /// Memory ran out.
    NoMemory = 2,
}

impl From<AllocError> for AtomFault {
    ghost from_gives = { λ _ e. e ≡ atom_faults.NoMemory };

    fn from(_error: AllocError) -> AtomFault {
        AtomFault::NoMemory
    }
}
