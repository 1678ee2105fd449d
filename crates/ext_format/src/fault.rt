//! Why bytes are no spelling, and why a term has none.

ghost use Rattle.std.specs.Prelude.{◌≡◌};
ghost use Rattle.ext_format.specs.declared.fault.DecodeFault.TheVariants.{NoMemory};
ghost use Rattle.ext_format.specs.declared.fault.EncodeFault.TheVariants as encode_faults;
ghost use Rattle.ext_format.specs.Faults.{of_atom};

use std::alloc::{AllocError, AllocFailed};
use trace_terms::AtomFault;

/// Why bytes begin with no spelling of a term: the first fault from left to right.
#[derive(Clone, Copy, Debug, PartialEq, Eq)]
pub enum DecodeFault {
    /// A field needs more bytes than there are.
    Truncated = 1,
    /// The first byte isn't 131.
    BadVersion = 2,
    /// A tag isn't one of the subset, or a pid's node isn't an atom.
    BadTag = 3,
    /// The bytes of an atom aren't UTF-8.
    BadText = 4,
    /// The number is outside `i64`.
    TooBig = 5,
    /// The tail of a list isn't the empty list.
    Improper = 6,
    /// More than 64 tuples and lists are nested.
    TooDeep = 7,
    /// An atom has more than 255 characters.
    AtomTooLong = 8,
    /// Memory ran out.
    NoMemory = 9,
}

impl From<AllocError> for DecodeFault {
    ghost from_gives = { λ _ e. e ≡ NoMemory };

    fn from(_error: AllocError) -> DecodeFault {
        DecodeFault::NoMemory
    }
}

impl<T: Drop> From<AllocFailed<T>> for DecodeFault {
    ghost from_gives = { λ _ e. e ≡ NoMemory };

    fn from(_error: AllocFailed<T>) -> DecodeFault {
        DecodeFault::NoMemory
    }
}

impl From<AtomFault> for DecodeFault {
    ghost from_gives = { λ f e. e ≡ of_atom f };

    fn from(fault: AtomFault) -> DecodeFault {
        match fault {
            AtomFault::TooLong => DecodeFault::AtomTooLong,
            AtomFault::NoMemory => DecodeFault::NoMemory,
        }
    }
}

/// Why a term isn't encoded.
#[derive(Clone, Copy, Debug, PartialEq, Eq)]
pub enum EncodeFault {
    /// The spelling would have more than 65,531 bytes.
    TooLong = 1,
    /// More than 64 tuples and lists are nested.
    TooDeep = 2,
    /// Memory ran out.
    NoMemory = 3,
}

impl From<AllocError> for EncodeFault {
    ghost from_gives = { λ _ e. e ≡ encode_faults.NoMemory };

    fn from(_error: AllocError) -> EncodeFault {
        EncodeFault::NoMemory
    }
}

impl<T: Drop> From<AllocFailed<T>> for EncodeFault {
    ghost from_gives = { λ _ e. e ≡ encode_faults.NoMemory };

    fn from(_error: AllocFailed<T>) -> EncodeFault {
        EncodeFault::NoMemory
    }
}
