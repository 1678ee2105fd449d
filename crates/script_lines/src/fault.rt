//! Why a script gives no further line.
ghost use Rattle.std.specs.Prelude.{◌≡◌};
ghost use Rattle.script_lines.specs.declared.fault.ScriptFault.TheVariants as faults;

use std::alloc::AllocError;

/// Why a script gives no further line.
#[derive(Clone, Copy)]
pub enum ScriptFault {
    /// A line, counted from 1, isn't a command.
    BadCommand { line: u64 },
    /// The script couldn't be read.
    Read,
    /// It is longer than 1,099,511,627,776 bytes.
    TooLong,
    NoMemory,
}

impl From<AllocError> for ScriptFault {
    ghost from_gives = { λ _ e. e ≡ faults.NoMemory };

    fn from(_fault: AllocError) -> ScriptFault {
        ScriptFault::NoMemory
    }
}
