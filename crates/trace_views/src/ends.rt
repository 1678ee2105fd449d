//! The functions that tell their ends.

ghost use Rattle.std.specs.Prelude.{◌≡◌, ℕ, List, OnOk, false, true, if◌then◌else◌};
ghost use Rattle.std.specs.Str.{bytes_eq};
ghost use Rattle.trace_views.specs.Stacks.{has_name, is_known};

use crate::view::ViewFault;
use std::alloc::Global;
use std::collections::HashSet;

/// The most functions.
const MOST_NAMES: usize = 1_000_000;

/// The most bytes of their names.
const MOST_BYTES: usize = 268_435_456;

/// The functions of which a return or an exception was told. A call of any other one may never tell its end.
#[derive(Drop)]
pub struct Ends {
    alloc: Global,
    names: HashSet<Vec<u8>>,
    /// How many bytes their names have.
    bytes: usize,
}

impl Ends {
    /// None yet.
    pub fn new(alloc: Global) -> Ends
        ensures { (function : List ℕ) → is_known result function ≡ false }
    {
        Ends {
            alloc,
            names: HashSet::new(alloc),
            bytes: 0,
        }
    }

    /// Whether an end of this function was told.
    pub fn has(&self, function: &[u8]) -> bool
        ensures { result ≡ is_known self.now function.now }
    {
        self.names.contains(function)
    }

    /// An end of a function is told.
    pub fn learn(&mut self, function: &[u8]) -> Result<(), ViewFault>
        ensures { OnOk result ((other : List ℕ) → is_known self.new other
            ≡ (if bytes_eq function.now other then true else is_known self.old other)) }
    {
        if self.has(function) {
            return Ok(());
        }
        if self.names.len() >= MOST_NAMES || self.bytes >= MOST_BYTES {
            return Err(ViewFault::TooMany);
        }
        put(&mut self.names, self.alloc, function)?;
        self.bytes = self.bytes.saturating_add(function.len());
        Ok(())
    }
}

/// Puts a name.
fn put(names: &mut HashSet<Vec<u8>>, alloc: Global, name: &[u8]) -> Result<(), ViewFault>
    ensures { OnOk result ((other : List ℕ) → has_name names.new other
        ≡ (if bytes_eq name.now other then true else has_name names.old other)) }
{
    let Ok(name) = Vec::from_slice(alloc, name) else {
        return Err(ViewFault::NoMemory);
    };
    match names.insert(name) {
        Ok(_) => Ok(()),
        Err(_) => Err(ViewFault::NoMemory),
    }
}
