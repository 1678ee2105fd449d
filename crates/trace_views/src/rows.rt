//! Rows under the texts that they are for.
ghost use Rattle.std.specs.Prelude.{◌≤◌, OnOk, OnErr, IsErrOf};
ghost use Rattle.std.specs.HashMap.{IsUnchanged, hash_map_len};
ghost use Rattle.trace_views.specs.Rows.{Puts};

use crate::view::ViewFault;
use std::alloc::Global;
use std::collections::HashMap;

/// Puts a row under a text that has none, unless there are as many rows as there may be.
pub fn put_new<R: Copy + Drop>(
    rows: &mut HashMap<Vec<u8>, R>,
    alloc: Global,
    text: &[u8],
    row: R,
    most: usize,
) -> Result<(), ViewFault>
    ensures put { OnOk result (Puts rows.old rows.new text.now row) }
    ensures stays { OnErr result (IsUnchanged rows.old rows.new) }
    ensures full { IsErrOf result ViewFault.TooMany → most ≤ hash_map_len rows.old }
{
    if rows.len() >= most {
        return Err(ViewFault::TooMany);
    }
    let Ok(text) = Vec::from_slice(alloc, text) else {
        return Err(ViewFault::NoMemory);
    };
    match rows.insert(text, row) {
        Ok(_) => Ok(()),
        Err(_) => Err(ViewFault::NoMemory),
    }
}
