//! Rows that are held back.
ghost use Rattle.std.specs.Prelude.{◌≡◌, ◌≤◌, ◌++◌, IfSome, OnOk, OnErr, length, option_to_list};
ghost use Rattle.shown_listings.specs.Rows.{rows_in, kept_rows, held_behind};

use crate::rows::is_end;
use std::alloc::AllocError;
use std::collections::VecDeque;

/// How many rows are held back at most behind a line, by how many were; None where none is: so it is behind the last line.
pub fn held_behind(line: &[u8], most: Option<u32>) -> Option<u32>
    ensures { result ≡ held_behind line.now most }
{
    if is_end(line) { None } else { most }
}

/// Puts a row, where there is one, behind those that are held back. Where these are too many then, the first is left out.
pub fn hold(
    held: &mut VecDeque<Vec<u8>>,
    row: Option<Vec<u8>>,
    most: Option<u32>,
) -> Result<(), AllocError>
    requires { IfSome most (λ n. length (rows_in held.old.items) ≤ n) }
    ensures ok { OnOk result (rows_in held.new.items
        ≡ kept_rows most (rows_in held.old.items ++ rows_in (option_to_list row))) }
    ensures err { OnErr result (rows_in held.new.items ≡ rows_in held.old.items) }
{
    let Some(row) = row else {
        return Ok(());
    };
    held.push_back(row)?;
    if let Some(most) = most
        && held.len() > most as usize
    {
        held.pop_front();
    }
    Ok(())
}
