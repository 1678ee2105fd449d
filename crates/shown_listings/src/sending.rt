//! Bytes that a writer is given as far as it takes them.
ghost use Rattle.std.specs.Prelude.{◌≡◌, ◌≤◌, ◌++◌, ℕ, List, [], length, drop, OnOk};
ghost use Rattle.shown_listings.specs.Rows.{Sends, rows_in, text_of_rows};

use crate::given::Given;
use crate::noted::Noted;
use std::collections::VecDeque;
use std::io::{self, ErrorKind, Write};

/// Bytes of which the first were taken.
#[derive(Drop)]
pub struct Unsent {
    pub bytes: Vec<u8>,
    /// How many were taken.
    pub taken: usize,
}

/// Gives a writer what is left, as far as it takes it, and notes what it took.
pub fn send<W: Write>(out: &mut W, unsent: &mut Unsent, written: &mut Given) -> io::Result<()>
    ensures same { unsent.new.bytes ≡ unsent.old.bytes }
    ensures sends { (all : List ℕ)
        → Sends (W.contents out.old) written.old (drop unsent.old.taken unsent.old.bytes.items) all
        → Sends (W.contents out.new) written.new (drop unsent.new.taken unsent.new.bytes.items) all }
    ensures start { written.new.start ≡ written.old.start }
    ensures all { OnOk result (length unsent.new.bytes.items ≤ unsent.new.taken) }
{
    'rest: while unsent.taken < unsent.bytes.len() {
        let rest = &unsent.bytes[unsent.taken..];
        let count = out.write(rest)?;
        if count == 0 {
            return Err(io::Error::from(ErrorKind::WriteZero));
        }
        written.note(&rest[..count]);
        unsent.taken += count;
    }
    Ok(())
}

/// Gives a writer what is left of a row, and then the rows that are held, each of which is noted when it is begun.
pub fn send_held<W: Write>(
    out: &mut W,
    unsent: &mut Unsent,
    held: &mut VecDeque<Vec<u8>>,
    written: &mut Given,
    laid: &mut Noted,
) -> io::Result<()>
    ensures sends { Sends (W.contents out.old) written.old
        (drop unsent.old.taken unsent.old.bytes.items) (text_of_rows laid.old.items)
        → Sends (W.contents out.new) written.new
        (drop unsent.new.taken unsent.new.bytes.items) (text_of_rows laid.new.items) }
    ensures rows { laid.new.items ++ rows_in held.new.items
        ≡ laid.old.items ++ rows_in held.old.items }
    ensures start { written.new.start ≡ written.old.start }
    ensures all { OnOk result ((length unsent.new.bytes.items ≤ unsent.new.taken)
        × (rows_in held.new.items ≡ [])) }
{
    send(out, unsent, written)?;
    'rows: while let Some(row) = held.pop_front() {
        laid.note(&row);
        *unsent = Unsent {
            bytes: row,
            taken: 0,
        };
        send(out, unsent, written)?;
    }
    Ok(())
}
