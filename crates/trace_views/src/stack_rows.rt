//! What is counted of each stack of calls.

ghost use Rattle.std.specs.Prelude.{◌≡◌, ◌+◌, List, ℕ, OnOk, Some, if◌then◌else◌};
ghost use Rattle.std.specs.Io.KnownBytes.{Appends};
ghost use Rattle.std.specs.Map.{update};
ghost use Rattle.std.specs.Str.{bytes_eq};
ghost use Rattle.trace_views.specs.Stacks.{AreOrdered, calls_at, lines_of, number_of, stack_row_at, time_at};

use crate::view::ViewFault;
use std::alloc::Global;
use std::collections::BTreeMap;
use std::io::{self, Write};

/// The most stacks.
const MOST_ROWS: usize = 1_000_000;

/// The most bytes of their texts.
const MOST_BYTES: usize = 268_435_456;

/// What is counted of one stack.
#[derive(Clone, Copy)]
pub struct StackRow {
    /// How often its innermost function is called.
    pub calls: u64,
    /// How long that one runs, without the calls within it, in nanoseconds.
    pub time: u64,
}

impl StackRow {
    /// Nothing is counted yet.
    const NONE: StackRow = StackRow { calls: 0, time: 0 };

    /// The number of its line: its time in whole microseconds, or how often it is called.
    fn number(self, is_timed: bool) -> u64
        ensures { result ≡ number_of is_timed self }
    {
        if is_timed {
            self.time / 1_000
        } else {
            self.calls
        }
    }
}

/// The stacks under their texts.
#[derive(Drop)]
pub struct StackRows {
    alloc: Global,
    rows: BTreeMap<Vec<u8>, StackRow>,
    /// How many bytes their texts have.
    bytes: usize,
}

impl StackRows {
    /// None yet.
    pub fn new(alloc: Global) -> StackRows
        ensures calls { (text : List ℕ) → calls_at result.rows text ≡ 0 }
        ensures times { (text : List ℕ) → time_at result.rows text ≡ 0 }
    {
        StackRows {
            alloc,
            rows: BTreeMap::new(alloc),
            bytes: 0,
        }
    }

    /// The row of a stack.
    fn row(&self, text: &[u8]) -> StackRow
        ensures calls { result.calls ≡ calls_at self.now.rows text.now }
        ensures time { result.time ≡ time_at self.now.rows text.now }
    {
        self.rows.get(text).copied().unwrap_or(StackRow::NONE)
    }

    /// Counts a call.
    pub fn call(&mut self, text: &[u8]) -> Result<(), ViewFault>
        ensures calls { OnOk result ((other : List ℕ) → calls_at self.new.rows other
            ≡ calls_at self.old.rows other + (if bytes_eq text.now other then 1 else 0)) }
        ensures times { OnOk result ((other : List ℕ) → time_at self.new.rows other
            ≡ time_at self.old.rows other) }
    {
        let row = self.row(text);
        let Some(calls) = row.calls.checked_add(1) else {
            return Err(ViewFault::TooMany);
        };
        self.put(text, StackRow { calls, ..row })
    }

    /// Adds time in which the innermost function of a stack ran.
    pub fn spend(&mut self, text: &[u8], time: u64) -> Result<(), ViewFault>
        ensures calls { OnOk result ((other : List ℕ) → calls_at self.new.rows other
            ≡ calls_at self.old.rows other) }
        ensures times { OnOk result ((other : List ℕ) → time_at self.new.rows other
            ≡ time_at self.old.rows other + (if bytes_eq text.now other then time else 0)) }
    {
        let row = self.row(text);
        let Some(time) = row.time.checked_add(time) else {
            return Err(ViewFault::TooMany);
        };
        self.put(text, StackRow { time, ..row })
    }

    /// Writes a line for each stack, in the order of their texts.
    pub fn write<W: Write>(&self, is_timed: bool, out: &mut W) -> io::Result<()>
        ensures lines { OnOk result (Appends (W.contents out.old) (W.contents out.new)
            (lines_of is_timed self.now.rows.entries)) }
        ensures ordered { AreOrdered self.now.rows }
    {
        for (text, row) in self.rows.iter() {
            out.write_all(text)?;
            let number = row.number(is_timed);
            writeln!(out, " {number}")?;
        }
        Ok(())
    }

    /// Puts the row of a stack, unless there is none and no room for another.
    fn put(&mut self, text: &[u8], row: StackRow) -> Result<(), ViewFault>
        ensures { OnOk result ((other : List ℕ) → stack_row_at self.new.rows other
            ≡ update bytes_eq (stack_row_at self.old.rows) text.now (Some row) other) }
    {
        let has_room = self.rows.len() < MOST_ROWS && self.bytes < MOST_BYTES;
        let is_new = put_row(&mut self.rows, self.alloc, text, row, has_room)?;
        if is_new {
            self.bytes = self.bytes.saturating_add(text.len());
        }
        Ok(())
    }
}

/// Puts the row of a text, unless there is none and no room for another. Whether there was none.
fn put_row(
    rows: &mut BTreeMap<Vec<u8>, StackRow>,
    alloc: Global,
    text: &[u8],
    row: StackRow,
    has_room: bool,
) -> Result<bool, ViewFault>
    ensures { OnOk result ((other : List ℕ) → stack_row_at rows.new other
        ≡ update bytes_eq (stack_row_at rows.old) text.now (Some row) other) }
{
    if let Some(place) = rows.get_mut(text) {
        *place = row;
        return Ok(false);
    }
    if !has_room {
        return Err(ViewFault::TooMany);
    }
    let Ok(text) = Vec::from_slice(alloc, text) else {
        return Err(ViewFault::NoMemory);
    };
    match rows.insert(text, row) {
        Ok(_) => Ok(true),
        Err(_) => Err(ViewFault::NoMemory),
    }
}
