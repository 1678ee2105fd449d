//! The functions that a trace tells of.
ghost use Rattle.std.specs.Prelude.{◌≡◌, [], List, IfOk, OnOk};
ghost use Rattle.trace_views.specs.Counting.{Telling, with_read};
ghost use Rattle.trace_views.specs.Rows.{AreFunctionsCounted, Puts, counts_of_function, function_counts_with, function_counts_at, is_of_functions};
ghost use Rattle.trace_views.specs.declared.row.FunctionRow.{FunctionRow as TheRow};

use crate::calls::Calls;
use crate::row::FunctionRow;
use crate::rows::put_new;
use crate::view::{ViewFault, or_too_many};
use std::alloc::Global;
use std::collections::HashMap;
use trace_text::MessageFacts;
use trace_times::OpenCall;

/// Whether messages of this kind are counted of functions.
fn is_of_functions(kind: &str) -> bool
    ensures { result ≡ is_of_functions kind.now }
{
    kind == "call" || kind == "return" || kind == "exception"
}

/// The functions, with what is counted of them, and their calls.
#[derive(Drop)]
pub struct Functions {
    alloc: Global,
    pub rows: HashMap<Vec<u8>, FunctionRow>,
    pub calls: Calls,
}

impl Functions {
    /// None yet.
    pub fn new(alloc: Global) -> Functions
        ensures { AreFunctionsCounted result.rows [] }
    {
        Functions {
            alloc,
            rows: HashMap::new(alloc),
            calls: Calls::new(alloc),
        }
    }

    /// Counts a message that was read, where there are at most so many rows.
    pub fn count(
        &mut self,
        facts: &MessageFacts<'_>,
        time: Option<i64>,
        most: usize,
    ) -> Result<(), ViewFault>
        ensures { (told : List Telling) → AreFunctionsCounted self.old.rows told
            → OnOk result (AreFunctionsCounted self.new.rows (with_read told facts.now)) }
    {
        if !is_of_functions(facts.kind) {
            self.note_other(facts);
            return Ok(());
        }
        let Some(function) = facts.function else {
            return Ok(());
        };
        self.count_one(function, facts, time, most)
    }

    /// Notes what a message that isn't counted tells of the calls of a process.
    fn note_other(&mut self, facts: &MessageFacts<'_>)
        ensures { self.new.rows ≡ self.old.rows }
    {
        let Some(process) = facts.tracee else {
            return;
        };
        if facts.kind == "exit" {
            self.calls.end(process);
        }
        if facts.kind == "return_to"
            && let Some(function) = facts.function
            && let Some(row) = self.rows.get(function)
        {
            self.calls.come_back(process, row.number);
        }
    }

    /// Messages were lost, or one isn't read: which calls are open isn't known any more.
    pub fn lose(&mut self)
        ensures { self.new.rows ≡ self.old.rows }
    {
        self.calls.lose();
    }

    /// Counts a message that tells of this function.
    fn count_one(
        &mut self,
        function: &[u8],
        facts: &MessageFacts<'_>,
        time: Option<i64>,
        most: usize,
    ) -> Result<(), ViewFault>
        ensures { OnOk result ((row : TheRow) × Puts self.old.rows self.new.rows function.now row
            × (counts_of_function row ≡ function_counts_with facts.now.kind.now
            (function_counts_at self.old.rows function.now))) }
    {
        if let Some(row) = self.rows.get_mut(function) {
            *row = with_message(*row, &mut self.calls, facts, time)?;
            return Ok(());
        }
        let Ok(number) = u32::try_from(self.rows.len()) else {
            return Err(ViewFault::TooMany);
        };
        let row = with_message(FunctionRow::new(number), &mut self.calls, facts, time)?;
        put_new(&mut self.rows, self.alloc, function, row, most)
    }
}

/// The row of a function with one message more, which opens a call or ends one.
fn with_message(
    row: FunctionRow,
    calls: &mut Calls,
    facts: &MessageFacts<'_>,
    time: Option<i64>,
) -> Result<FunctionRow, ViewFault>
    ensures { IfOk result (λ counted. counts_of_function counted
        ≡ function_counts_with facts.now.kind.now (counts_of_function row)) }
{
    let ended = calls.note(facts.tracee, facts.kind, OpenCall::new(row.number, time))?;
    Ok(or_too_many(row.with(facts.kind))?.timed(ended))
}
