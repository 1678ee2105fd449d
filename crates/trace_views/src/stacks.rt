//! The stacks of open calls of all processes, and what is counted of them.

ghost use Rattle.std.specs.Prelude.{◌≡◌, ◌++◌, ◌∷◌, [], List, ℕ, OnOk, false, reverse, take, true};
ghost use Rattle.trace_views.specs.Stacks.{Act as TheAct, AreEnds, Calls, Exits, IsFolded, Loses, Returns, ReturnsTo, is_known, names_in, names_of, one_name, stack_text};
ghost use Rattle.trace_views.specs.Acts.{seen_act};

use crate::acts::Act;
use crate::ends::Ends;
use crate::stack_rows::StackRows;
use crate::view::ViewFault;
use std::alloc::{AllocError, Global};
use std::collections::VecDeque;
use trace_times::{OpenCall, OpenCalls, between};

/// The most functions that a stack shows, the innermost ones.
const MOST_NAMES: usize = 256;

/// The stacks of open calls of all processes, and what is counted of them.
#[derive(Drop)]
pub struct Stacks {
    alloc: Global,
    pub rows: StackRows,
    /// The calls that are open, each with the time from which on its function itself runs.
    opens: OpenCalls<Vec<u8>>,
    /// The functions that tell their ends: calls of others open nothing.
    ends: Ends,
    /// The text of a stack.
    text: Vec<u8>,
    /// The function that is left.
    left: Vec<u8>,
    /// A time was told in which a function ran.
    pub is_timed: bool,
}

impl Stacks {
    /// No call is open, and these functions are known to tell their ends.
    pub fn new(alloc: Global, ends: Ends) -> Stacks
        ensures { (before : List TheAct) → AreEnds ends before → IsFolded before result [] }
    {
        Stacks {
            alloc,
            rows: StackRows::new(alloc),
            opens: OpenCalls::new(alloc),
            ends,
            text: Vec::new(alloc),
            left: Vec::new(alloc),
            is_timed: false,
        }
    }

    /// Takes what a process does, at this time if that is told.
    pub fn note(&mut self, act: Act<'_>, time: Option<i64>) -> Result<(), ViewFault>
        ensures { (before acts : List TheAct) → IsFolded before self.old acts
            → OnOk result (IsFolded before self.new (acts ++ (seen_act act.entry ∷ []))) }
    {
        match act {
            Act::Call { process, function } => self.call(process, function, time),
            Act::Return { process, function } => self.leave(process, function, time),
            Act::ReturnTo { process, function } => self.come_back(process, function, time),
            Act::Exit { process } => self.end(process, time),
            Act::Loss => self.lose(),
            Act::Other => Ok(()),
        }
    }

    /// A process calls a function.
    fn call(&mut self, process: &[u8], function: &[u8], time: Option<i64>) -> Result<(), ViewFault>
        ensures { (before acts : List TheAct) → IsFolded before self.old acts
            → OnOk result (IsFolded before self.new (acts
            ++ (Calls process.now function.now ∷ []))) }
    {
        self.spend(process, time)?;
        if self.ends.has(function) {
            self.open(process, function, time)
        } else {
            self.pass(process, function, time)
        }
    }

    /// A process calls a function that tells its ends.
    fn open(&mut self, process: &[u8], function: &[u8], time: Option<i64>) -> Result<(), ViewFault>
        requires { is_known self.old.ends function.now ≡ true }
        ensures { (before acts : List TheAct) → IsFolded before self.old acts
            → OnOk result (IsFolded before self.new (acts
            ++ (Calls process.now function.now ∷ []))) }
    {
        let function = Vec::from_slice(self.alloc, function)?;
        self.opens.open(process, OpenCall::new(function, time))?;
        self.put_text(process, MOST_NAMES)?;
        self.rows.call(&self.text)
    }

    /// A process calls a function that may never tell its end: it is counted, and opens nothing.
    fn pass(&mut self, process: &[u8], function: &[u8], time: Option<i64>) -> Result<(), ViewFault>
        requires { is_known self.old.ends function.now ≡ false }
        ensures { (before acts : List TheAct) → IsFolded before self.old acts
            → OnOk result (IsFolded before self.new (acts
            ++ (Calls process.now function.now ∷ []))) }
    {
        self.put_text(process, MOST_NAMES - 1)?;
        put_behind(function, &mut self.text)?;
        self.opens.resume(process, time);
        self.rows.call(&self.text)
    }

    /// A process leaves a function.
    fn leave(&mut self, process: &[u8], function: &[u8], time: Option<i64>) -> Result<(), ViewFault>
        ensures { (before acts : List TheAct) → IsFolded before self.old acts
            → OnOk result (IsFolded before self.new (acts
            ++ (Returns process.now function.now ∷ []))) }
    {
        self.spend(process, time)?;
        self.put_left(function)?;
        let _closed = self.opens.leave(process, &self.left);
        self.opens.resume(process, time);
        self.ends.learn(function)
    }

    /// A process is back in a function.
    fn come_back(
        &mut self,
        process: &[u8],
        function: &[u8],
        time: Option<i64>,
    ) -> Result<(), ViewFault>
        ensures { (before acts : List TheAct) → IsFolded before self.old acts
            → OnOk result (IsFolded before self.new (acts
            ++ (ReturnsTo process.now function.now ∷ []))) }
    {
        self.spend(process, time)?;
        self.put_left(function)?;
        self.opens.back_to(process, &self.left);
        self.opens.resume(process, time);
        Ok(())
    }

    /// A process ends.
    fn end(&mut self, process: &[u8], time: Option<i64>) -> Result<(), ViewFault>
        ensures { (before acts : List TheAct) → IsFolded before self.old acts
            → OnOk result (IsFolded before self.new (acts ++ (Exits process.now ∷ []))) }
    {
        self.spend(process, time)?;
        self.opens.end(process);
        Ok(())
    }

    /// Messages are lost: no call is known to be open any more.
    fn lose(&mut self) -> Result<(), ViewFault>
        ensures { (before acts : List TheAct) → IsFolded before self.old acts
            → OnOk result (IsFolded before self.new (acts ++ (Loses ∷ []))) }
    {
        self.opens.lose();
        Ok(())
    }

    /// Puts the function that is left, or returned to, in place of the one before.
    fn put_left(&mut self, function: &[u8]) -> Result<(), AllocError>
        ensures left { OnOk result (self.new.left.items ≡ function.now) }
        ensures stays { self.new ≡ record self.old { left = self.new.left } }
    {
        self.left.clear();
        self.left.extend_from_slice(function)
    }

    /// Adds the time since the newest call of a process began, or went on, to what its function ran.
    fn spend(&mut self, process: &[u8], time: Option<i64>) -> Result<(), ViewFault>
        ensures { (before acts : List TheAct) → IsFolded before self.old acts
            → OnOk result (IsFolded before self.new acts) }
    {
        let Some(time) = self.time_until(process, time) else {
            return Ok(());
        };
        self.is_timed = true;
        self.put_text(process, MOST_NAMES)?;
        self.rows.spend(&self.text, time)
    }

    /// The nanoseconds that the newest call of a process ran until this time, where one is open and both times are told.
    fn time_until(&self, process: &[u8], time: Option<i64>) -> Option<u64> {
        let newest = self.opens.of(process)?.back()?;
        between(newest.time, time)
    }

    /// Puts the text of the stack of a process in place of the one before, with so many functions at most.
    fn put_text(&mut self, process: &[u8], most: usize) -> Result<(), AllocError>
        ensures text { OnOk result (self.new.text.items
            ≡ stack_text (one_name process.now) (take most (names_of self.old.opens process.now))) }
        ensures stays { self.new ≡ record self.old { text = self.new.text } }
    {
        self.text.clear();
        put_name(process, &mut self.text)?;
        match self.opens.of(process) {
            Some(stack) => put_names(stack, most, &mut self.text),
            None => Ok(()),
        }
    }
}

/// Writes the functions of open calls behind the process, so many at most, the outermost of those that are shown first.
fn put_names(
    stack: &VecDeque<OpenCall<Vec<u8>>>,
    most: usize,
    text: &mut Vec<u8>,
) -> Result<(), AllocError>
    ensures { OnOk result (text.new.items
        ≡ stack_text text.old.items (take most (names_in (reverse stack.now.items)))) }
{
    let first = stack.len().saturating_sub(most);
    for place in first..stack.len() {
        if let Some(call) = stack.get(place) {
            put_behind(&call.function, text)?;
        }
    }
    Ok(())
}

/// Writes the name of a function behind those that it is within.
fn put_behind(name: &[u8], text: &mut Vec<u8>) -> Result<(), AllocError>
    ensures { OnOk result (text.new.items ≡ text.old.items ++ (59 ∷ one_name name.now)) }
{
    text.push(b';')?;
    put_name(name, text)
}

/// Writes a name, with a colon for each semicolon.
fn put_name(name: &[u8], text: &mut Vec<u8>) -> Result<(), AllocError>
    ensures { OnOk result (text.new.items ≡ text.old.items ++ one_name name.now) }
{
    if !name.contains(&b';') {
        return text.extend_from_slice(name);
    }
    for byte in name {
        text.push(if *byte == b';' { b':' } else { *byte })?;
    }
    Ok(())
}
