//! The calls that are open.

ghost use Rattle.std.specs.Prelude.{◌≡◌, ◌==◌, ◌+◌, ◌-◌, ◌<◌, [], IfOk, IfSome, IsSome, IsTrue, List, ℕ, None, OnOk, Some, length, map, nat_le, reverse, take, MatchOption, if◌then◌else◌};
ghost use Rattle.std.specs.Option.{is_some, option_map};
ghost use Rattle.std.specs.Str.{bytes_eq};
ghost use Rattle.trace_times.specs.Opens.{Changes, HasCalls, back_in, called_at, depth_with, ended_at, from_newest, open_calls, going_on, is_full, newest_of, outside, placed, run_with, with_call, with_return};

use crate::times::between;
use std::alloc::{AllocError, Global};
use std::collections::{HashMap, VecDeque};

/// The most open calls of one process.
const MOST_OF_PROCESS: usize = 1_000;

/// The most open calls of all processes.
const MOST_OF_ALL: usize = 1_000_000;

/// The most calls of one function, one directly within the other, that each count for the depth: a loop whose rounds are calls is
/// no deeper than that.
const MOST_OF_RUN: u32 = 8;

/// The greatest depth that is told.
const MOST_DEPTH: u32 = 1_000;

/// A call that has not ended yet.
#[derive(Clone, Copy)]
pub struct OpenCall<F = u32> {
    /// Which function it is.
    pub function: F,
    /// Its time, where it is told.
    pub time: Option<i64>,
    /// How many calls are open with it, of those that count for the depth.
    pub depth: u32,
    /// How many calls of its function are open one directly within the other, it the newest of them; 9 where they are more.
    pub run: u32,
    /// The nanoseconds that calls of its process took which had ended before it, those within others of them not counted again.
    before: u64,
    /// The same with those that ended after it, up to now; told of the newest call.
    ended: u64,
}

impl<F> OpenCall<F> {
    /// A call of a function, at this time.
    pub fn new(function: F, time: Option<i64>) -> OpenCall<F>
        ensures { result ≡ called_at function time }
    {
        OpenCall {
            function,
            time,
            depth: 0,
            run: 0,
            before: 0,
            ended: 0,
        }
    }
}

/// A call that is over.
#[derive(Drop)]
pub struct Closed<F = u32> {
    pub call: OpenCall<F>,
    /// How many calls ended: it, and those that were opened after it.
    pub count: usize,
}

/// What an end tells of its call.
#[derive(Clone, Copy)]
pub struct Ended {
    /// The nanoseconds from the call to its end, where both have a time; 0 where that goes back.
    pub took: Option<u64>,
    /// Without those of the calls within it that ended.
    pub own: Option<u64>,
    /// No other call of its function is open in its process.
    pub is_outermost: bool,
}

/// The calls that are open, of each process. At most 1,000 of one process and 1,000,000 in all are kept, and the oldest of a
/// process is forgotten where it has too many.
#[derive(Drop)]
pub struct OpenCalls<F = u32> {
    alloc: Global,
    stacks: HashMap<Vec<u8>, VecDeque<OpenCall<F>>>,
    /// How many they are.
    count: usize,
    /// How many more calls are opened before all calls are looked at again for those that may be forgotten.
    until_look: usize,
}

impl<F: PartialEq + Drop> OpenCalls<F> {
    /// None is open.
    pub fn new(alloc: Global) -> OpenCalls<F>
        ensures calls { (process : List ℕ) → open_calls result process ≡ [] }
        ensures count { result.count ≡ 0 }
    {
        OpenCalls {
            alloc,
            stacks: HashMap::new(alloc),
            count: 0,
            until_look: 0,
        }
    }

    /// A process calls a function.
    pub fn open(&mut self, process: &[u8], call: OpenCall<F>) -> Result<(), AllocError>
        ensures { OnOk result (Changes self.old self.new process.now
            (with_call (is_full self.old)
            (placed F.eq call (newest_of (open_calls self.old process.now)))
            (open_calls self.old process.now))) }
    {
        let is_full = self.count >= MOST_OF_ALL;
        let forgets = self.put_call(process, call, is_full)?;
        if !forgets {
            self.count += 1;
        }
        Ok(())
    }

    /// Puts a call onto the stack of a process. Whether another call, or this one, is forgotten for it.
    fn put_call(
        &mut self,
        process: &[u8],
        call: OpenCall<F>,
        is_full: bool,
    ) -> Result<bool, AllocError>
        ensures calls { OnOk result (HasCalls self.old self.new process.now
            (with_call is_full (placed F.eq call (newest_of (open_calls self.old process.now)))
            (open_calls self.old process.now))) }
        ensures count { self.new.count ≡ self.old.count }
        ensures forgets { IfOk result (λ forgets. (IsTrue is_full → IsTrue forgets)
            × (length (with_call is_full
            (placed F.eq call (newest_of (open_calls self.old process.now)))
            (open_calls self.old process.now))
            + (if forgets then 1 else 0) ≡ length (open_calls self.old process.now) + 1)) }
    {
        match self.stacks.get_mut(process) {
            Some(stack) => {
                let call = placed_on(stack, call);
                push(stack, call, is_full)
            }
            None => self.put_first(process, placed_first(call), is_full),
        }
    }

    /// Puts the first call of a process. Whether it is forgotten.
    fn put_first(
        &mut self,
        process: &[u8],
        call: OpenCall<F>,
        is_full: bool,
    ) -> Result<bool, AllocError>
        requires { open_calls self.old process.now ≡ [] }
        ensures calls { OnOk result (HasCalls self.old self.new process.now
            (with_call is_full call [])) }
        ensures count { self.new.count ≡ self.old.count }
        ensures forgets { IfOk result (λ forgets. (IsTrue is_full → IsTrue forgets)
            × (length (with_call is_full call []) + (if forgets then 1 else 0) ≡ 1)) }
    {
        let mut stack = VecDeque::new(self.alloc);
        let forgets = push(&mut stack, call, is_full)?;
        let process = Vec::from_slice(self.alloc, process)?;
        self.stacks.insert(process, stack)?;
        Ok(forgets)
    }

    /// A process leaves a function: its newest open call, if there is one, and those that were opened after that one end. Those
    /// were tail calls, or the trace doesn't tell of their returns.
    pub fn leave(&mut self, process: &[u8], function: &F) -> Option<Closed<F>>
        ensures changes { Changes self.old self.new process.now
            (with_return (λ call. F.eq call.function function.now)
            (open_calls self.old process.now)) }
        ensures closed { IfSome result (λ closed.
            closed.count + length (open_calls self.new process.now)
            ≡ length (open_calls self.old process.now)) }
    {
        let stack = self.stacks.get_mut(process)?;
        let place = newest_place(stack, function)?;
        let count = stack.len() - place;
        stack.truncate(place + 1);
        let call = stack.pop_back()?;
        self.count = self.count.saturating_sub(count);
        Some(Closed { call, count })
    }

    /// A process is back in a function: what was opened after the newest open call of it is over. Nothing changes where none of
    /// it is open.
    pub fn back_to(&mut self, process: &[u8], function: &F)
        ensures { Changes self.old self.new process.now
            (back_in (λ call. F.eq call.function function.now)
            (open_calls self.old process.now)) }
    {
        if let Some(stack) = self.stacks.get_mut(process) {
            let count = come_back(stack, function);
            self.count = self.count.saturating_sub(count);
        }
    }

    /// A process exits: none of its calls is open any more.
    pub fn end(&mut self, process: &[u8])
        ensures { Changes self.old self.new process.now [] }
    {
        if let Some(stack) = self.stacks.remove(process) {
            self.count = self.count.saturating_sub(stack.len());
        }
    }

    /// Messages were lost, or one isn't read: no open call of any process is known any more.
    pub fn lose(&mut self)
        ensures calls { (process : List ℕ) → open_calls self.new process ≡ [] }
        ensures count { self.new.count ≡ 0 }
    {
        self.stacks = HashMap::new(self.alloc);
        self.count = 0;
    }

    /// The newest call of a process goes on at this time.
    pub fn resume(&mut self, process: &[u8], time: Option<i64>)
        ensures { Changes self.old self.new process.now
            (going_on time (open_calls self.old process.now)) }
    {
        if let Some(stack) = self.stacks.get_mut(process) {
            resume(stack, time);
        }
    }

    /// The open calls of a process, the oldest first.
    pub fn of(&self, process: &[u8]) -> Option<&VecDeque<OpenCall<F>>>
        ensures { MatchOption result (open_calls self.now process.now ≡ [])
            (λ stack. open_calls self.now process.now ≡ reverse stack.now.items) }
    {
        self.stacks.get(process)
    }

    /// Whether a call of a function is open in a process.
    pub fn is_open(&self, process: &[u8], function: &F) -> bool
        ensures { result ≡ is_some (outside (λ call. F.eq call.function function.now)
            (open_calls self.now process.now)) }
    {
        match self.of(process) {
            Some(stack) => newest_place(stack, function).is_some(),
            None => false,
        }
    }

    /// How many open calls of a process count for the depth.
    pub fn depth(&self, process: &[u8]) -> u32 {
        match self.of(process) {
            Some(stack) => stack.back().map_or(0, |call| call.depth),
            None => 0,
        }
    }

    /// How long the calls of a process took that ended within its newest open call or before it.
    fn ended(&self, process: &[u8]) -> u64 {
        match self.of(process) {
            Some(stack) => stack.back().map_or(0, |call| call.ended),
            None => 0,
        }
    }

    /// Calls of a process that ended took so long.
    fn account(&mut self, process: &[u8], ended: u64)
        ensures { Changes self.old self.new process.now
            (ended_at ended (open_calls self.old process.now)) }
    {
        if let Some(stack) = self.stacks.get_mut(process) {
            account(stack, ended);
        }
    }
}

impl OpenCalls {
    /// A call of a function ends at this time, if one is open, with those that were opened after it.
    pub fn close(&mut self, process: &[u8], function: u32, time: Option<i64>) -> Option<Ended>
        ensures { (ended : ℕ) × Changes self.old self.new process.now (ended_at ended
            (with_return (λ call. call.function == function) (open_calls self.old process.now))) }
    {
        let ended = self.ended(process);
        let call = self.leave(process, &function)?.call;
        let took = between(call.time, time);
        let now = match took {
            Some(took) => call.before.saturating_add(took),
            None => ended,
        };
        self.account(process, now);
        Some(Ended {
            took,
            own: took.map(|took| took.saturating_sub(ended.saturating_sub(call.before))),
            is_outermost: !self.is_open(process, &function),
        })
    }

    /// A process is back in a function, which keeps the time of the calls within it that ended.
    pub fn come_back(&mut self, process: &[u8], function: u32)
        ensures { (ended : ℕ) × Changes self.old self.new process.now (ended_at ended
            (back_in (λ call. call.function == function) (open_calls self.old process.now))) }
    {
        let ended = self.ended(process);
        self.back_to(process, &function);
        self.account(process, ended);
    }

    /// What a message of this kind tells of the calls of a process: that this one is open, that the newest of its function ended,
    /// or that the process is back in that function. What an end tells of its call, where that is open.
    pub fn note(
        &mut self,
        process: Option<&[u8]>,
        kind: &str,
        call: OpenCall,
    ) -> Result<Option<Ended>, AllocError> {
        let Some(process) = process else {
            return Ok(None);
        };
        if kind == "call" {
            self.open(process, call)?;
            return Ok(None);
        }
        if kind == "return_to" {
            self.come_back(process, call.function);
            return Ok(None);
        }
        Ok(self.close(process, call.function, call.time))
    }

    /// Makes room for one more call of a process, where too many are open, by forgetting calls of functions of which no end is
    /// told yet: the oldest of the process where that has too many, all of them where all processes together do.
    pub fn make_room(&mut self, process: &[u8], ends: &[bool]) {
        self.until_look = self.until_look.saturating_sub(1);
        if self.count >= MOST_OF_ALL && self.until_look == 0 {
            self.forget_all(ends);
            self.until_look = MOST_OF_ALL / 2;
        }
        if let Some(stack) = self.stacks.get_mut(process)
            && stack.len() >= MOST_OF_PROCESS
            && forget_oldest(stack, ends)
        {
            self.count = self.count.saturating_sub(1);
        }
    }

    /// Forgets all calls of functions of which no end is told.
    fn forget_all(&mut self, ends: &[bool]) {
        let mut count = 0_usize;
        for stack in self.stacks.values_mut() {
            forget_endless(stack, ends);
            count = count.saturating_add(stack.len());
        }
        self.count = count;
    }

    /// How many calls of each function are open, of this many functions.
    pub fn counts(&self, alloc: Global, functions: usize) -> Result<Vec<u64>, AllocError> {
        let mut counts = vec![in alloc; 0; functions]?;
        for stack in self.stacks.values() {
            count_each(stack, &mut counts);
        }
        Ok(counts)
    }
}

/// Whether an end of a call's function is told.
fn has_end(call: &OpenCall, ends: &[bool]) -> bool {
    ends.get(call.function as usize).copied().unwrap_or(false)
}

/// The time of the calls that ended, as the newest call of a stack tells it.
fn ended_in(stack: &VecDeque<OpenCall>) -> u64 {
    stack.back().map_or(0, |call| call.ended)
}

/// Forgets the oldest call of a function of which no end is told. Whether there was one.
fn forget_oldest(stack: &mut VecDeque<OpenCall>, ends: &[bool]) -> bool {
    let ended = ended_in(stack);
    let Some(place) = stack.iter().position(|call| !has_end(call, ends)) else {
        return false;
    };
    let forgets = stack.remove(place).is_some();
    account(stack, ended);
    forgets
}

/// Forgets the calls of functions of which no end is told.
fn forget_endless(stack: &mut VecDeque<OpenCall>, ends: &[bool]) {
    let ended = ended_in(stack);
    stack.retain(|call| has_end(call, ends));
    account(stack, ended);
}

/// Counts each call of a stack at the place of its function.
fn count_each(stack: &VecDeque<OpenCall>, counts: &mut [u64]) {
    for call in stack {
        if let Some(count) = counts.get_mut(call.function as usize) {
            *count = count.saturating_add(1);
        }
    }
}

/// A call where none is open.
fn placed_first<F: PartialEq>(call: OpenCall<F>) -> OpenCall<F>
    ensures { result ≡ placed F.eq call None }
{
    OpenCall {
        depth: 1,
        run: 1,
        ..call
    }
}

/// A call directly within another one.
fn placed_in<F: PartialEq>(call: OpenCall<F>, around: &OpenCall<F>) -> OpenCall<F>
    ensures { result ≡ placed F.eq call (Some around.now) }
{
    let run = run_with(around.function == call.function, around.run);
    OpenCall {
        depth: depth_with(run, around.depth),
        run,
        before: around.ended,
        ended: around.ended,
        ..call
    }
}

/// How many calls of a run there are with one more, which is of the same function or isn't.
fn run_with(is_same: bool, run: u32) -> u32
    ensures { result ≡ run_with is_same run }
{
    if !is_same {
        1
    } else if run > MOST_OF_RUN {
        run
    } else {
        run + 1
    }
}

/// The depth of a call within one of this depth, with the run that it ends.
fn depth_with(run: u32, depth: u32) -> u32
    ensures { result ≡ depth_with run depth }
{
    if run > MOST_OF_RUN || depth >= MOST_DEPTH {
        depth
    } else {
        depth + 1
    }
}

/// A call with its place on a stack.
fn placed_on<F: PartialEq>(stack: &VecDeque<OpenCall<F>>, call: OpenCall<F>) -> OpenCall<F>
    ensures { result ≡ placed F.eq call (newest_of (reverse stack.now.items)) }
{
    match stack.back() {
        Some(around) => placed_in(call, around),
        None => placed_first(call),
    }
}

/// Where the newest call of a function is.
fn newest_place<F: PartialEq>(stack: &VecDeque<OpenCall<F>>, function: &F) -> Option<usize>
    ensures is { outside (λ call. F.eq call.function function.now) (reverse stack.now.items)
        ≡ option_map (λ place. reverse (take place stack.now.items)) result }
    ensures from { from_newest (λ call. F.eq call.function function.now) (reverse stack.now.items)
        ≡ option_map (λ place. reverse (take (place + 1) stack.now.items)) result }
    ensures within { IfSome result (λ place. place < length stack.now.items) }
{
    let mut place = stack.len();
    while place > 0 {
        place -= 1;
        if let Some(call) = stack.get(place)
            && call.function == *function
        {
            return Some(place);
        }
    }
    None
}

/// Ends what was opened after the newest call of a function. How many calls that are.
fn come_back<F: PartialEq + Drop>(stack: &mut VecDeque<OpenCall<F>>, function: &F) -> usize
    ensures is { reverse stack.new.items
        ≡ back_in (λ call. F.eq call.function function.now) (reverse stack.old.items) }
    ensures count { result + length stack.new.items ≡ length stack.old.items }
{
    match newest_place(stack, function) {
        Some(place) => {
            let kept = place + 1;
            let count = stack.len() - kept;
            stack.truncate(kept);
            count
        }
        None => 0,
    }
}

/// The newest call of a stack goes on at this time.
fn resume<F>(stack: &mut VecDeque<OpenCall<F>>, time: Option<i64>)
    ensures { reverse stack.new.items ≡ going_on time (reverse stack.old.items) }
{
    if let Some(call) = stack.back_mut() {
        call.time = time;
    }
}

/// Calls that ended took so long.
fn account<F>(stack: &mut VecDeque<OpenCall<F>>, ended: u64)
    ensures { reverse stack.new.items ≡ ended_at ended (reverse stack.old.items) }
{
    if let Some(call) = stack.back_mut() {
        call.ended = ended;
    }
}

/// Puts a call onto a stack. Whether another call, or this one, is forgotten for it.
fn push<F: Drop>(
    stack: &mut VecDeque<OpenCall<F>>,
    call: OpenCall<F>,
    is_full: bool,
) -> Result<bool, AllocError>
    ensures is { OnOk result (reverse stack.new.items
        ≡ with_call is_full call (reverse stack.old.items)) }
    ensures forgets { IfOk result (λ forgets. (IsTrue is_full → IsTrue forgets)
        × (length stack.new.items + (if forgets then 1 else 0) ≡ length stack.old.items + 1)) }
{
    let forgets = is_full || stack.len() >= MOST_OF_PROCESS;
    if forgets && stack.pop_front().is_none() {
        return Ok(true);
    }
    stack.push_back(call)?;
    Ok(forgets)
}
