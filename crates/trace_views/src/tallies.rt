//! All that is counted of a trace.
ghost use Rattle.std.specs.Prelude.{◌≡◌, ◌+◌, ◌++◌, ◌∷◌, [], List, IfOk, OnOk};
ghost use Rattle.trace_views.specs.Counting.{Telling, Unread, Lost, with_read};
ghost use Rattle.trace_views.specs.Tallies.{IsCounted};

use crate::bars::Course;
use crate::functions::Functions;
use crate::messages::Kinds;
use crate::processes::Processes;
use crate::view::ViewFault;
use std::alloc::Global;
use trace_text::MessageFacts;
use trace_times::{Time, time_in};

/// The most functions and processes.
const MOST_ROWS: usize = 1_000_000;

/// One more, where that has a value in u64.
pub fn one_more(count: u64) -> Result<u64, ViewFault>
    ensures { IfOk result (λ more. more ≡ count + 1) }
{
    match count.checked_add(1) {
        Some(more) => Ok(more),
        None => Err(ViewFault::TooMany),
    }
}

/// What is counted of functions, of processes and of messages.
#[derive(Drop)]
pub struct Tallies {
    pub functions: Functions,
    pub processes: Processes,
    pub kinds: Kinds,
    /// Also those that aren't read.
    pub messages: u64,
    pub unread: u64,
    /// Messages that drop records say were lost.
    pub lost: u64,
    /// The times of the first message that has one, and of the last.
    pub span: Option<Span>,
    /// Where in the trace they lie.
    pub course: Course,
}

/// From one time to another, in nanoseconds.
#[derive(Clone, Copy)]
pub struct Span {
    pub from: i64,
    pub to: i64,
}

impl Span {
    /// How long it is; 0 where its end is before its beginning.
    pub fn nanoseconds(self) -> u64 {
        u64::try_from(self.to.saturating_sub(self.from)).unwrap_or(0)
    }

    /// With one time more, where there is one.
    fn with(span: Option<Span>, time: Option<i64>) -> Option<Span> {
        match (span, time) {
            (Some(span), Some(to)) => Some(Span {
                from: span.from,
                to,
            }),
            (None, Some(time)) => Some(Span {
                from: time,
                to: time,
            }),
            (span, None) => span,
        }
    }
}

impl Tallies {
    /// Nothing is counted yet.
    pub fn new(alloc: Global) -> Tallies
        ensures { IsCounted result [] }
    {
        Tallies {
            functions: Functions::new(alloc),
            processes: Processes::new(alloc),
            kinds: Kinds::new(alloc),
            messages: 0,
            unread: 0,
            lost: 0,
            span: None,
            course: Course::NONE,
        }
    }

    /// Counts a message that was read.
    pub fn count_read(&mut self, facts: &MessageFacts<'_>) -> Result<(), ViewFault>
        ensures { (told : List Telling) → IsCounted self.old told
            → OnOk result (IsCounted self.new (with_read told facts.now)) }
    {
        let time = time_in(facts.text).map(Time::nanos);
        self.messages = one_more(self.messages)?;
        self.kinds.count(facts)?;
        let most = MOST_ROWS.saturating_sub(self.functions.rows.len());
        self.processes.count(facts, most)?;
        let most = MOST_ROWS.saturating_sub(self.processes.rows.len());
        self.functions.count(facts, time, most)?;
        self.span = Span::with(self.span, time);
        self.course.note_message(time);
        Ok(())
    }

    /// Counts a message that isn't read.
    pub fn count_unread(&mut self) -> Result<(), ViewFault>
        ensures { (told : List Telling) → IsCounted self.old told
            → OnOk result (IsCounted self.new (told ++ (Unread ∷ []))) }
    {
        self.messages = one_more(self.messages)?;
        self.unread = one_more(self.unread)?;
        self.functions.lose();
        self.course.note_message(None);
        Ok(())
    }

    /// Counts messages that were lost.
    pub fn count_lost(&mut self, count: u32) -> Result<(), ViewFault>
        ensures { (told : List Telling) → IsCounted self.old told
            → OnOk result (IsCounted self.new (told ++ (Lost count ∷ []))) }
    {
        match self.lost.checked_add(u64::from(count)) {
            Some(lost) => {
                self.lost = lost;
                self.functions.lose();
                self.course.note_lost(count);
                Ok(())
            }
            None => Err(ViewFault::TooMany),
        }
    }
}
