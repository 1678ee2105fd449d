//! What is counted of one function, and of one process.

ghost use Rattle.std.specs.Prelude.{◌≡◌, ◌^◌, ◌-◌, IfSome, MatchOption};

use trace_times::Ended;

/// How long calls took, in nanoseconds.
#[derive(Clone, Copy)]
pub struct Times {
    /// How many calls have a time, of those that lie in no other call of their function.
    pub timed: u64,
    /// How long these took.
    pub total: u64,
    pub longest: u64,
    /// How long all calls took that have a time, without the calls within them.
    pub own: Option<u64>,
}

impl Times {
    /// No call ended yet.
    pub const NONE: Times = Times {
        timed: 0,
        total: 0,
        longest: 0,
        own: None,
    };

    /// With a call that ended.
    fn with(self, ended: Ended) -> Times {
        let times = match ended.own {
            Some(own) => Times {
                own: Some(self.own.unwrap_or(0).saturating_add(own)),
                ..self
            },
            None => self,
        };
        match ended.took {
            Some(took) if ended.is_outermost => times.with_outermost(took),
            _ => times,
        }
    }

    /// With a call that lies in no other one of its function.
    fn with_outermost(self, took: u64) -> Times {
        Times {
            timed: self.timed.saturating_add(1),
            total: self.total.saturating_add(took),
            longest: self.longest.max(took),
            ..self
        }
    }

    /// The time of a call, where one has a time.
    pub fn mean(self) -> Option<u64> {
        self.total.checked_div(self.timed)
    }
}

/// What is counted of one function.
#[derive(Clone, Copy)]
pub struct FunctionRow {
    pub calls: u64,
    pub returns: u64,
    pub exceptions: u64,
    /// How many functions were met before it.
    pub number: u32,
    pub times: Times,
}

impl FunctionRow {
    ghost use Rattle.trace_views.specs.Rows.{counts_of_function, no_function_counts, function_counts_with};

    /// No message told of it.
    pub fn new(number: u32) -> FunctionRow
        ensures { counts_of_function result ≡ no_function_counts }
    {
        FunctionRow {
            calls: 0,
            returns: 0,
            exceptions: 0,
            number,
            times: Times::NONE,
        }
    }

    /// With one message of this kind more; None where a count has no value in u64.
    pub fn with(self, kind: &str) -> Option<FunctionRow>
        ensures { IfSome result (λ row.
            counts_of_function row ≡ function_counts_with kind.now (counts_of_function self)) }
    {
        Some(FunctionRow {
            calls: self.calls.checked_add(u64::from(kind == "call"))?,
            returns: self.returns.checked_add(u64::from(kind == "return"))?,
            exceptions: self.exceptions.checked_add(u64::from(kind == "exception"))?,
            number: self.number,
            times: self.times,
        })
    }

    /// With a call that ended, where one did.
    pub fn timed(self, ended: Option<Ended>) -> FunctionRow
        ensures { counts_of_function result ≡ counts_of_function self }
    {
        match ended {
            Some(ended) => FunctionRow {
                times: self.times.with(ended),
                ..self
            },
            None => self,
        }
    }

    /// Whether an end of it is told.
    pub fn has_end(self) -> bool {
        self.returns > 0 || self.exceptions > 0
    }
}

/// The messages that wait for a process: those that were sent to it, and that it hasn't received.
#[derive(Clone, Copy)]
pub struct Waiting {
    now: u64,
    /// The most that ever did.
    pub most: u64,
}

impl Waiting {
    ghost use Rattle.trace_views.specs.Rows.{waiting_in};
    ghost use Rattle.trace_views.specs.Counting.{none_waits, one_comes, one_goes};

    /// No message was sent to it.
    const NONE: Waiting = Waiting { now: 0, most: 0 };

    /// One is sent to it; None where their number has no value in u64.
    fn with_one(self) -> Option<Waiting>
        ensures { MatchOption result (self.now ≡ 2 ^ 64 - 1)
            (λ waiting. waiting_in waiting ≡ one_comes (waiting_in self)) }
    {
        let now = self.now.checked_add(1)?;
        Some(Waiting {
            now,
            most: self.most.max(now),
        })
    }

    /// It receives one, where one is waiting.
    fn without_one(self) -> Waiting
        ensures { waiting_in result ≡ one_goes (waiting_in self) }
    {
        Waiting {
            now: self.now.saturating_sub(1),
            most: self.most,
        }
    }
}

/// What is counted of one process.
#[derive(Clone, Copy)]
pub struct ProcessRow {
    pub calls: u64,
    pub sent: u64,
    pub received: u64,
    pub waiting: Waiting,
}

impl ProcessRow {
    ghost use Rattle.trace_views.specs.Rows.{counts_of_process, no_process_counts, process_counts_with, process_counts_sent_to};

    /// No message told of it.
    pub fn new() -> ProcessRow
        ensures { counts_of_process result ≡ no_process_counts }
    {
        ProcessRow {
            calls: 0,
            sent: 0,
            received: 0,
            waiting: Waiting::NONE,
        }
    }

    /// With one message of this kind more; None where a count has no value in u64.
    pub fn with(self, kind: &str) -> Option<ProcessRow>
        ensures { IfSome result (λ row.
            counts_of_process row ≡ process_counts_with kind.now (counts_of_process self)) }
    {
        let is_sent = kind == "send" || kind == "send_lost";
        let is_received = kind == "receive";
        Some(ProcessRow {
            calls: self.calls.checked_add(u64::from(kind == "call"))?,
            sent: self.sent.checked_add(u64::from(is_sent))?,
            received: self.received.checked_add(u64::from(is_received))?,
            waiting: if is_received {
                self.waiting.without_one()
            } else {
                self.waiting
            },
        })
    }

    /// With one message more that is sent to it; None where a count has no value in u64.
    pub fn sent_to(self) -> Option<ProcessRow>
        ensures { IfSome result (λ row.
            counts_of_process row ≡ process_counts_sent_to (counts_of_process self)) }
    {
        Some(ProcessRow {
            waiting: self.waiting.with_one()?,
            ..self
        })
    }
}
