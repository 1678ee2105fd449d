//! What messages tell of the calls of processes.

ghost use Rattle.std.specs.Prelude.{◌≡◌};
ghost use Rattle.trace_text.specs.MessageFacts.{as_told};
ghost use Rattle.trace_views.specs.Acts.{act_of, seen_act};

use trace_text::MessageFacts;

/// What a process does.
#[derive(Clone, Copy)]
pub enum Act<'t> {
    /// It calls a function.
    Call {
        process: &'t [u8],
        function: &'t [u8],
    },
    /// It returns from one, or leaves it by an exception.
    Return {
        process: &'t [u8],
        function: &'t [u8],
    },
    /// It is back in one that it called.
    ReturnTo {
        process: &'t [u8],
        function: &'t [u8],
    },
    /// It ends.
    Exit {
        process: &'t [u8],
    },
    /// Messages were lost, or one isn't read: of no process is it known any more which calls are open.
    Loss,
    /// Nothing of these.
    Other,
}

/// What a message tells of the calls of a process.
pub fn act_of<'t>(facts: &MessageFacts<'t>) -> Act<'t>
    ensures { seen_act result ≡ act_of (as_told facts.now) }
{
    let Some(process) = facts.tracee else {
        return Act::Other;
    };
    if facts.kind == "exit" {
        return Act::Exit { process };
    }
    let Some(function) = facts.function else {
        return Act::Other;
    };
    if facts.kind == "call" {
        return Act::Call { process, function };
    }
    if facts.kind == "return" || facts.kind == "exception" {
        return Act::Return { process, function };
    }
    if facts.kind == "return_to" {
        return Act::ReturnTo { process, function };
    }
    Act::Other
}
