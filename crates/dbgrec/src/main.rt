//! Records traces as `dbg` of Erlang does, and lists what a crash has left of them.
//!
//! The program hands each request of its command line to the crate that does it, and ends with an exit status. `serve` does what
//! a request asks (`IsServed`), of the processes that had the names in it (`IsPrepared`): with the files of a trace
//! (`ServesFiles`, `ListsFiles`, `FollowsFiles`), a stream in their place (`ServesInput`) or one that is imported
//! (`ImportsFiles`), with a stream of entries as a node writes it (`ListsStream`), or with a script over a store in memory
//! (`IsRun`). `run` does so for what the words ask, or tells that they are no command line (`Answers`). The exit status of
//! `serve_words` is that of what was done, or of such words, or 1 where there was no memory to ask (`Ends`). These contracts
//! speak of some files, input and words: that they are the program's own is to be read in the code. Which words ask for what has
//! no contract (`asked_for`), nor has `main`, which takes the system's words, input and output. docs/PROOFS.md has the way from
//! each command to its clauses.
#![tactic(auto)]

ghost use Rattle.std.specs.Prelude.{◌≡◌, Result};
ghost use Rattle.std.specs.Process.{exit_status};
ghost use Rattle.stores.specs.Events.{World};
ghost use Rattle.dbgrec.specs.Serving.{ServesAsked, IsDone, IsServed};
ghost use Rattle.dbgrec.specs.Statuses.{EndsSo, Answers, Ends};

use command_line::{Misuse, Request, Shown, TraceRequest, asked_for};
use commands::{StreamListing, follow_files, list_files, serve_files};
use faults::{Complaint, Reasons, code_of, correct, no_memory};
use prepared_requests::{
    import_files, reads_input, serve_input, table_asked, tell_salvage, with_names,
};
use shown_listings::{Inlet, Outlet, Output, show};
use simulator::serve_sim;
use std::cell::Cell;
use std::io::{ErrorKind, Read};
use std::process::ExitCode;
use std::sync::Wait;
use std::{env, io};

/// Does what is asked of a trace.
fn serve_asked<R: Wait, I: Read + Drop, W: Output>(
    rt: &HostRuntime,
    waiter: &R,
    request: TraceRequest<'_>,
    shown: Shown,
    input: I,
    output: &mut W,
) -> Result<(), Complaint>
    ghost world: { World }
    ensures { ServesAsked world request.entry shown (I.remaining input) (W.contents output.old)
        (W.contents output.new) result }
{
    if reads_input(&request) {
        return serve_input(rt, waiter, request, shown, input, output);
    }
    match request {
        TraceRequest::Import { wanted, rules } => {
            import_files(rt, wanted, rules, &shown, input, output).0
        }
        request => serve_files(rt, waiter, request, shown, input, output).0,
    }
}

/// Does what is asked for, as it is.
fn serve_prepared<R: Wait, I: Read + Drop, W: Output>(
    rt: &HostRuntime,
    waiter: &R,
    request: Request<'_>,
    input: I,
    output: &mut W,
) -> Result<(), Complaint>
    ghost world: { World }
    ensures { IsDone world request.entry (I.remaining input) (W.contents output.old)
        (W.contents output.new) result }
{
    match request {
        Request::Follow {
            asked,
            is_pretty,
            shown,
        } => follow_files(rt, waiter, asked, is_pretty, shown, input, output).0,
        Request::Sim => serve_sim(rt.alloc(), input, output),
        Request::Stream {
            is_pretty,
            longest,
            shown,
        } => {
            let listing = StreamListing {
                alloc: rt.alloc(),
                is_pretty,
                longest,
            };
            show(rt, waiter, listing, shown, input, output).0
        }
        Request::OfTrace { request, shown } => {
            serve_asked(rt, waiter, request, shown, input, output)
        }
        Request::Listing { request, shown } => {
            list_files(rt, waiter, request, shown, input, output).0
        }
    }
}

/// Does what is asked for, of the processes that have the names in it.
fn serve<R: Wait, I: Read + Drop, W: Output>(
    rt: &HostRuntime,
    waiter: &R,
    request: Request<'_>,
    input: I,
    output: &mut W,
) -> Result<(), Complaint>
    ghost world: { World }
    ensures { IsServed world request.entry (I.remaining input) (W.contents output.old)
        (W.contents output.new) result }
{
    let request = with_names(rt, request)?;
    serve_prepared(rt, waiter, request, input, output)
}

fn words(rt: &HostRuntime) -> io::Result<Vec<String>> {
    Ok(env::args(rt)?.collect(rt.alloc())?)
}

/// Does what is asked for, with standard input.
fn answer<R: Wait>(
    rt: &HostRuntime,
    waiter: &R,
    request: Request<'_>,
    output: &mut Outlet,
) -> ExitCode
    ghost world: { World }
    ensures { EndsSo world request.entry (exit_status result) }
{
    let unread = Cell::new(None);
    let table = table_asked(&request);
    let done = serve(rt, waiter, request, Inlet::over(rt, &unread), output);
    let reasons = Reasons {
        unread: unread.get(),
        unwritten: output.reason(),
    };
    let code = code_of(rt, &done, reasons);
    tell_salvage(rt, table, &done);
    drop(done);
    code
}

/// Does what the words of the command line ask for.
fn run<R: Wait>(rt: &HostRuntime, waiter: &R, words: &[String], output: &mut Outlet) -> ExitCode
    ghost world: { World }
    ensures { (asked : Result Request Misuse) × Answers world asked (exit_status result) }
{
    match asked_for(rt.alloc(), words) {
        Ok(request) => answer(rt, waiter, request, output),
        Err(misuse) => correct(rt, rt.alloc(), misuse),
    }
}

/// Does what the words ask for, with standard output.
fn serve_words<R: Wait>(rt: &HostRuntime, waiter: &R, words: &[String]) -> ExitCode
    ghost world: { World }
    ensures { Ends world (exit_status result) }
{
    let Some(mut output) = Outlet::new(rt).ok() else {
        return no_memory(rt);
    };
    let code = run(rt, waiter, words, &mut output);
    drop(output);
    code
}

fn main(rt: HostRuntime) -> ExitCode {
    let words = match words(&rt) {
        Ok(words) => words,
        Err(reason) if reason.kind() == ErrorKind::OutOfMemory => return no_memory(&rt),
        Err(_) => return correct(&rt, rt.alloc(), Misuse::NotText),
    };
    let code = serve_words(&rt, &rt, words.as_slice());
    drop(words);
    code
}
