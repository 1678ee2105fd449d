//! A request that reads an entry stream from standard input: the stream is recorded, and the request served over that trace.
ghost use Rattle.std.specs.Prelude.{◌≡◌, ◌↔◌, IsTrue};
ghost use Rattle.stores.specs.Events.{World};
ghost use Rattle.command_line.specs.Inputs.{IsInput};
ghost use Rattle.prepared_requests.specs.Input.{ReadsInput, all_rules, of_recorded, told_of_input, told_recorded, IsStored, WasRecorded, ServesRecorded, ServesInput};

use crate::input_folder::{enter, leave, tell_entered};
use command_line::{Asked, Ending, Flushing, Form, Rules, Shape, Shown, TraceRequest, Wanted};
use commands::serve_files;
use faults::{Advice, Complaint};
use shown_listings::Output;
use std::io::{self, Read};
use std::sync::Wait;
use trace_lookup::has_bytes;

/// What stands for standard input, and is the name of the trace that it is recorded as.
const INPUT: &str = "-";

/// The most bytes of a message that a trace keeps.
const LONGEST: u32 = 256 << 20;

/// Whether an entry stream from standard input is read in the place of a trace.
pub fn reads_input(request: &TraceRequest<'_>) -> bool
    ensures { IsTrue result ↔ ReadsInput request.now }
{
    match request {
        TraceRequest::List {
            asked,
            is_pretty: _,
        }
        | TraceRequest::Export(asked)
        | TraceRequest::Fold(asked)
        | TraceRequest::Draw(asked)
        | TraceRequest::Salvage { asked, form: _ }
        | TraceRequest::Info { asked, is_json: _ }
        | TraceRequest::Top {
            asked,
            ranking: _,
            is_json: _,
        } => asked.is_input(),
        _ => false,
    }
}

/// The trace that standard input is recorded as.
fn wanted() -> Wanted<'static>
    ensures { IsInput result.asked }
{
    Wanted {
        asked: Asked {
            base: INPUT,
            shape: Some(Shape::File),
            suffix: None,
            count: None,
        },
        size: None,
        time: None,
        is_after_failure: false,
    }
}

/// All of it is recorded, and it is read when it is written.
fn rules() -> Rules
    ensures { result ≡ all_rules }
{
    Rules {
        skip: 0,
        longest: LONGEST,
        flushing: Flushing::Never,
        ending: Ending::Seal,
    }
}

/// What is asked of the trace that was recorded: a salvage finds one whole trace, and takes it as it is.
fn over_recorded(request: TraceRequest<'_>) -> TraceRequest<'_>
    ensures { result ≡ of_recorded request.entry }
{
    match request {
        TraceRequest::Salvage {
            asked,
            form: Form::Stream,
        } => TraceRequest::Export(asked),
        TraceRequest::Salvage {
            asked,
            form: Form::Lines { is_pretty },
        } => TraceRequest::List { asked, is_pretty },
        other => other,
    }
}

/// What is told of a fault of the recording: not how an import goes on, since its trace doesn't stay.
fn without_going_on(complaint: Complaint) -> Complaint
    ensures { result ≡ told_of_input complaint }
{
    match complaint {
        Complaint::Fault {
            fault,
            advice: Some(
                Advice::GoesOn { kept: _ }
                | Advice::DiskFailed { kept: _ }
                | Advice::Full { kept: _ },
            ),
        } => Complaint::from(fault),
        other => other,
    }
}

/// The same of how it ended. Where a file couldn't be written, standard error says in which folder.
fn told(rt: &HostRuntime, recorded: Result<(), Complaint>) -> Result<(), Complaint>
    ensures { result ≡ told_recorded recorded }
{
    match recorded {
        Ok(()) => Ok(()),
        Err(complaint) => {
            if complaint.names_file() {
                tell_entered(rt);
            }
            Err(without_going_on(complaint))
        }
    }
}

/// Whether there is a trace of it.
fn is_recorded(rt: &HostRuntime) -> bool {
    has_bytes(rt, INPUT)
}

/// Does what writes a trace, and lets go of what that tells of itself.
fn store<R: Wait, I: Read + Drop>(
    rt: &HostRuntime,
    waiter: &R,
    request: TraceRequest<'static>,
    input: I,
) -> Result<(), Complaint>
    ghost world: { World }
    ensures { IsStored world request.entry (I.remaining input) result }
{
    let mut told = Vec::new(rt.alloc());
    let shown = Shown::of(None);
    let (done, left) = serve_files(rt, waiter, request, shown, input, &mut told);
    drop(left);
    drop(told);
    done
}

/// Records an entry stream. One without a byte is a trace without an entry.
fn record<R: Wait, I: Read + Drop>(rt: &HostRuntime, waiter: &R, input: I) -> Result<(), Complaint>
    ghost world: { World }
    ensures { WasRecorded world (I.remaining input) result }
{
    let wanted = wanted();
    let rules = rules();
    let import = TraceRequest::Import { wanted, rules };
    let imported = store(rt, waiter, import, input);
    if imported.is_err() || is_recorded(rt) {
        return imported;
    }
    drop(imported);
    store(rt, waiter, TraceRequest::Record(wanted), io::empty())
}

/// Does what is asked over what was recorded, where there is a trace of it; the first fault is told.
fn serve_recorded<R: Wait, W: Output>(
    rt: &HostRuntime,
    waiter: &R,
    recorded: Result<(), Complaint>,
    request: TraceRequest<'_>,
    shown: Shown,
    output: &mut W,
) -> Result<(), Complaint>
    ghost world: { World }
    ensures { ServesRecorded world recorded request.entry shown (W.contents output.old)
        (W.contents output.new) result }
{
    if recorded.is_err() && !is_recorded(rt) {
        return recorded;
    }
    let request = over_recorded(request);
    let (done, left) = serve_files(rt, waiter, request, shown, io::empty(), output);
    drop(left);
    recorded.and(done)
}

/// Records an entry stream where the program works, and does what is asked over that.
fn record_and_serve<R: Wait, I: Read + Drop, W: Output>(
    rt: &HostRuntime,
    waiter: &R,
    request: TraceRequest<'_>,
    shown: Shown,
    input: I,
    output: &mut W,
) -> Result<(), Complaint>
    ghost world: { World }
    ensures { ServesInput world request.entry shown (I.remaining input) (W.contents output.old)
        (W.contents output.new) result }
{
    let recorded = told(rt, record(rt, waiter, input));
    serve_recorded(rt, waiter, recorded, request, shown, output)
}

/// Does over an entry stream what is asked of a trace: it is recorded in a folder of its own, which is removed when that is done.
pub fn serve_input<R: Wait, I: Read + Drop, W: Output>(
    rt: &HostRuntime,
    waiter: &R,
    request: TraceRequest<'_>,
    shown: Shown,
    input: I,
    output: &mut W,
) -> Result<(), Complaint>
    ghost world: { World }
    ensures { ServesInput world request.entry shown (I.remaining input) (W.contents output.old)
        (W.contents output.new) result }
{
    let folder = enter(rt)?;
    let done = record_and_serve(rt, waiter, request, shown, input, output);
    leave(rt, folder.as_str());
    drop(folder);
    done
}
