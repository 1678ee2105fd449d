//! The processes that a request asks for by their registered names.

ghost use Rattle.std.specs.Prelude.{◌≡◌, ◌||◌, map, string_bytes, IfErr, IfOk, Ok, OnOk, false};
ghost use Rattle.std.specs.List.{list_any};
ghost use Rattle.stores.specs.Events.{World};
ghost use Rattle.trace_text.specs.Choosing.{asks_of};
ghost use Rattle.faults.specs.Complaints.{status_told};
ghost use Rattle.commands.specs.Sites.{asked_in};
ghost use Rattle.prepared_requests.specs.Names.{choice_meant, has_names, holding_of, is_name};
ghost use Rattle.prepared_requests.specs.NamesLooked.{AreLookedUp, IsNamed, IsPrepared, IsShownNamed, are_names_asked, choice_in};

use crate::holder::{Holder, is_name, name_processes, names_in};
use crate::looking::see_names;
use command_line::{Asked, Request, Shown, TraceRequest};
use faults::Complaint;
use std::alloc::AllocError;
use trace_lookup::Shown as Told;
use trace_text::Choice;

/// What a request says of where its trace is.
fn asked_in<'a>(request: &TraceRequest<'a>) -> Asked<'a>
    ensures { result ≡ asked_in request.now }
{
    match request {
        TraceRequest::Record(wanted) | TraceRequest::Import { wanted, rules: _ } => wanted.asked,
        TraceRequest::List {
            asked,
            is_pretty: _,
        }
        | TraceRequest::Export(asked)
        | TraceRequest::Fold(asked)
        | TraceRequest::Draw(asked)
        | TraceRequest::Salvage { asked, form: _ }
        | TraceRequest::Info { asked, is_json: _ }
        | TraceRequest::Top {
            asked,
            ranking: _,
            is_json: _,
        }
        | TraceRequest::Wipe {
            asked,
            is_forced: _,
        } => *asked,
    }
}

/// Whether one of the texts is a name.
fn has_name(texts: &[String]) -> bool
    ensures { result ≡ list_any is_name (map string_bytes texts.now) }
{
    texts.iter().any(|text| is_name(text.as_str()))
}

/// Whether a choice has names.
fn has_names(choice: &Choice) -> bool
    ensures { result ≡ has_names (asks_of choice.now) }
{
    has_name(&choice.only.pids) || has_name(&choice.not.pids)
}

/// Says which of the texts are names still, since no process is told to be registered under them.
fn tell_unknown(rt: &HostRuntime, trace: &str, texts: &[String]) {
    for text in texts {
        if is_name(text.as_str()) {
            let (trace, name) = (Told(trace), Told(text.as_str()));
            let _ = eprintln!(rt;
                "dbgrec: {trace}: no register message names {name}: trace with the flag procs to have those"
            );
        }
    }
}

/// Puts the processes in the place of their names, and says of which there is none.
fn put_processes(
    rt: &HostRuntime,
    trace: &str,
    choice: &mut Choice,
    holders: &[Holder],
) -> Result<(), AllocError>
    ensures { OnOk result (asks_of choice.new
        ≡ choice_meant (map holding_of holders.now) (asks_of choice.old)) }
{
    name_processes(rt.alloc(), choice, holders)?;
    tell_unknown(rt, trace, &choice.only.pids);
    tell_unknown(rt, trace, &choice.not.pids);
    Ok(())
}

/// Looks up the names of a choice that has some.
fn look_up(rt: &HostRuntime, asked: Asked<'_>, choice: &mut Choice) -> Result<(), AllocError>
    ghost world: { World }
    ensures { OnOk result (AreLookedUp world asked.entry choice.old choice.new) }
{
    let names = names_in(rt.alloc(), choice)?;
    match see_names(rt, asked, names)? {
        Some(seen) => put_processes(rt, asked.base, choice, &seen.holders),
        None => Ok(()),
    }
}

/// Looks up the names in a choice, where there are some.
fn look_up_any(
    rt: &HostRuntime,
    asked: Asked<'_>,
    choice: &mut Option<Choice>,
) -> Result<(), AllocError>
    ghost world: { World }
    ensures looked_up { OnOk result (IsNamed world asked.entry choice.old choice.new) }
    ensures none { are_names_asked choice.old ≡ false
        → (result ≡ Ok tt) × (choice.new ≡ choice.old) }
{
    match choice {
        Some(choice) if has_names(choice) => look_up(rt, asked, choice),
        _ => Ok(()),
    }
}

/// The same, of what is shown of a trace.
fn shown_with_names(rt: &HostRuntime, asked: Asked<'_>, shown: Shown) -> Result<Shown, AllocError>
    ghost world: { World }
    ensures named { IfOk result (IsShownNamed world asked.entry shown) }
    ensures unnamed { are_names_asked shown.choice ≡ false → result ≡ Ok shown }
{
    let mut shown = shown;
    look_up_any(rt, asked, &mut shown.choice)?;
    Ok(shown)
}

/// A request whose registered names are looked up in its trace, which is read for that where there are some: each stands for the
/// processes that had it. A name that no message tells stays, and standard error says so; all stay where the trace isn't read.
pub fn with_names<'a>(rt: &HostRuntime, request: Request<'a>) -> Result<Request<'a>, Complaint>
    ghost world: { World }
    ensures named { IfOk result (IsPrepared world request.entry) }
    ensures unnamed { are_names_asked (choice_in request.entry) ≡ false
        → result ≡ Ok request.entry }
    ensures refused { IfErr result (λ complaint. status_told complaint ≡ 1) }
{
    match request {
        Request::Follow {
            asked,
            is_pretty,
            shown,
        } => {
            let shown = shown_with_names(rt, asked, shown)?;
            Ok(Request::Follow {
                asked,
                is_pretty,
                shown,
            })
        }
        Request::OfTrace { request, shown } => {
            let shown = shown_with_names(rt, asked_in(&request), shown)?;
            Ok(Request::OfTrace { request, shown })
        }
        Request::Listing { request, shown } => {
            let shown = shown_with_names(rt, asked_in(&request), shown)?;
            Ok(Request::Listing { request, shown })
        }
        Request::Sim | Request::Stream { .. } => Ok(request),
    }
}
