//! The files of the trace that a command line asks for.
ghost use Rattle.std.specs.Prelude.{◌≡◌, IfOk, OnOk, IfErr};
ghost use Rattle.stores.specs.Events.{World};
ghost use Rattle.trace_lookup.specs.Finding.{IsFound};
ghost use Rattle.faults.specs.Complaints.{status_told};
ghost use Rattle.commands.specs.{Commands.IsFree, Commands.IsLocked, Serving.AreMade, Sites.AgreesOn, Sites.IsOfCounts, Sites.IsWhyNotFound, Sites.HasFiles};

use crate::crowded::check_room;
use crate::files::Files;
use crate::state::is_closed;
use command_line::{Asked, Form, TraceRequest, Wanted};
use faults::{Complaint, FAILED_DISK, tell_idle, tell_idle_on_file, wrap_around};
use std::alloc::Global;
use trace_lookup::{Found, Place, find};

/// The files of the trace that is asked for: locked, where they are to be changed. Standard error says what is worth
/// knowing of it.
pub fn files_for<'a>(rt: &HostRuntime, request: &TraceRequest<'a>) -> Result<Files<'a>, Complaint>
    ghost world: { World }
    ensures made { IfOk result (AreMade world request.now) }
    ensures refused { IfErr result (λ complaint. status_told complaint ≡ 1) }
{
    match request {
        TraceRequest::Record(wanted) | TraceRequest::Import { wanted, rules: _ } => {
            files_to_write(rt, wanted, request)
        }
        TraceRequest::List {
            asked,
            is_pretty: _,
        }
        | TraceRequest::Export(asked)
        | TraceRequest::Fold(asked)
        | TraceRequest::Draw(asked)
        | TraceRequest::Salvage { asked, form: _ }
        | TraceRequest::Info { asked, is_json: _ }
        | TraceRequest::Top {
            asked,
            ranking: _,
            is_json: _,
        } => files_to_read(rt, *asked, request),
        TraceRequest::Wipe {
            asked,
            is_forced: _,
        } => files_to_wipe(rt, *asked),
    }
}

/// The command that does what is asked.
fn command_of(request: &TraceRequest<'_>) -> &'static str {
    match request {
        TraceRequest::Record(_) => "record",
        TraceRequest::Import { .. } => "import",
        TraceRequest::List { .. } => "list",
        TraceRequest::Export(_) | TraceRequest::Fold(_) | TraceRequest::Draw(_) => "export",
        TraceRequest::Salvage { asked: _, form } => match form {
            Form::Lines { is_pretty: _ } => "list",
            Form::Stream => "export",
        },
        TraceRequest::Info { .. } => "info",
        TraceRequest::Top { .. } => "top",
        TraceRequest::Wipe { .. } => "wipe",
    }
}

/// Refuses a closed file that is one of a wrap, which the wrap takes in its turn.
fn check_alone(
    rt: &HostRuntime,
    name: &str,
    found: &Found,
    request: &TraceRequest<'_>,
) -> Result<(), Complaint>
    ensures { IfErr result (λ complaint. status_told complaint ≡ 1) }
{
    if !matches!(found, Found::File) || !is_closed(rt, name).unwrap_or(false) {
        return Ok(());
    }
    let advice = wrap_around(rt, name, command_of(request))?;
    if advice.is_none() {
        return Ok(());
    }
    Err(Complaint::Absent {
        name: String::from_str(rt.alloc(), name)?,
        advice,
    })
}

/// Refuses a count of the command line that isn't what the files say.
fn check_count(alloc: Global, asked: &Asked<'_>, found: &Found) -> Result<(), Complaint>
    ensures agrees { OnOk result (AgreesOn asked.now found.now) }
    ensures differs { IfErr result (IsOfCounts asked.now found.now) }
{
    match (found.count(), asked.count) {
        (Some(own), Some(given)) if own != given => Err(Complaint::Differs {
            name: String::from_str(alloc, asked.base)?,
            given,
            own,
        }),
        _ => Ok(()),
    }
}

/// What was found of a trace that the command line names. What the files say of themselves counts, and what the command
/// line says has to agree.
fn found_to_read(rt: &HostRuntime, asked: Asked<'_>) -> Result<Found, Complaint>
    ensures found { IfOk result (IsFound asked.entry.shape) }
    ensures agrees { IfOk result (AgreesOn asked.entry) }
    ensures why_not { IfErr result (IsWhyNotFound asked.entry) }
    ensures refused { IfErr result (λ complaint. status_told complaint ≡ 1) }
{
    let found = find(*rt, asked)?;
    check_count(rt.alloc(), &asked, &found)?;
    if matches!(found, Found::File) {
        tell_idle_on_file(rt, &asked);
    }
    Ok(found)
}

/// A trace to be read. Where a sync of it failed, standard error says so.
fn files_to_read<'a>(
    rt: &HostRuntime,
    asked: Asked<'a>,
    request: &TraceRequest<'_>,
) -> Result<Files<'a>, Complaint>
    ghost world: { World }
    ensures files { HasFiles (IsFree world) asked.entry result }
    ensures agrees { IfOk result (λ files. AgreesOn asked.entry files.found) }
{
    let found = found_to_read(rt, asked)?;
    check_alone(rt, asked.base, &found, request)?;
    let files = Files::at(*rt, asked, found)?;
    if files.has_failed()? {
        let _ = eprintln!(rt; "dbgrec: {FAILED_DISK}");
    }
    Ok(files)
}

/// A trace to be cleared.
fn files_to_wipe<'a>(rt: &HostRuntime, asked: Asked<'a>) -> Result<Files<'a>, Complaint>
    ghost world: { World }
    ensures files { HasFiles (IsLocked world) asked.entry result }
    ensures agrees { IfOk result (λ files. AgreesOn asked.entry files.found) }
{
    let found = found_to_read(rt, asked)?;
    check_room(rt, &Place::of(&asked, &found))?;
    Files::locked_at(*rt, asked, found)
}

/// A trace to be written. It is refused where a sync failed before, unless the command line says otherwise.
fn files_to_write<'a>(
    rt: &HostRuntime,
    wanted: &Wanted<'a>,
    request: &TraceRequest<'_>,
) -> Result<Files<'a>, Complaint>
    ghost world: { World }
    ensures files { HasFiles (IsLocked world) wanted.now.asked result }
{
    let asked = wanted.asked;
    let found = find(*rt, asked)?;
    check_alone(rt, asked.base, &found, request)?;
    let place = Place::of(&asked, &found);
    check_room(rt, &place)?;
    tell_idle(rt, wanted, place.kind);
    let files = Files::locked_at(*rt, asked, found)?;
    if !wanted.is_after_failure && files.has_failed()? {
        return Err(Complaint::AfterFailure);
    }
    Ok(files)
}
