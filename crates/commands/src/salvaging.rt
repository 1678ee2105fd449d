//! What each open file of a trace holds by itself, whether or not the trace is refused.
ghost use Rattle.std.specs.Prelude.{◌≡◌, ◌⊎◌, IsErr, IfErr, IfOk};
ghost use Rattle.trace_store.specs.Moments.{Rose};
ghost use Rattle.stores.specs.FolderStore.{reads_of, failures_of};
ghost use Rattle.faults.specs.Complaints.{status_told};
ghost use Rattle.trace_client.specs.Forms.{Form as Written};
ghost use Rattle.trace_listings.specs.WritesOut.{form_of};
ghost use Rattle.commands.specs.{Files.LooksOver, Commands.IsWrittenAs, Naming.IsToldAt, Salvaging.most_to_salvage, Salvaging.TellsSum, Salvaging.IsSalvage, Telling.IsOfMemory};

use crate::absence::is_absent;
use crate::commands::{chosen, style, written_out};
use crate::files::Files;
use crate::informing::told;
use crate::stage::Stage;
use command_line::{Form, Shown};
use faults::{Complaint, Salvage};
use std::alloc::AllocError;
use std::io::Write;
use trace_listings::{OutputForm, Salvaged, Watched};
use trace_reader::{Host, ReadFault};

/// How entries are written.
fn output_form(form: Form, shown: &Shown) -> OutputForm<'_>
    ensures { IsWrittenAs form shown.now (form_of result) }
{
    match form {
        Form::Lines { is_pretty } => OutputForm::Lines(style(is_pretty, shown)),
        Form::Stream => OutputForm::Stream(chosen(shown)),
    }
}

/// What a salvage came to, of which so many entries are shown.
fn summary(files: &Files<'_>, salvaged: &Salvaged, shown: u64) -> Result<Complaint, AllocError>
    ensures told { IfOk result (TellsSum salvaged.now) }
    ensures status { IfOk result (λ complaint. status_told complaint ≡ 1) }
{
    Ok(Complaint::Salvaged(Salvage {
        files: salvaged.files,
        entries: salvaged.entries,
        shown,
        missing: salvaged.missing,
        passed: files.passed_over()?,
    }))
}

/// The same, also where there is no memory for it.
fn summary_at_least(files: &Files<'_>, salvaged: &Salvaged, shown: u64) -> Complaint
    ensures told { TellsSum salvaged.now result ⊎ IsOfMemory result }
    ensures status { status_told result ≡ 1 }
{
    match summary(files, salvaged, shown) {
        Ok(complaint) => complaint,
        Err(fault) => Complaint::from(fault),
    }
}

/// Writes what each open file holds by itself. It never succeeds: what is written isn't the trace.
pub fn salvage<W: Write, H: Host>(
    files: &mut Files<'_>,
    form: Form,
    shown: &Shown,
    watched: &mut Watched<'_, W, H>,
) -> Result<(), Complaint>
    ensures salvage { (out : Written) × IsWrittenAs form shown.now out
        × LooksOver files.old.store files.new.store (most_to_salvage (reads_of files.old.store))
        (IfErr result (IsSalvage out (IsToldAt files.old.place files.new.store)
        (Rose (failures_of files.old.store) (failures_of files.new.store))
        (reads_of files.old.store) (W.contents watched.old.writer.now)
        (W.contents watched.new.writer.now))) }
    ensures never { IsErr result }
    ensures status { IfErr result (λ complaint. status_told complaint ≡ 1) }
{
    let done = trace_listings::salvage(
        files.alloc(),
        output_form(form, shown),
        &mut files.store,
        watched,
    );
    let flushed = watched.flush();
    watched.host.clear();
    match done {
        Ok(salvaged) => match written_out(flushed) {
            Ok(()) => {
                if is_absent(&mut files.store, salvaged.files) {
                    Err(told(files, ReadFault::Absent, Stage::Other))
                } else {
                    Err(summary_at_least(files, &salvaged, watched.shown()))
                }
            }
            Err(complaint) => Err(complaint),
        },
        Err(fault) => Err(told(files, fault, Stage::Other)),
    }
}
