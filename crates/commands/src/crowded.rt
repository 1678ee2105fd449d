//! More files of a trace than may be open at once.
ghost use Rattle.std.specs.Prelude.{◌≡◌, None, IfOk, IfErr, IfSome};
ghost use Rattle.script_runner.specs.declared.fault.SimFault.TheVariants as faults;
ghost use Rattle.faults.specs.Complaints.{status_told};
ghost use Rattle.stores.specs.FolderStore.{fault_of};
ghost use Rattle.commands.specs.Naming.{NotCrowded, TellsAt};

use faults::Complaint;
use script_runner::Refusal;
use std::alloc::{AllocError, Global};
use stores::FolderStore;
use trace_lookup::{Crowded, Place, is_crowded, is_too_many};

/// Refuses a trace of more files than may be open at once, before one is changed.
pub fn check_room(rt: &HostRuntime, place: &Place<'_>) -> Result<(), Complaint>
    ensures { IfErr result (λ complaint. status_told complaint ≡ 1) }
{
    let files = place.files();
    match is_crowded(rt, files)? {
        None => Ok(()),
        Some(Crowded { file, reason }) => Err(Complaint::TooManyOpen {
            name: place.name(rt.alloc(), file)?,
            files,
            reason,
        }),
    }
}

/// What is told of a refusal where too many files are open for one more of the trace's.
pub fn crowded(
    alloc: Global,
    place: &Place<'_>,
    store: &FolderStore,
    refusal: Refusal,
) -> Result<Option<Complaint>, AllocError>
    ensures crowded { IfOk result (λ found. IfSome found
        (TellsAt place.now store.now (faults.Refused refusal))) }
    ensures none { IfOk result (λ found. found ≡ None → NotCrowded (fault_of store.now) refusal) }
{
    let Some(fault) = store.last_fault() else {
        return Ok(None);
    };
    if !refusal.is_of_device() || !is_too_many(fault.reason) {
        return Ok(None);
    }
    Ok(Some(Complaint::TooManyOpen {
        name: place.name(alloc, fault.file)?,
        files: place.files(),
        reason: fault.reason,
    }))
}
