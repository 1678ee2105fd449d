//! A trace that isn't begun, waited for.
ghost use Rattle.std.specs.Prelude.{◌≡◌, IfErr};
ghost use Rattle.faults.specs.Complaints.{status_told};

use crate::state::is_open;
use command_line::Asked;
use faults::{Complaint, in_the_way};
use foreign_files::{Standing, look};
use std::alloc::AllocError;
use std::io::ErrorKind;
use std::sync::Wait;
use std::thread;
use std::time::Duration;
use stores::FolderStore;
use trace_lookup::{Place, Shown, find};

/// Milliseconds between two looks.
const PAUSE: u64 = 100;

/// Whether no file of a place is open.
fn is_blank(rt: &HostRuntime, place: &Place<'_>) -> Result<bool, AllocError> {
    for file in 0..place.files() {
        let name = place.name(rt.alloc(), file)?;
        match is_open(rt, name.as_str()) {
            Ok(false) => {}
            Err(reason) if reason.kind() == ErrorKind::OutOfMemory => return Err(AllocError),
            _ => return Ok(false),
        }
    }
    Ok(true)
}

/// Whether the files of a place are those that a trace may have left, as far as they can be looked at.
fn is_own(rt: &HostRuntime, place: &Place<'_>) -> Result<bool, AllocError> {
    let mut store = FolderStore::over(*rt, place.names(rt.alloc())?)?;
    Ok(matches!(look(&mut store), Ok(Standing::Absent | Standing::Ours)))
}

/// Whether nothing stands in the way of the first file of a place.
fn is_free(rt: &HostRuntime, place: &Place<'_>) -> Result<bool, AllocError> {
    let name = place.name(rt.alloc(), 0)?;
    let advice = in_the_way(rt, name.as_str())?;
    let is_free = advice.is_none();
    drop(advice);
    Ok(is_free)
}

/// Whether no trace is begun, and nothing stands in the way of one.
fn is_to_begin(rt: &HostRuntime, place: &Place<'_>) -> Result<bool, AllocError> {
    Ok(is_free(rt, place)? && is_blank(rt, place)? && is_own(rt, place)?)
}

/// Waits until a trace is begun, or something else stands where it is asked for. Standard error says that it waits. Answers
/// whether it did.
pub fn await_trace<R: Wait>(
    rt: &HostRuntime,
    waiter: &R,
    asked: &Asked<'_>,
) -> Result<bool, Complaint>
    ensures { IfErr result (λ complaint. status_told complaint ≡ 1) }
{
    let mut is_told = false;
    for _ in waiter.forever() {
        let found = find(*rt, *asked)?;
        if !is_to_begin(rt, &Place::of(asked, &found))? {
            return Ok(is_told);
        }
        if !is_told {
            let name = Shown(asked.base);
            let _ = eprintln!(rt; "dbgrec: {name} isn't begun: waiting for it");
            is_told = true;
        }
        thread::sleep(rt, Duration::from_millis(PAUSE));
    }
    unreachable!()
}
