//! A trace is told in numbers.
ghost use Rattle.std.specs.Prelude.{◌≡◌, ◌*◌, ◌⊎◌, IfOk, IfErr};
ghost use Rattle.stores.specs.FolderStore.{reads_of};
ghost use Rattle.faults.specs.{Complaints.status_told, Faults.read_fault};
ghost use Rattle.commands.specs.{Files.CallsToTell, Files.OnlyLooks, Files.LooksOver, Informing.most_to_sum, Informing.most_to_gather, Informing.most_to_inform, Informing.IsGathered, Informing.IsInfo, Naming.IsToldAt};
ghost use Rattle.script_runner.specs.declared.fault.SimFault.TheVariants as faults;

use crate::files::Files;
use crate::stage::Stage;
use faults::{Complaint, fault_of_reading};
use script_runner::SimFault;
use std::alloc::{AllocError, Global};
use std::io::{self, Write};
use trace_listings::Watched;
use trace_reader::{Host, ReadFault};
use trace_summary::{Info, TraceSummary, sum_up_trace};

/// How often a trace that isn't whole is read again at most, while another process writes it.
const AGAIN: u32 = 4;

/// Makes an `Info`: names the files, asks whether another process has the trace's lock, and adds what was found in each.
fn gathered(files: &Files<'_>, summary: TraceSummary) -> Result<Info, AllocError>
    ensures { IfOk result (λ info. info.outlined ≡ summary.outlined) }
{
    let TraceSummary {
        files: found,
        outlined,
    } = summary;
    let mut info = Info::new(files.alloc(), outlined, files.is_held()?);
    let mut file: u32 = 0;
    for one in found {
        info.add(file, files.name(file)?, one)?;
        file = file.saturating_add(1);
    }
    Ok(info)
}

/// Reads a trace once.
fn look_once(files: &mut Files<'_>) -> Result<Info, ReadFault>
    ensures found { LooksOver files.old.store files.new.store
        (most_to_sum (reads_of files.old.store)) (IsGathered (reads_of files.old.store) result) }
    ensures place { files.new.place ≡ files.old.place }
{
    let summary = sum_up_trace(files.alloc(), &mut files.store)?;
    match gathered(files, summary) {
        Ok(info) => Ok(info),
        Err(_) => Err(ReadFault::NoMemory),
    }
}

/// Reads a trace once, and where it isn't whole while another process writes it again, five times in all.
fn look_over(files: &mut Files<'_>) -> Result<Info, ReadFault>
    ensures found { LooksOver files.old.store files.new.store
        (most_to_gather result (reads_of files.old.store))
        (IsGathered (reads_of files.old.store) result) }
    ensures place { files.new.place ≡ files.old.place }
{
    let mut made = 0;
    'readings: loop {
        let info = look_once(files)?;
        if made == AGAIN || !info.is_to_repeat() {
            return Ok(info);
        }
        drop(info);
        files.reopen();
        made += 1;
    }
}

/// What was done when a trace was found not to be whole.
fn doing_of(info: &Info) -> Stage {
    if info.is_written {
        Stage::ReadingAgain
    } else {
        let (before, elsewhere) = info.around_damage();
        Stage::Counting { before, elsewhere }
    }
}

/// Writes out what is told of a trace.
fn write_info<W: Write>(
    info: &Info,
    alloc: Global,
    is_json: bool,
    out: &mut W,
) -> Result<(), SimFault>
    ensures { IfErr result (λ fault. (fault ≡ faults.Write) ⊎ (fault ≡ faults.NoMemory)) }
{
    let written = if is_json {
        write_json(info, alloc, out)?
    } else {
        write!(out, "{info}")
    };
    match written {
        Ok(()) => flush(out),
        Err(_) => Err(SimFault::Write),
    }
}

/// Writes it as JSON.
fn write_json<W: Write>(
    info: &Info,
    alloc: Global,
    out: &mut W,
) -> Result<io::Result<()>, AllocError> {
    let text = info.to_json(alloc)?;
    Ok(writeln!(out, "{text}"))
}

fn flush<W: Write>(out: &mut W) -> Result<(), SimFault>
    ensures { IfErr result (λ fault. fault ≡ faults.Write) }
{
    match out.flush() {
        Ok(()) => Ok(()),
        Err(_) => Err(SimFault::Write),
    }
}

/// What is told of a trace that isn't whole, or isn't read at all.
pub fn told(files: &mut Files<'_>, fault: ReadFault, stage: Stage) -> Complaint
    ensures told { IsToldAt files.old.place files.new.store (read_fault fault) result }
    ensures status { status_told result ≡ 1 }
    ensures only_reads { OnlyLooks files.old.store files.new.store }
    ensures at_most { CallsToTell files.old.store files.new.store }
{
    files.explained(fault_of_reading(fault), stage)
}

/// Tells what a trace holds, in numbers; where it isn't whole, what could be read of it.
pub fn info<W: Write, H: Host>(
    files: &mut Files<'_>,
    is_json: bool,
    watched: &mut Watched<'_, W, H>,
) -> Result<(), Complaint>
    ensures ended { LooksOver files.old.store files.new.store
        (most_to_inform result (reads_of files.old.store))
        (IsInfo (IsToldAt files.old.place files.new.store) (reads_of files.old.store) result) }
    ensures status { IfErr result (λ complaint. status_told complaint ≡ 1) }
{
    let info = match look_over(files) {
        Ok(info) => info,
        Err(fault) => return Err(told(files, fault, Stage::Other)),
    };
    if let Err(fault) = write_info(&info, files.alloc(), is_json, &mut *watched.writer) {
        return Err(Complaint::from(fault));
    }
    match info.fault() {
        None => Ok(()),
        Some(cause) => Err(told(files, ReadFault::Refused(cause), doing_of(&info))),
    }
}
