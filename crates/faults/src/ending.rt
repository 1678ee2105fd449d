//! How what was done ends.
ghost use Rattle.std.specs.Prelude.{◌≡◌};
ghost use Rattle.std.specs.Process.{exit_status};
ghost use Rattle.faults.specs.Complaints.{status_told};
ghost use Rattle.faults.specs.Statuses.{status_of_done};

use crate::complaint::Complaint;
use script_runner::SimFault;
use std::io;
use std::io::ErrorKind;
use std::process::ExitCode;

/// Tells what ended the command on standard error, where that can be had.
fn fail(rt: &impl Eprint, complaint: &Complaint) -> ExitCode
    ensures { exit_status result ≡ status_told complaint.now }
{
    let _ = eprintln!(rt; "dbgrec: {complaint}");
    ExitCode::from(complaint.status())
}

/// The same, and behind it what the system said, where it said it.
fn fail_because(
    rt: &impl Eprint,
    complaint: &Complaint,
    what: &str,
    reason: Option<io::Error>,
) -> ExitCode
    ensures { exit_status result ≡ status_told complaint.now }
{
    let code = fail(rt, complaint);
    if let Some(reason) = reason {
        let _ = eprintln!(rt; "{what}: {reason}");
    }
    code
}

/// Why the system refused a read of standard input, and a write of standard output, where it did.
#[derive(Clone, Copy)]
pub struct Reasons {
    pub unread: Option<io::Error>,
    pub unwritten: Option<io::Error>,
}

/// What the program ends with, once that was done. What it can't read or write is told with its reason. A reader of its output
/// that has closed that knows.
pub fn code_of(rt: &impl Eprint, done: &Result<(), Complaint>, reasons: Reasons) -> ExitCode
    ensures { exit_status result ≡ status_of_done done.now }
{
    let Err(complaint) = done else {
        return ExitCode::SUCCESS;
    };
    match complaint {
        Complaint::Fault {
            fault: SimFault::Write,
            advice: _,
        } => match reasons.unwritten {
            Some(reason) if reason.kind() == ErrorKind::BrokenPipe => ExitCode::FAILURE,
            reason => fail_because(rt, complaint, "standard output can't be written", reason),
        },
        Complaint::Fault {
            fault: SimFault::Read,
            advice: _,
        } => fail_because(
            rt,
            complaint,
            "standard input can't be read",
            reasons.unread,
        ),
        _ => fail(rt, complaint),
    }
}

/// Tells that there was no memory to do anything.
pub fn no_memory(rt: &impl Eprint) -> ExitCode
    ensures { exit_status result ≡ 1 }
{
    let _ = rt.eprintln("dbgrec: refused 7 NoMemory");
    ExitCode::FAILURE
}
