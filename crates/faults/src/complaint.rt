//! What is told of a fault on standard error: a line, and after it what to do next.
ghost use Rattle.std.specs.Prelude.{◌≡◌, ◌↔◌, Option, None, IsTrue};
ghost use Rattle.faults.specs.{Complaints.status_told, Complaints.IsToldAs, Faults.IsOfSeveral};
ghost use Rattle.faults.specs.declared.complaint.Advice.{Advice};
ghost use Rattle.faults.specs.declared.complaint.Complaint.TheVariants as complaints;
ghost use Rattle.script_runner.specs.declared.fault.SimFault.TheVariants as faults;

use crate::kept::{Kept, tell_failed_disk, tell_full, tell_going_on, tell_skipping};
use crate::salvage::Salvage;
use crate::sentence::{tell_about, tell_of, tell_two};
use recovery::RecoverFault;
use script_runner::{Refusal, SimFault};
use std::alloc::AllocError;
use std::{fmt, io};
use trace_lookup::Shown;
use trace_port::{PortFault, ResumeFault};

/// What a person can do next, or has to know.
#[derive(Drop)]
pub enum Advice {
    /// The trace is sealed.
    Sealed {
        name: String,
    },
    /// An import ended, and its trace isn't sealed.
    GoesOn {
        kept: Option<Kept>,
    },
    /// A sync of the trace failed.
    DiskFailed {
        kept: Option<Kept>,
    },
    /// The trace can take no more.
    Full {
        kept: Option<Kept>,
    },
    /// The file is damaged; before that, so many entries are listed, or written, and so many of these are shown.
    Damaged {
        name: String,
        entries: u64,
        done: &'static str,
        shown: u64,
    },
    /// The file is damaged; so many entries before that are counted, and so many of the trace's other files.
    DamagedAmong {
        name: String,
        before: u64,
        elsewhere: u64,
    },
    /// The file is damaged, and the trace isn't opened.
    DamagedToOpen {
        name: String,
    },
    /// Another process writes the trace, and each reading was refused.
    IsWritten,
    /// Files of different traces.
    Apart {
        one: String,
        other: String,
    },
    /// A file that is there instead of another one.
    Misplaced {
        name: String,
    },
    /// A file of a wrap that isn't there, or is there as it was before.
    Missing {
        name: String,
        is_oldest: bool,
        is_there: bool,
    },
    /// The file is one of a wrap. What is done with that has this name.
    IsOfWrap {
        name: String,
        base: String,
        suffix: String,
        command: &'static str,
    },
    /// Neither file is there.
    NotThere {
        name: String,
        other: Option<String>,
    },
    /// The files that are there hold nothing.
    IsEmpty {
        name: String,
    },
    /// The folder of a file isn't there.
    NoFolder {
        folder: String,
    },
    /// The name is a link to a file that isn't there.
    NoTarget {
        name: String,
        target: String,
    },
    /// A wrap is there, of which this is a file.
    ThereIsWrap {
        name: String,
    },
    /// One file is there.
    ThereIsFile {
        name: String,
    },
    /// What is to be listed begins as no entry stream does.
    NoStream,
    /// A message is longer than a plain listing shows.
    TooLong,
}

impl fmt::Display for Advice {
    fn fmt<W: fmt::Write>(&self, f: &mut fmt::Formatter<W>) -> fmt::Result {
        match self {
            Advice::Sealed { name } => tell_of(
                f,
                name,
                " is sealed: export keeps its entries, wipe clears it",
            ),
            Advice::DamagedToOpen { name } => tell_of(
                f,
                name,
                " is damaged there: list shows the entries before it, wipe clears the trace",
            ),
            Advice::IsWritten => f.write_str(
                "another process writes this trace, and its files changed while they were read: try again",
            ),
            Advice::Apart { one, other } => tell_two(
                f,
                "",
                one,
                " and ",
                other,
                " don't belong together: list --salvage shows each",
            ),
            Advice::Misplaced { name } => tell_of(
                f,
                name,
                " isn't in its place: list --salvage shows what it holds",
            ),
            Advice::NoStream => f.write_str(
                "that is no entry stream, as a node writes it: list shows a stored trace",
            ),
            Advice::TooLong => f.write_str("-p lists it"),
            _ => self.tell_absence(f),
        }
    }
}

impl Advice {
    /// Tells why a trace isn't where it is asked for, or the advices that have a number or a choice in them.
    fn tell_absence<W: fmt::Write>(&self, f: &mut fmt::Formatter<W>) -> fmt::Result {
        match self {
            Advice::NotThere { name, other: None } => {
                tell_of(f, name, " isn't there: import begins a trace")
            }
            Advice::NotThere {
                name,
                other: Some(other),
            } => tell_two(
                f,
                "neither ",
                name,
                " nor ",
                other,
                " is there: import begins a trace",
            ),
            Advice::IsEmpty { name } => {
                tell_of(
                    f,
                    name,
                    " is there and holds nothing: import begins a trace",
                )
            }
            Advice::NoFolder { folder } => tell_about(
                f,
                "there is no folder ",
                folder,
                ": give another one, or make it",
            ),
            Advice::NoTarget { name, target } => tell_two(
                f,
                "",
                name,
                " is a link to ",
                target,
                ", which isn't there: give another name, or remove the link",
            ),
            Advice::ThereIsWrap { name } => {
                tell_about(f, "there is ", name, ": a wrap; try --kind wrap")
            }
            Advice::ThereIsFile { name } => tell_of(f, name, " is one file: try without --kind"),
            _ => self.tell_numbers(f),
        }
    }

    /// Tells the advices that have a number or a choice in them.
    fn tell_numbers<W: fmt::Write>(&self, f: &mut fmt::Formatter<W>) -> fmt::Result {
        match self {
            Advice::GoesOn { kept } => tell_going_on(f, *kept),
            Advice::DiskFailed { kept } => tell_skipping(f, *kept),
            Advice::Full { kept } => tell_full(f, *kept),
            Advice::Damaged {
                name,
                entries,
                done,
                shown,
            } => tell_damaged(f, name.as_str(), *entries, done, *shown),
            Advice::DamagedAmong {
                name,
                before,
                elsewhere,
            } => tell_damaged_among(f, name.as_str(), *before, *elsewhere),
            Advice::Missing {
                name,
                is_oldest,
                is_there,
            } => tell_missing(f, name, *is_oldest, *is_there),
            Advice::IsOfWrap {
                name,
                base,
                suffix,
                command,
            } => tell_wrap(f, name.as_str(), base.as_str(), suffix.as_str(), command),
            _ => Ok(()),
        }
    }
}

fn tell_damaged<W: fmt::Write>(
    f: &mut fmt::Formatter<W>,
    name: &str,
    entries: u64,
    done: &str,
    shown: u64,
) -> fmt::Result {
    let name = Shown(name);
    if shown < entries {
        let verb = if shown == 1 { "is" } else { "are" };
        return write!(
            f,
            "{name} is damaged there: {shown} of the {entries} entries before it {verb} {done}"
        );
    }
    match entries {
        0 => write!(f, "{name} is damaged there: no entry is {done}"),
        1 => write!(
            f,
            "{name} is damaged there: the 1 entry before it is {done}"
        ),
        _ => write!(
            f,
            "{name} is damaged there: the {entries} entries before it are {done}"
        ),
    }
}

/// Tells how many entries of a trace are counted of which this file is damaged.
fn tell_damaged_among<W: fmt::Write>(
    f: &mut fmt::Formatter<W>,
    name: &str,
    before: u64,
    elsewhere: u64,
) -> fmt::Result {
    let name = Shown(name);
    write!(
        f,
        "{name} is damaged there: {before} of its entries and {elsewhere} of other files are counted"
    )
}

/// Tells of a file of a wrap that isn't there, or is there as it was before.
fn tell_missing<W: fmt::Write>(
    f: &mut fmt::Formatter<W>,
    name: &String,
    is_oldest: bool,
    is_there: bool,
) -> fmt::Result {
    let which = if is_oldest {
        ", the oldest, is "
    } else {
        " is "
    };
    tell_of(f, name, which)?;
    f.write_str(if is_there {
        "an older copy: put the newer one back, or keep the others by export --salvage, and wipe"
    } else {
        "missing: put it back, or keep the others by export --salvage, and wipe"
    })
}

/// Tells which wrap a file is one of, and how that is named.
fn tell_wrap<W: fmt::Write>(
    f: &mut fmt::Formatter<W>,
    name: &str,
    base: &str,
    suffix: &str,
    command: &str,
) -> fmt::Result {
    let (name, base) = (Shown(name), Shown(base));
    write!(
        f,
        "{name} is a file of the wrap {base}: dbgrec {command} {base}"
    )?;
    if !suffix.is_empty() {
        let suffix = Shown(suffix);
        write!(f, " --suffix {suffix}")?;
    }
    Ok(())
}

/// What ended a command before its end.
#[derive(Drop)]
pub enum Complaint {
    Fault {
        fault: SimFault,
        advice: Option<Advice>,
    },
    /// The file isn't one of a trace. It may begin with an entry.
    Foreign {
        name: String,
        is_stream: bool,
    },
    /// There is no trace of this name.
    Absent {
        name: String,
        advice: Option<Advice>,
    },
    /// The command line says another count of runs than the trace.
    Differs {
        name: String,
        given: u16,
        own: u16,
    },
    /// A sync failed while the trace was written.
    AfterFailure,
    /// So many files have to be open at once, and this one can't be.
    TooManyOpen {
        name: String,
        files: u32,
        reason: io::Error,
    },
    /// What stands for that can't be removed.
    Mark {
        name: String,
        reason: io::Error,
    },
    /// What is written isn't the trace.
    Salvaged(Salvage),
    /// It has more functions, processes or stacks of calls than are counted.
    TooManyRows {
        name: String,
    },
}

impl Complaint {
    /// The exit status of the program.
    pub fn status(&self) -> u8
        ensures { result ≡ status_told self.now }
    {
        match self {
            Complaint::Fault { fault, advice: _ } => fault.status(),
            _ => 1,
        }
    }

    /// The fault of a stream that is listed, or of which nothing is imported, with what to do next.
    pub fn of_stream(fault: SimFault) -> Complaint
        ensures { (advice : Option Advice) × (result ≡ complaints.Fault fault advice) }
    {
        let advice = match fault {
            SimFault::BadOp { place: 0 }
            | SimFault::ZeroDrop { place: 0 }
            | SimFault::BadMessage { place: 0 } => Some(Advice::NoStream),
            SimFault::TooLong { place: _ } => Some(Advice::TooLong),
            _ => None,
        };
        Complaint::Fault { fault, advice }
    }

    /// Whether it has the name of a file for which a device call failed.
    pub fn names_file(&self) -> bool {
        matches!(
            self,
            Complaint::Fault {
                fault: SimFault::OfFile { .. } | SimFault::InUse { .. },
                advice: _
            }
        )
    }
}

impl From<SimFault> for Complaint {
    ghost from_gives = { λ fault complaint. complaint ≡ complaints.Fault fault None };

    fn from(fault: SimFault) -> Complaint {
        Complaint::Fault {
            fault,
            advice: None,
        }
    }
}

impl From<AllocError> for Complaint {
    ghost from_gives = { λ _ complaint. complaint ≡ complaints.Fault faults.NoMemory None };

    fn from(_fault: AllocError) -> Complaint {
        Complaint::from(SimFault::NoMemory)
    }
}

impl fmt::Display for Complaint {
    fn fmt<W: fmt::Write>(&self, f: &mut fmt::Formatter<W>) -> fmt::Result {
        match self {
            Complaint::Fault { fault, advice } => {
                write!(f, "{fault}")?;
                tell_advice(f, advice)
            }
            Complaint::Foreign { name, is_stream } => tell_foreign(f, name, *is_stream),
            Complaint::Absent { name, advice } => {
                tell_of(f, name, ": no such trace")?;
                tell_advice(f, advice)
            }
            Complaint::Differs { name, given, own } => {
                let name = Shown(name.as_str());
                write!(f, "{name}: --count is {given}, and the trace's is {own}")
            }
            Complaint::AfterFailure => tell_failed_disk(f),
            Complaint::TooManyOpen {
                name,
                files,
                reason,
            } => tell_too_many(f, name.as_str(), *files, *reason),
            Complaint::Mark { name, reason } => {
                let name = Shown(name.as_str());
                write!(f, "{name} can't be removed: {reason}")
            }
            Complaint::Salvaged(salvage) => write!(f, "{salvage}"),
            Complaint::TooManyRows { name } => tell_of(f, name, TOO_MANY_ROWS),
        }
    }
}

fn tell_advice<W: fmt::Write>(f: &mut fmt::Formatter<W>, advice: &Option<Advice>) -> fmt::Result {
    match advice {
        Some(advice) => write!(f, "\n{advice}"),
        None => Ok(()),
    }
}

/// Files beside those of a trace that are open, and some to spare.
const OTHER_FILES: u32 = 16;

fn tell_too_many<W: fmt::Write>(
    f: &mut fmt::Formatter<W>,
    name: &str,
    files: u32,
    reason: io::Error,
) -> fmt::Result {
    let name = Shown(name);
    let limit = files.saturating_add(OTHER_FILES);
    write!(
        f,
        "{name} can't be opened: {reason}\nthe files of the trace are open at once, {files} of them: ulimit -n {limit} lets them"
    )
}

/// What is told of a trace that has too many rows to count.
const TOO_MANY_ROWS: &str =
    " has more functions, processes or stacks of calls than are counted\nlist --json shows its messages, with --mfa those of one module, with --pid those of one process";

fn tell_foreign<W: fmt::Write>(
    f: &mut fmt::Formatter<W>,
    name: &String,
    is_stream: bool,
) -> fmt::Result {
    if is_stream {
        tell_two(
            f,
            "",
            name,
            " isn't a trace of dbgrec (it looks like an entry stream: dbgrec stream < ",
            name,
            ")",
        )
    } else {
        tell_of(
            f,
            name,
            " isn't a trace of dbgrec\nit stays as it is: give another name",
        )
    }
}

/// The file that a refusal names as damaged.
pub fn damaged_file(refusal: Refusal) -> Option<u32> {
    match refusal {
        Refusal::Recover(RecoverFault::Damaged { file, place: _ })
        | Refusal::Resume(ResumeFault::Recover(RecoverFault::Damaged { file, place: _ })) => {
            Some(file)
        }
        _ => None,
    }
}

/// Whether files disagree with one another.
pub fn is_of_several(refusal: Refusal) -> bool
    ensures { IsTrue result ↔ IsOfSeveral refusal }
{
    matches!(
        refusal,
        Refusal::Recover(RecoverFault::Mixed | RecoverFault::Sequence)
            | Refusal::Resume(ResumeFault::Recover(RecoverFault::Mixed | RecoverFault::Sequence))
    )
}

/// Whether a port can take no more.
pub fn is_full(refusal: Refusal) -> bool {
    matches!(
        refusal,
        Refusal::Port(PortFault::CountFull | PortFault::FileFull)
    )
}

/// What came of a call, as it is told.
pub fn told(done: Result<(), SimFault>) -> Result<(), Complaint>
    ensures { IsToldAs done result }
{
    match done {
        Ok(()) => Ok(()),
        Err(fault) => Err(Complaint::from(fault)),
    }
}
