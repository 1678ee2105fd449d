//! The folder in which standard input is recorded.
ghost use Rattle.std.specs.Prelude.{◌≡◌, IfErr};
ghost use Rattle.faults.specs.Complaints.{status_told};

use faults::Complaint;
use script_runner::{Refusal, SimFault};
use std::fs::{self, DirBuilder};
use std::io::{self, ErrorKind};
use std::os::unix::fs::DirBuilderExt;
use std::{env, process};
use stores::FileFault;
use trace_lookup::Shown;
use trace_port::CreateFault;

/// How many names are tried for the folder at most.
const MOST_NAMES: u32 = 1_000;

/// The files that stand in it once standard input was recorded.
const FILES: [&str; 3] = ["-", "-.failed", "-.replacement"];

/// Tells where standard input is recorded, and how that is changed.
fn tell_folder(rt: &HostRuntime, folder: &str) {
    let folder = Shown(folder);
    let _ = eprintln!(rt;
        "dbgrec: standard input is recorded first, in a new folder of {folder}: TMPDIR names another one"
    );
}

/// What is told where the folder can't be had, for what the system said of this one.
fn complaint_of(rt: &HostRuntime, folder: &str, reason: io::Error) -> Complaint
    ensures { status_told result ≡ 1 }
{
    match String::from_str(rt.alloc(), folder) {
        Ok(name) => Complaint::from(SimFault::OfFile {
            refusal: Refusal::Create(CreateFault::Device),
            name,
            fault: FileFault {
                file: 0,
                reason,
                folder: None,
            },
        }),
        Err(fault) => Complaint::from(fault),
    }
}

/// The same, once it is told which other folder may be taken.
fn refused(rt: &HostRuntime, folder: &str, reason: io::Error) -> Complaint
    ensures { status_told result ≡ 1 }
{
    if reason.kind() == ErrorKind::OutOfMemory {
        return Complaint::from(SimFault::NoMemory);
    }
    tell_folder(rt, folder);
    complaint_of(rt, folder, reason)
}

/// The folder for temporary files.
fn temporary(rt: &HostRuntime) -> io::Result<String> {
    let folder = env::temp_dir(rt)?.into_string();
    if folder.is_empty() {
        return Ok(String::from_str(rt.alloc(), "/tmp")?);
    }
    Ok(folder)
}

/// Makes a folder that only its owner may enter.
fn make(rt: &HostRuntime, name: &str) -> io::Result<()> {
    let mut builder = DirBuilder::new();
    builder.mode(0o700);
    builder.create(rt, name)
}

/// Makes a folder of a new name where the program works, and answers its name.
fn make_new(rt: &HostRuntime) -> io::Result<String> {
    let process = process::id(rt.process());
    for number in 0..MOST_NAMES {
        let name = format!(in rt.alloc(); "dbgrec-{process}-{number}")?;
        match make(rt, name.as_str()) {
            Ok(()) => return Ok(name),
            Err(reason) if reason.kind() == ErrorKind::AlreadyExists => {}
            Err(reason) => return Err(reason),
        }
    }
    Err(io::Error::from(ErrorKind::AlreadyExists))
}

/// Makes a new folder in this one, and goes there.
fn enter_new(rt: &HostRuntime, folder: &str) -> io::Result<String> {
    env::set_current_dir(rt, folder)?;
    let name = make_new(rt)?;
    match env::set_current_dir(rt, name.as_str()) {
        Ok(()) => Ok(name),
        Err(reason) => {
            let _ = fs::remove_dir(rt, name.as_str());
            Err(reason)
        }
    }
}

/// Makes a new folder in that for temporary files, goes there, and answers its name.
pub fn enter(rt: &HostRuntime) -> Result<String, Complaint>
    ensures { IfErr result (λ complaint. status_told complaint ≡ 1) }
{
    let folder = match temporary(rt) {
        Ok(folder) => folder,
        Err(reason) => return Err(refused(rt, "TMPDIR", reason)),
    };
    match enter_new(rt, folder.as_str()) {
        Ok(name) => Ok(name),
        Err(reason) => Err(refused(rt, folder.as_str(), reason)),
    }
}

/// Tells which folder that is in, where a file in it can't be written.
pub fn tell_entered(rt: &HostRuntime) {
    if let Ok(folder) = temporary(rt) {
        tell_folder(rt, folder.as_str());
    }
}

/// Leaves the folder of this name, and removes it with what was recorded there.
pub fn leave(rt: &HostRuntime, name: &str) {
    for file in FILES {
        let _ = fs::remove_file(rt, file);
    }
    let _ = env::set_current_dir(rt, "..");
    let _ = fs::remove_dir(rt, name);
}
