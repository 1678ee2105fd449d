//! How many files may be open at once.
ghost use Rattle.std.specs.Prelude.{◌↔◌, IsTrue, IfOk, IfSome};
ghost use Rattle.trace_lookup.specs.Room.{IsTooMany};

use std::alloc::AllocError;
use std::fs::File;
use std::io;

/// Files beside those of a trace that are opened: a folder that is synced, and the mark of a failed disk.
const BESIDE: u32 = 2;

/// The first of several files that can't be open beside the others, and why.
#[derive(Clone, Copy)]
pub struct Crowded {
    pub file: u32,
    pub reason: io::Error,
}

/// Whether a file couldn't be opened since too many are open, of the process (24) or of the machine (23).
pub fn is_too_many(reason: io::Error) -> bool
    ensures { IsTrue result ↔ IsTooMany reason }
{
    matches!(reason.raw_os_error(), Some(23 | 24))
}

/// Whether so many files can't be open at once. It opens a folder as often, and closes it.
pub fn is_crowded(rt: &HostRuntime, files: u32) -> Result<Option<Crowded>, AllocError>
    ensures { IfOk result (λ found. IfSome found (λ crowded. IsTooMany crowded.reason)) }
{
    let mut opened = Vec::new(rt.alloc());
    for count in 0..files.saturating_add(BESIDE) {
        match File::open(rt, "/") {
            Ok(folder) => opened.push(folder)?,
            Err(reason) if is_too_many(reason) => {
                let file = count.saturating_sub(BESIDE);
                return Ok(Some(Crowded { file, reason }));
            }
            Err(_) => return Ok(None),
        }
    }
    Ok(None)
}
