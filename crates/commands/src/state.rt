//! What the first bytes of files tell of a trace, and the gates in them, without its entries.

use segment::{FIRST_GATE, read_header};
use std::fs::File;
use std::io::{self, ErrorKind};
use std::os::unix::fs::FileExt;

/// Whether a file is open: it has 37 bytes or more, and the first is 01.
pub fn is_open(rt: &HostRuntime, name: &str) -> io::Result<bool> {
    let mut bytes = [0; 37];
    match first_bytes(rt, name, &mut bytes) {
        Ok(_) => Ok(bytes[0] == 1),
        Err(reason) if reason.kind() == ErrorKind::UnexpectedEof => Ok(false),
        Err(reason) if reason.kind() == ErrorKind::NotFound => Ok(false),
        Err(reason) => Err(reason),
    }
}

/// Whether a file is closed or isn't there.
pub fn is_closed(rt: &HostRuntime, name: &str) -> io::Result<bool> {
    let mut first = [0];
    match first_bytes(rt, name, &mut first) {
        Ok(_) => Ok(first[0] == 0),
        Err(reason) if reason.kind() == ErrorKind::UnexpectedEof => Ok(true),
        Err(reason) if reason.kind() == ErrorKind::NotFound => Ok(true),
        Err(reason) => Err(reason),
    }
}

/// Reads what a file begins with, and hands out the file.
fn first_bytes(rt: &HostRuntime, name: &str, bytes: &mut [u8]) -> io::Result<File> {
    let file = File::open(rt, name)?;
    file.read_exact_at(bytes, 0)?;
    Ok(file)
}

/// A file that is open, and the generation that its header tells.
#[derive(Drop)]
pub struct Newest {
    file: File,
    generation: u64,
}

impl Newest {
    /// The file of this name, where it is open.
    fn of(rt: &HostRuntime, name: &str) -> Option<Newest> {
        let mut head = [0; 36];
        let file = first_bytes(rt, name, &mut head).ok()?;
        if head[0] != 1 {
            return None;
        }
        let generation = read_header(&head)?.generation;
        Some(Newest { file, generation })
    }

    /// The one of both that has the later generation.
    pub fn later(found: Option<Newest>, rt: &HostRuntime, name: &str) -> Option<Newest> {
        let Some(other) = Newest::of(rt, name) else {
            return found;
        };
        match found {
            Some(found) if other.generation < found.generation => Some(found),
            _ => Some(other),
        }
    }

    /// Whether its batches, gone over by their lengths alone, end with the seal.
    pub fn is_sealed(&self) -> io::Result<bool> {
        let mut gate = FIRST_GATE;
        for _ in 0..u64::MAX {
            let mut head = [0; 5];
            match self.file.read_exact_at(&mut head, gate) {
                Err(reason) if reason.kind() == ErrorKind::UnexpectedEof => return Ok(false),
                read => read?,
            }
            let [is_open, a, b, c, d] = head;
            if is_open != 1 {
                return Ok(false);
            }
            match u32::from_be_bytes([a, b, c, d]) {
                0 => return Ok(true),
                length => gate = gate.saturating_add(5 + u64::from(length)),
            }
        }
        Ok(false)
    }
}
