//! What the front of one file tells: its length, and its first bytes.

ghost use Rattle.std.specs.Prelude.{◌≡◌, ◌+◌, ◌<◌, ◌≤◌, ℕ, List, length, IfOk, OnOk};
ghost use Rattle.trace_store.specs.Disk.{file_of};
ghost use Rattle.foreign_files.specs.{Fronts.IsFront, Standing.IsHead, Standing.IsSort, Standing.looks_for};
ghost use Rattle.segment.specs.DeviceCalls.{DeviceReads, TellsDevice};

use crate::sort::{Sort, sort_of};
use segment::{Head, LEAST_LENGTH, head_from};
use trace_store::{DeviceFault, Store};

/// How many bytes of a file are looked at.
pub const FRONT_SIZE: usize = 36;

/// What the front of a file tells of its segment.
#[derive(Clone, Copy)]
pub enum Front {
    Closed,
    /// It is open without a lawful header, or too long.
    Headless,
    Open(Head),
}

/// What one look at a file tells.
#[derive(Clone, Copy)]
pub struct FileLook {
    pub sort: Sort,
    pub front: Front,
}

/// Whether a file of this length is closed, open with a lawful header, or open without one. `head` has its first bytes, and 0
/// behind its end.
fn front_of(size: u64, head: &[u8; FRONT_SIZE]) -> Front
    ensures { (text : List ℕ) → IsHead text size head.now → IsFront text result }
{
    if size < LEAST_LENGTH || head[0] != 1 {
        return Front::Closed;
    }
    match head_from(head, size) {
        Some(head) => Front::Open(head),
        None => Front::Headless,
    }
}

/// Looks at a file. It asks for the length and, from two bytes on, for at most the first 36.
pub fn look_at<S: Store>(store: &mut S, file: u32) -> Result<FileLook, DeviceFault>
    requires file { file < length (S.reads store.old) }
    ensures sort { S.honest store.new → IfOk result
        (λ l. IsSort l.sort (file_of (S.reads store.old) file)) }
    ensures front { S.honest store.new
        → IfOk result (λ l. IsFront (file_of (S.reads store.old) file) l.front) }
    ensures device { DeviceReads S.Store TellsDevice store.old store.new result
        (S.clock_of store.new ≤ S.clock_of store.old + 2) }
    ensures calls { S.honest store.new
        → OnOk result (S.clock_of store.new
        ≡ S.clock_of store.old + looks_for (file_of (S.reads store.old) file)) }
{
    let size = store.len(file)?;
    if size < 2 {
        return Ok(FileLook {
            sort: if size == 0 { Sort::Empty } else { Sort::Ours },
            front: Front::Closed,
        });
    }
    let mut head = [0; FRONT_SIZE];
    let count = size.min(FRONT_SIZE as u64) as usize;
    store.read_at(file, 0, &mut head[..count])?;
    Ok(FileLook {
        sort: sort_of(size, &head),
        front: front_of(size, &head),
    })
}
