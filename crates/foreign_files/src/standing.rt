//! What stands in the files of a store.

ghost use Rattle.std.specs.Prelude.{◌≡◌, ◌+◌, ◌*◌, ◌≤◌, length, IfOk};
ghost use Rattle.foreign_files.specs.Standing.{IsStanding, NamesWithin, looks_of};
ghost use Rattle.segment.specs.DeviceCalls.{DeviceReads, TellsDevice};

use crate::sort::{Sort, sort_at};
use trace_store::{DeviceFault, Store};

/// What stands in the files of a store.
#[derive(Clone, Copy)]
pub enum Standing {
    /// Each file is empty.
    Absent,
    /// Some file isn't empty, and each is one that a trace may leave.
    Ours,
    /// The file of this number, the first of them, isn't a trace's. It is an entry stream where it begins
    /// with a whole entry.
    Foreign { file: u32, is_stream: bool },
}

/// Looks at each file, up to the first that isn't a trace's: at its length, and at up to 36 bytes of one that has two or more.
pub fn look<S: Store>(store: &mut S) -> Result<Standing, DeviceFault>
    ensures tells { S.honest store.new → IfOk result (λ s. IsStanding s (S.reads store.old)) }

    // Whatever the device does.
    ensures within { IfOk result (NamesWithin (length (S.reads store.old))) }

    // It only reads: no byte changes, nor what a crash may leave, at any moment.
    ensures device { DeviceReads S.Store TellsDevice store.old store.new result
        (S.clock_of store.new ≤ S.clock_of store.old + 2 * length (S.reads store.old)) }

    // It stops at the first foreign file.
    ensures calls { S.honest store.new
        → IfOk result (λ s. S.clock_of store.new
        ≡ S.clock_of store.old + looks_of s (S.reads store.old)) }
{
    let mut standing = Standing::Absent;
    for file in 0..store.files() {
        match sort_at(store, file)? {
            Sort::Empty => {}
            Sort::Ours => standing = Standing::Ours,
            Sort::Foreign { is_stream } => return Ok(Standing::Foreign { file, is_stream }),
        }
    }
    Ok(standing)
}
