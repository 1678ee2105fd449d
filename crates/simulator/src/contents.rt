//! A store with other bytes in one of its files.
ghost use Rattle.std.specs.Prelude.{◌≡◌, ◌+◌, ◌*◌, ◌<◌, ◌≤◌, IfOk, IfErr, length, set};
ghost use Rattle.trace_store.specs.Disk.{file_of};
ghost use Rattle.stores.specs.{CallRecords.contents_of, MemStore.reads_of, MemStore.failures_of};
ghost use Rattle.simulator.specs.{Simulated.IsNew, Simulated.LooksBy, Stored.TellsRefusal};
ghost use Rattle.segment.specs.DeviceCalls.{DeviceReads};

use script_runner::Refusal;
use std::alloc::Global;
use stores::MemStore;
use trace_store::Store;

/// A store in which this file holds these bytes and the others what a read gives, with nothing unsynced.
pub fn with_bytes(
    alloc: Global,
    store: &mut MemStore,
    file: u32,
    bytes: &[u8],
) -> Result<MemStore, Refusal>
    requires { file < length (reads_of store.old) }
    ensures looks { LooksBy (2 * length (reads_of store.old)) store.old store.new }
    ensures refused { IfErr result (TellsRefusal (failures_of store.old) (failures_of store.new)) }
    ensures made { IfOk result (λ made. IsNew made (set (reads_of store.old) file bytes.now)) }
{
    let mut contents = contents_of(alloc, store)?;
    let mut own = Vec::new(alloc);
    own.extend_from_slice(bytes)?;
    replace(&mut contents, file as usize, own);
    Ok(MemStore::from_bytes(alloc, contents)?)
}

/// Puts other bytes instead of a file's.
fn replace(contents: &mut Vec<Vec<u8>>, file: usize, own: Vec<u8>)
    requires { file < length contents.old.items }
    ensures { contents_of contents.new.items ≡ set (contents_of contents.old.items) file own.items }
{
    contents[file] = own;
}

/// What a read gives of each file.
fn contents_of<S: Store>(alloc: Global, store: &mut S) -> Result<Vec<Vec<u8>>, Refusal>
    ensures device { DeviceReads S.Store TellsRefusal store.old store.new result
        (S.clock_of store.new ≤ S.clock_of store.old + 2 * length (S.reads store.old)) }
    ensures count { IfOk result (λ contents. length contents.items ≡ length (S.reads store.old)) }
    ensures read { S.honest store.new → IfOk result
        (λ contents. contents_of contents.items ≡ S.reads store.old) }
{
    let mut contents = Vec::new(alloc);
    for file in 0..store.files() {
        let bytes = bytes_of(alloc, store, file)?;
        if contents.push(bytes).is_err() {
            return Err(Refusal::NoMemory);
        }
    }
    Ok(contents)
}

/// What a read gives of a file.
pub fn bytes_of<S: Store>(alloc: Global, store: &mut S, file: u32) -> Result<Vec<u8>, Refusal>
    requires { file < length (S.reads store.old) }
    ensures device { DeviceReads S.Store TellsRefusal store.old store.new result
        (S.clock_of store.new ≤ S.clock_of store.old + 2) }
    ensures read { S.honest store.new → IfOk result
        (λ bytes. bytes.items ≡ file_of (S.reads store.old) file) }
{
    let length = store.len(file)?;
    let mut bytes = vec![in alloc; 0; length as usize]?;
    store.read_at(file, 0, &mut bytes)?;
    Ok(bytes)
}
