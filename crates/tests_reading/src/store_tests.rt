ghost use Rattle.std.specs.Prelude.{◌≡◌, length};

use std::alloc::Global;
use std::process::Abort;
use std::test::*;
use std::{env, fs, process};
use stores::{CrashFault, FolderStore, LockFault, MemStore, Pick};
use trace_store::Store;

/// The name of a folder of this process's own.
fn folder_name(rt: &HostRuntime) -> Result<String, Fail> {
    let (own, all) = (process::id(rt.process()), env::temp_dir(rt)?);
    Ok(format!(in rt.alloc(); "{}/trace_store_{own}", all.as_str())?)
}

/// A store over the file `a` of a folder.
fn store_in(rt: &HostRuntime, folder: &str) -> Result<FolderStore, Fail> {
    let name = format!(in rt.alloc(); "{folder}/a")?;
    let names = Vec::from_array(rt.alloc(), [name])?;
    Ok(FolderStore::over(*rt, names)?)
}

fn assert_held_while_it_lives(rt: &impl Abort, mut first: FolderStore, second: &mut FolderStore) {
    assert!(rt; first.lock().is_ok());
    assert!(rt; first.lock().is_ok());
    assert!(rt; first.clock() == 0 && first.files() == 1);
    assert!(rt; first.write_at(0, 0, b"a").is_ok());
    assert!(rt; matches!(second.lock(), Err(LockFault::Held { file: 0 })));
    drop(first);
    assert!(rt; second.lock().is_ok());
    assert!(rt; second.files() == 1);
    assert!(rt; matches!(second.len(0), Ok(1)));
}

#[test]
fn a_lock_is_held_as_long_as_its_store_lives(rt: HostRuntime) -> Result<(), Fail> {
    let folder = folder_name(&rt)?;
    let _ = fs::remove_dir_all(&rt, folder.as_str());
    fs::create_dir(&rt, folder.as_str())?;
    let first = store_in(&rt, folder.as_str())?;
    let mut second = store_in(&rt, folder.as_str())?;
    assert_held_while_it_lives(&rt, first, &mut second);
    drop(second);
    let _ = fs::remove_dir_all(&rt, folder.as_str());
    Ok(())
}

/// The bytes of a store's only file.
fn holding(rt: &impl Abort, alloc: Global, bytes: &[u8]) -> Vec<Vec<u8>>
    ensures { length result.items ≡ 1 }
{
    let bytes = Vec::from_slice(alloc, bytes).expect(rt, "memory");
    Vec::from_array(alloc, [bytes]).expect(rt, "memory")
}

/// A file of three bytes, of which the second is written over and two are added.
#[test]
fn a_changed_byte_that_was_synced_is_no_image(rt: HostRuntime) {
    let alloc = rt.alloc();
    let mut store = MemStore::from_bytes(alloc, holding(&rt, alloc, &[1, 2, 3])).expect(
        &rt, "memory",
    );
    assert!(rt; store.files() == 1);
    assert!(rt; matches!(store.len(0), Ok(3)));
    assert!(rt; store.write_at(0, 1, &[9, 8, 7, 6]).is_ok());
    let changed = Pick::Image(holding(&rt, alloc, &[5, 2, 3]));
    assert!(rt; store.crash(changed) == Err(CrashFault::NotImage));
    let possible = Pick::Image(holding(&rt, alloc, &[1, 77, 3, 4]));
    assert!(rt; store.crash(possible) == Ok(()));
    assert!(rt; store.files() == 1);
    assert!(rt; matches!(store.len(0), Ok(4)));
    let mut bytes = [0; 4];
    assert!(rt; store.read_at(0, 0, &mut bytes).is_ok());
    assert!(rt; bytes.as_slice() == [1, 77, 3, 4].as_slice());
    drop(store);
}
