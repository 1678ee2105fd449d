//! A trace is read for the registered names of its processes.

ghost use Rattle.std.specs.Prelude.{map, string_bytes, IfOk};
ghost use Rattle.stores.specs.Events.{World};
ghost use Rattle.stores.specs.FolderStore.{honest_of, reads_of};
ghost use Rattle.commands.specs.Files.{OnlyLooks};
ghost use Rattle.prepared_requests.specs.NamesLooked.{IsSeen, WereLookedAt};

use crate::names_seen::NamesSeen;
use command_line::Asked;
use commands::{Files, hand_live};
use shown_listings::Console;
use std::alloc::AllocError;
use trace_lookup::find;
use trace_views::{View, ViewFeed};

/// What the files of a trace tell of names; None where they aren't read to their end.
fn look_at(
    rt: &HostRuntime,
    files: &mut Files<'_>,
    names: Vec<String>,
) -> Result<Option<NamesSeen>, AllocError>
    ensures only_reads { OnlyLooks files.old.store files.new.store }
    ensures seen { honest_of files.new.store
        → IfOk result (λ seen. IsSeen (map string_bytes names.items) seen
        (reads_of files.old.store)) }
{
    let alloc = rt.alloc();
    let mut console = Console::new(*rt, true);
    let mut feed = ViewFeed::new(alloc, None, NamesSeen::new(alloc, names), &mut console);
    let reading = hand_live(files, &mut feed);
    let view = feed.into_view();
    match (view.fault(), reading.done) {
        (None, Ok(())) => Ok(Some(view)),
        (None, Err(fault)) if !files.is_of_memory(fault) => Ok(None),
        _ => Err(AllocError),
    }
}

/// What the trace that is asked for tells of names; None where it isn't there, or isn't read to its end.
pub fn see_names(
    rt: &HostRuntime,
    asked: Asked<'_>,
    names: Vec<String>,
) -> Result<Option<NamesSeen>, AllocError>
    ghost world: { World }
    ensures { IfOk result (λ seen. WereLookedAt world asked.entry
        (IsSeen (map string_bytes names.items) seen)) }
{
    let found = find(*rt, asked)?;
    let mut files = Files::at(*rt, asked, found)?;
    look_at(rt, &mut files, names)
}
