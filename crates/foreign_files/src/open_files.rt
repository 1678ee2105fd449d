//! The open files of a store with their headers.

ghost use Rattle.std.specs.Prelude.{◌≡◌, ◌⊎◌, ◌↔◌, ◌+◌, ◌*◌, ◌<◌, ◌≤◌, ℕ, List, [], ◌∷◌, ◌++◌, Some, None, length, IsTrue, MatchBool, IfOk, IfSome};
ghost use Rattle.trace_store.specs.Disk.{Image};
ghost use Rattle.segment.specs.{Seen.header_seen, DeviceCalls.DeviceReads, DeviceCalls.TellsSegment};
ghost use Rattle.recovery.specs.Stores.{file_for};
ghost use Rattle.foreign_files.specs.Disagreeing.{IsOpenFile, AreOpenFiles, AreWithin, HasNone, IsLeastAbove, IsNewest};

use crate::headers::header_at;
use recovery::file_in_turn;
use segment::{SegHeader, SegmentFault};
use std::alloc::Global;
use trace_store::Store;

/// An open file and its header.
#[derive(Clone, Copy)]
pub struct OpenFile {
    pub file: u32,
    pub header: SegHeader,
}

impl OpenFile {
    /// Whether two files are of the same kind of trace, count, and size or time.
    pub fn is_like(&self, other: &OpenFile) -> bool
        ensures { IsTrue result ↔ ((header_seen self.now.header).spec
            ≡ (header_seen other.now.header).spec) }
    {
        self.header.spec == other.header.spec
    }

    /// Whether the file is the one whose turn its generation is.
    pub fn is_in_place(&self) -> bool
        ensures { IsTrue result ↔ (file_for
            (header_seen self.now.header).spec self.now.header.generation ≡ self.now.file) }
    {
        file_in_turn(self.header.spec, self.header.generation) == self.file
    }
}

/// All open files with a lawful header, in ascending order.
pub fn open_files<S: Store>(alloc: Global, store: &mut S) -> Result<Vec<OpenFile>, SegmentFault>
    ensures device { DeviceReads S.Store TellsSegment store.old store.new result
        (S.clock_of store.new ≤ S.clock_of store.old + 2 * length (S.reads store.old)) }
    ensures within { IfOk result (λ files. AreWithin (length (S.reads store.old)) files.items) }
    ensures few { IfOk result (λ files. length files.items ≤ length (S.reads store.old)) }
    ensures all { S.honest store.new → IfOk result
        (λ files. AreOpenFiles (S.reads store.old) files.items) }
{
    let mut files = Vec::new(alloc);
    for file in 0..store.files() {
        if let Some(header) = header_at(store, file)? {
            files.push(OpenFile { file, header })?;
        }
    }
    Ok(files)
}

/// Of `found` and `file`, the one with the lesser generation above `generation`; None where neither has one above.
fn nearer(generation: u64, found: Option<OpenFile>, file: OpenFile) -> Option<OpenFile>
    ensures least { (files : List OpenFile) → IsLeastAbove generation files found
        → IsLeastAbove generation (files ++ file ∷ []) result }
    ensures either { (result ≡ found) ⊎ (result ≡ Some file) }
{
    if file.header.generation <= generation {
        return found;
    }
    match found {
        Some(before) if before.header.generation <= file.header.generation => found,
        _ => Some(file),
    }
}

/// The file with the least generation above this one; None where none is above.
pub fn next_above(files: &[OpenFile], generation: u64) -> Option<OpenFile>
    ensures least { IsLeastAbove generation files.now result }
    ensures within { (count : ℕ) → AreWithin count files.now
        → IfSome result (λ next. next.file < count) }
    ensures is { (image : Image) → AreOpenFiles image files.now → IfSome result (IsOpenFile image) }
{
    let mut next = None;
    for file in files {
        next = nearer(generation, next, *file);
    }
    next
}

/// The file with the greatest generation; None where there are no files.
pub fn newest(files: &[OpenFile]) -> Option<OpenFile>
    ensures is { (image : Image) → AreOpenFiles image files.now → IfSome result (IsOpenFile image) }
    ensures none_later { (image : Image) → AreOpenFiles image files.now
        → IfSome result (λ f. IsNewest image f.header.generation) }
    ensures none { result ≡ None → files.now ≡ [] }
{
    let mut newest = *files.first()?;
    for file in files {
        if newest.header.generation < file.header.generation {
            newest = *file;
        }
    }
    Some(newest)
}

/// Whether one of the files has this generation.
pub fn has_generation(files: &[OpenFile], generation: u64) -> bool
    ensures { (image : Image) → AreOpenFiles image files.now
        → MatchBool result (¬ HasNone image generation) (HasNone image generation) }
{
    for file in files {
        if file.header.generation == generation {
            return true;
        }
    }
    false
}
