//! What holds of foreign files, and of the files that a trace itself leaves.

ghost use Rattle.std.specs.Prelude.{◌≡◌, ℕ, ◌+◌, ◌<◌, ◌≤◌, List, [], ◌∷◌, length, slice_index};
ghost use Rattle.trace_store.specs.Disk.{DiskFile, Image, IsBytes};
ghost use Rattle.stores.specs.CallRecords.{IsSound};
ghost use Rattle.segment.specs.Segments.{Header, IsLawfulHeader, Segment, Open, IsOpen, reading_of};
ghost use Rattle.foreign_files.specs.declared.standing.Standing.{Standing as Answer};
ghost use Rattle.foreign_files.specs.{Foreign.BeginsMessage, Foreign.IsForeign, Foreign.IsTame, Standing.IsStanding};
ghost use Rattle.foreign_files.specs.Acts.{AtMoment, prepare_acts, open_acts, gate_acts, retire_acts, LeavesTexts, IsTameOrBehindCut};

/// The files of any store have exactly one standing.
pub fn one_standing()
    ensures { (image : Image) (a b : Answer) → IsStanding a image → IsStanding b image → a ≡ b }
{}

/// No file that a trace writes is foreign, with one exception: after a closed gate, bytes that weren't synced or were
/// cut off come back as a whole message that begins with 131.
pub fn traces_are_ours()
    ensures open { (text : List ℕ) (s : Segment) → IsBytes text → reading_of text ≡ Open s
        → ¬ IsForeign text }
    ensures short { (text : List ℕ) → length text < 2 → ¬ IsForeign text }
    ensures closed { (text : List ℕ) → slice_index text 0 ≡ 0 → IsForeign text
        → BeginsMessage text }
    ensures tame { (text : List ℕ) → IsTame text → IsForeign text → (slice_index text 0 ≡ 0)
        × BeginsMessage text }
{}

/// A crash at any moment of the calls that change a segment leaves a file with fewer than two bytes, with the magic, or
/// with 00 at the front.
///
/// It is a law over the disk model and the device calls that `prepare`, `open_segment`, `commit_batch`, `seal_segment`
/// and `retire` make, and not over their contracts: of a closed file these say no more than that it is closed. Each
/// begins on a file as the call asks for it, of which a crash leaves only such texts.
///
/// There is one exception: in `prepare`, while its cut isn't synced, where a crash could leave the magic after a first
/// byte other than 00. Then a crash may leave that byte, and any bytes where others were cut off.
pub fn crashes_leave_ours()
    ensures prepare { (file now : DiskFile) → IsSound file → LeavesTexts IsTame file
        → AtMoment prepare_acts file now → LeavesTexts (IsTameOrBehindCut file now) now }
    ensures open { (file now : DiskFile) (h : Header) → IsSound file → IsLawfulHeader h
        → LeavesTexts (λ text. text ≡ 0 ∷ []) file → AtMoment (open_acts h) file now
        → LeavesTexts IsTame now }
    ensures commit { (file now : DiskFile) (gate : ℕ) (batch : List ℕ) → IsSound file → 36 ≤ gate
        → gate < length file.bytes → LeavesTexts IsTame file
        → AtMoment (gate_acts gate batch) file now → LeavesTexts IsTame now }
    ensures seal { (file now : DiskFile) (gate : ℕ) → IsSound file → 36 ≤ gate
        → gate < length file.bytes → LeavesTexts IsTame file
        → AtMoment (gate_acts gate (0 ∷ 0 ∷ 0 ∷ 0 ∷ [])) file now → LeavesTexts IsTame now }
    ensures retire { (file now : DiskFile) → IsSound file → LeavesTexts IsOpen file
        → LeavesTexts IsTame file → AtMoment retire_acts file now → LeavesTexts IsTame now }
{}
