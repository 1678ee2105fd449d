//! What the definitions of objects come to.

ghost use Rattle.std.specs.Prelude.{◌≡◌, ◌<◌, ◌^◌, ℕ, List, Some};
ghost use Rattle.entry_codec.specs.Entries.{Entry};
ghost use Rattle.json.specs.Json.{document, object};
ghost use Rattle.trace_text.specs.Objects.{Member, AreSmall, HasSmallCount, IsObject, members_as, object_text};

/// The text of an object whose numbers are below 2^64 reads as that object, by the kit's grammar of JSON: the escapes of its
/// texts are taken back. Those of an entry are.
pub fn objects_read_back()
    ensures read { (members : List Member) → AreSmall members
        → document (object_text members) ≡ Some (object (members_as members)) }
    ensures small { (n : ℕ) (e : Entry) (members : List Member) → n < 2 ^ 64 → HasSmallCount e
        → IsObject n e members → AreSmall members }
{}
