//! The words for kinds of messages.

ghost use Rattle.std.specs.Prelude.{◌≡◌, Option, true};
ghost use Rattle.trace_text.specs.declared.sight.Kind.{Kind};
ghost use Rattle.trace_text.specs.KindWords.{word_at, is_kind_word, is_no_message};
ghost use Rattle.trace_text.specs.PrettyLines.{kind_word};

use crate::other_word::OtherWord;
use crate::pretty::word_of;
use crate::sight::Kind;
use trace_message::Seen;

/// How many words there are for kinds of messages.
pub const KIND_COUNT: usize = 31;

/// The kinds of the readable listing, in the order in which they are shown.
const KINDS: [Kind; 29] = [
    Kind::Seen(Seen::Call),
    Kind::Seen(Seen::Return),
    Kind::Seen(Seen::Exception),
    Kind::Other(OtherWord::ReturnTo),
    Kind::Seen(Seen::Send),
    Kind::Seen(Seen::SendLost),
    Kind::Seen(Seen::Receive),
    Kind::Other(OtherWord::Spawn),
    Kind::Other(OtherWord::Spawned),
    Kind::Other(OtherWord::Exit),
    Kind::Other(OtherWord::Register),
    Kind::Other(OtherWord::Unregister),
    Kind::Other(OtherWord::Link),
    Kind::Other(OtherWord::Unlink),
    Kind::Other(OtherWord::GettingLinked),
    Kind::Other(OtherWord::GettingUnlinked),
    Kind::Other(OtherWord::In),
    Kind::Other(OtherWord::InExiting),
    Kind::Other(OtherWord::Out),
    Kind::Other(OtherWord::OutExiting),
    Kind::Other(OtherWord::OutExited),
    Kind::Other(OtherWord::GcMinorStart),
    Kind::Other(OtherWord::GcMinorEnd),
    Kind::Other(OtherWord::GcMajorStart),
    Kind::Other(OtherWord::GcMajorEnd),
    Kind::Other(OtherWord::GcMaxHeapSize),
    Kind::Other(OtherWord::Open),
    Kind::Other(OtherWord::Closed),
    Kind::SeqTrace,
];

/// The word of the kind with this index: those of the readable listing, then `opaque`, and from there on `other`.
pub fn kind_at(place: usize) -> &'static str
    ensures { result.now ≡ word_at place }
{
    match KINDS.get(place) {
        Some(kind) => word_of(Some(*kind)),
        None => {
            if place == KINDS.len() {
                "opaque"
            } else {
                word_of(None)
            }
        }
    }
}

/// Whether this is the word for a drop record, or for a part of a long message that isn't whole.
fn is_no_message(word: &str) -> bool
    ensures { result ≡ is_no_message word.now }
{
    word == "drop" || word == "part"
}

/// Whether a listing may have a kind of this word.
pub fn is_kind(word: &str) -> bool
    ensures is { result ≡ is_kind_word word.now }
    ensures each { (kind : Option Kind) → word.now ≡ kind_word kind → result ≡ true }
{
    is_no_message(word) || (0..KIND_COUNT).any(|place| kind_at(place) == word)
}
