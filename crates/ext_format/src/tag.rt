//! The tags of the External Term Format, each named as its section there.

ghost use Rattle.std.specs.Prelude.{◌≡◌};
ghost use Rattle.ext_format.specs.Tags.{tag_of};

/// One unsigned byte.
pub const SMALL_INTEGER_EXT: u8 = 97;

/// A signed number of 32 bits.
pub const INTEGER_EXT: u8 = 98;

/// A number of up to 255 bytes, and its sign.
pub const SMALL_BIG_EXT: u8 = 110;

/// An atom of up to 255 bytes of UTF-8.
pub const SMALL_ATOM_UTF8_EXT: u8 = 119;

/// An atom whose length in bytes of UTF-8 takes 16 bits.
pub const ATOM_UTF8_EXT: u8 = 118;

/// An atom of up to 255 characters of Latin-1.
pub const SMALL_ATOM_EXT: u8 = 115;

/// An atom whose length in characters of Latin-1 takes 16 bits.
pub const ATOM_EXT: u8 = 100;

/// A process, with a creation of 32 bits.
pub const NEW_PID_EXT: u8 = 88;

/// A process, with a creation of 8 bits.
pub const PID_EXT: u8 = 103;

/// A tuple of up to 255 members.
pub const SMALL_TUPLE_EXT: u8 = 104;

/// A tuple whose number of members takes 32 bits.
pub const LARGE_TUPLE_EXT: u8 = 105;

/// The empty list.
pub const NIL_EXT: u8 = 106;

/// A list of bytes.
pub const STRING_EXT: u8 = 107;

/// A list of terms, and its tail.
pub const LIST_EXT: u8 = 108;

/// Bytes.
pub const BINARY_EXT: u8 = 109;

/// What stands after a tag byte.
#[derive(Clone, Copy)]
pub enum Tag {
    /// SMALL_INTEGER_EXT: a byte, an unsigned number.
    SmallIntegerExt,
    /// INTEGER_EXT: four bytes, a signed number.
    IntegerExt,
    /// SMALL_BIG_EXT: a number of bytes, a sign, and that many bytes of the number's
    /// size, the least significant first. Every sign but 0 is negative.
    SmallBigExt,
    /// SMALL_ATOM_UTF8_EXT: a length of one byte and that many bytes of UTF-8.
    SmallAtomUtf8Ext,
    /// ATOM_UTF8_EXT: a length of two bytes and that many bytes of UTF-8.
    AtomUtf8Ext,
    /// SMALL_ATOM_EXT (deprecated): a length of one byte and that many of Latin-1.
    SmallAtomExt,
    /// ATOM_EXT (deprecated): a length of two bytes and that many of Latin-1.
    AtomExt,
    /// NEW_PID_EXT: an atom, and three numbers of four bytes.
    NewPidExt,
    /// PID_EXT: an atom, two numbers of four bytes and one of a byte.
    PidExt,
    /// SMALL_TUPLE_EXT: an arity of one byte and that many terms.
    SmallTupleExt,
    /// LARGE_TUPLE_EXT: an arity of four bytes and that many terms.
    LargeTupleExt,
    /// NIL_EXT: nothing; the empty list.
    NilExt,
    /// STRING_EXT: a length of two bytes and that many bytes, each an integer.
    StringExt,
    /// LIST_EXT: a length of four bytes, that many terms, and the tail.
    ListExt,
    /// BINARY_EXT: a length of four bytes and that many bytes.
    BinaryExt,
}

/// The tag of a byte, if it is one of these.
#[tactic(auto, unfolding(crate::specs::Tags::tag_of))]
pub fn tag_named(byte: u8) -> Option<Tag>
    ensures { result ≡ tag_of byte }
{
    match byte {
        SMALL_INTEGER_EXT => Some(Tag::SmallIntegerExt),
        INTEGER_EXT => Some(Tag::IntegerExt),
        SMALL_BIG_EXT => Some(Tag::SmallBigExt),
        SMALL_ATOM_UTF8_EXT => Some(Tag::SmallAtomUtf8Ext),
        ATOM_UTF8_EXT => Some(Tag::AtomUtf8Ext),
        SMALL_ATOM_EXT => Some(Tag::SmallAtomExt),
        ATOM_EXT => Some(Tag::AtomExt),
        NEW_PID_EXT => Some(Tag::NewPidExt),
        PID_EXT => Some(Tag::PidExt),
        SMALL_TUPLE_EXT => Some(Tag::SmallTupleExt),
        LARGE_TUPLE_EXT => Some(Tag::LargeTupleExt),
        NIL_EXT => Some(Tag::NilExt),
        STRING_EXT => Some(Tag::StringExt),
        LIST_EXT => Some(Tag::ListExt),
        BINARY_EXT => Some(Tag::BinaryExt),
        _ => None,
    }
}
