//! What the format and this subset of it fix.

/// The version of the format, which stands before each term.
pub const VERSION: u8 = 131;

/// How many tuples and lists may be nested in one another.
pub const MAX_DEPTH: u32 = 64;

/// The longest spelling that encoding gives, in bytes.
pub const MAX_SIZE: usize = 65_531;
