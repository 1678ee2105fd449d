//! Names of files, as they are told.

use std::fmt;

/// A name as a person reads it: as it is where it is plain, else in quotes, with what isn't plain escaped.
#[derive(Clone, Copy)]
pub struct Shown<'a>(pub &'a str);

/// Whether a byte of a name can be mistaken for nothing else.
fn is_plain(byte: u8) -> bool {
    byte.is_ascii_alphanumeric() || b"_-./+,:@%".contains(&byte)
}

impl fmt::Display for Shown<'_> {
    fn fmt<W: fmt::Write>(&self, f: &mut fmt::Formatter<W>) -> fmt::Result {
        let name = self.0;
        if !name.is_empty() && name.bytes().all(is_plain) {
            f.write_str(name)
        } else {
            write!(f, "{name:?}")
        }
    }
}
