//! What stands before a term among others.

ghost use Rattle.std.specs.Prelude.{◌≡◌, ◌++◌, OnOk};
ghost use Rattle.trace_text.specs.Separators.{before, then_one};

use std::alloc::AllocError;

/// How a term stands among others.
#[derive(Clone, Copy)]
pub enum Separator {
    /// After another member.
    Behind,
    /// The first member.
    First,
    /// The first key of a map.
    FirstKey,
    /// Another key.
    Key,
    /// The value of the key before it.
    Value,
}

impl Separator {
    /// What stands before the term that comes after one with this separator.
    pub fn next(self) -> Separator
        ensures { result ≡ then_one self }
    {
        match self {
            Separator::Behind | Separator::First => Separator::Behind,
            Separator::FirstKey | Separator::Key => Separator::Value,
            Separator::Value => Separator::Key,
        }
    }
}

/// Appends what comes before a term with this separator: a comma, an arrow or nothing.
pub fn put_before(line: &mut Vec<u8>, separator: Separator) -> Result<(), AllocError>
    ensures { OnOk result (line.new.items ≡ line.old.items ++ before separator) }
{
    match separator {
        Separator::Behind | Separator::Key => Ok(line.push(b',')?),
        Separator::First | Separator::FirstKey => Ok(()),
        Separator::Value => line.extend_from_slice(b" => "),
    }
}
