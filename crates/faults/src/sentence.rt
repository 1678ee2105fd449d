//! Sentences about files.

use std::fmt;
use trace_lookup::Shown;

/// Tells the name of a file, and a text behind it.
pub fn tell_of<W: fmt::Write>(
    f: &mut fmt::Formatter<W>,
    name: &String,
    behind: &str,
) -> fmt::Result {
    let name = Shown(name.as_str());
    write!(f, "{name}{behind}")
}

/// Tells the name of a file between two texts.
pub fn tell_about<W: fmt::Write>(
    f: &mut fmt::Formatter<W>,
    before: &str,
    name: &String,
    behind: &str,
) -> fmt::Result {
    f.write_str(before)?;
    tell_of(f, name, behind)
}

/// Tells the names of two files, with a text before each and one behind both.
pub fn tell_two<W: fmt::Write>(
    f: &mut fmt::Formatter<W>,
    before: &str,
    one: &String,
    between: &str,
    other: &String,
    behind: &str,
) -> fmt::Result {
    tell_about(f, before, one, between)?;
    tell_of(f, other, behind)
}
