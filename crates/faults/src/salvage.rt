//! What is told of files that were taken each by itself.

use crate::sentence::tell_about;
use std::fmt;

/// What came of a salvage.
#[derive(Drop)]
pub struct Salvage {
    /// How many files are written.
    pub files: u64,
    /// How many entries they have.
    pub entries: u64,
    /// How many of these are shown.
    pub shown: u64,
    /// How many others there are, as the headers of the files tell.
    pub missing: u64,
    /// The files that have bytes and aren't open segments, and aren't closed.
    pub passed: Vec<String>,
}

/// A number of things.
#[derive(Clone, Copy)]
struct Count {
    number: u64,
    one: &'static str,
    many: &'static str,
}

impl fmt::Display for Count {
    fn fmt<W: fmt::Write>(&self, f: &mut fmt::Formatter<W>) -> fmt::Result {
        let noun = if self.number == 1 {
            self.one
        } else {
            self.many
        };
        write!(f, "{} {noun}", self.number)
    }
}

/// Before how many entries there are, how many of them are shown, where not all are.
#[derive(Clone, Copy)]
struct ShownOf(u64, u64);

impl fmt::Display for ShownOf {
    fn fmt<W: fmt::Write>(&self, f: &mut fmt::Formatter<W>) -> fmt::Result {
        if self.0 < self.1 {
            write!(f, "{} of ", self.0)
        } else {
            Ok(())
        }
    }
}

/// Which files are passed over.
#[derive(Clone, Copy)]
struct Passed<'a>(&'a [String]);

impl fmt::Display for Passed<'_> {
    fn fmt<W: fmt::Write>(&self, f: &mut fmt::Formatter<W>) -> fmt::Result {
        let mut before = "; passed over: ";
        for name in self.0 {
            tell_about(f, before, name, "")?;
            before = ", ";
        }
        Ok(())
    }
}

impl fmt::Display for Salvage {
    fn fmt<W: fmt::Write>(&self, f: &mut fmt::Formatter<W>) -> fmt::Result {
        let shown = ShownOf(self.shown, self.entries);
        let entries = Count {
            number: self.entries,
            one: "entry",
            many: "entries",
        };
        let files = Count {
            number: self.files,
            one: "file",
            many: "files",
        };
        let (missing, passed) = (self.missing, Passed(&self.passed));
        write!(
            f,
            "this isn't the trace, but what its files hold one by one: {shown}{entries} of {files}, and {missing} missing as far as their headers tell{passed}; list without --salvage says why it is refused"
        )
    }
}
