//! Where a trace is stored.
ghost use Rattle.std.specs.Prelude.{◌≡◌, ◌≤◌, [], unwrap_or};
ghost use Rattle.std.specs.Option.{option_copied};
ghost use Rattle.trace_lookup.specs.Places.{file_count, run_end_of};

use crate::lookup::Found;
use command_line::{Asked, Shape, Wanted};
use std::alloc::{AllocError, Global};
use wrap_port::file_name;

/// How a trace is stored.
#[derive(Clone, Copy)]
pub enum Kind {
    /// In one file.
    File,
    /// In files that are used again, and one more of them than the runs that are kept.
    Wrap { count: u16 },
}

/// What ends a run of a wrap.
#[derive(Clone, Copy)]
pub enum RunEnd {
    /// More than so many bytes.
    Size(u32),
    /// So many milliseconds.
    Time(u32),
}

/// The most runs that a wrap keeps.
pub const MOST_RUNS: u16 = 1_000;

/// The runs that a new wrap keeps where the command line doesn't say.
const STANDARD_RUNS: u16 = 8;

/// Bytes of a run of a wrap where the command line doesn't say.
const STANDARD_SIZE: u32 = 131_072;

impl RunEnd {
    /// What ends a run of a new wrap, as the command line asks for it.
    pub fn of(wanted: &Wanted<'_>) -> RunEnd
        ensures { result ≡ run_end_of wanted.now }
    {
        match wanted.time {
            Some(millis) => RunEnd::Time(millis),
            None => RunEnd::Size(wanted.size.unwrap_or(STANDARD_SIZE)),
        }
    }
}

/// Where a trace is stored: a file of this name, or files whose names are this, a number and the suffix.
#[derive(Clone, Copy)]
pub struct Place<'a> {
    pub kind: Kind,
    pub base: &'a str,
    pub suffix: &'a str,
    ghost few: { file_count kind ≤ 1001 },
}

impl<'a> Place<'a> {
    ghost use Rattle.trace_lookup.specs.Finding.{runs_by, IsOfKind, IsPlaceFor};
    ghost use Rattle.trace_lookup.specs.declared.place.Kind.TheVariants as kinds;

    /// Where the trace is that the command line asks for, by what was found of it.
    pub fn of(asked: &Asked<'a>, found: &Found) -> Place<'a>
        ensures { IsPlaceFor asked.now found.now result }
    {
        match found {
            Found::File => Place::of_file(asked),
            Found::Wrap(_) => Place::of_wrap(asked, found.count()),
            Found::Nothing => match asked.shape {
                Some(Shape::Wrap) => Place::of_wrap(asked, None),
                Some(Shape::File) | None => Place::of_file(asked),
            },
        }
    }

    /// The trace of one file.
    pub fn of_file(asked: &Asked<'a>) -> Place<'a>
        ensures { IsOfKind kinds.File asked.now result }
    {
        Place {
            kind: Kind::File,
            base: asked.base,
            suffix: "",
        }
    }

    /// The wrap that keeps so many runs, or what the command line says.
    pub fn of_wrap(asked: &Asked<'a>, found: Option<u16>) -> Place<'a>
        ensures { IsOfKind (kinds.Wrap (runs_by found asked.now.count)) asked.now result }
    {
        let count = found.or(asked.count).unwrap_or(STANDARD_RUNS);
        Place {
            kind: Kind::Wrap {
                count: count.min(MOST_RUNS),
            },
            base: asked.base,
            suffix: suffix_of(asked),
        }
    }
}

/// What the names of wrap files end with.
fn suffix_of<'a>(asked: &Asked<'a>) -> &'a str
    ensures { result.now ≡ unwrap_or (option_copied asked.now.suffix) [] }
{
    match asked.suffix {
        Some(suffix) => suffix,
        None => "",
    }
}

impl Place<'_> {
    ghost use Rattle.std.specs.Prelude.{◌≡◌, length, IfOk, map};
    ghost use Rattle.std.specs.String.{string_bytes};
    ghost use Rattle.trace_lookup.specs.{Places.name_of, Finding.AreNames};

    /// How many files there are.
    pub fn files(&self) -> u32
        ensures { result ≡ file_count self.now.kind }
    {
        match self.kind {
            Kind::File => 1,
            Kind::Wrap { count } => u32::from(count) + 1,
        }
    }

    /// The name of file `k`.
    pub fn name(&self, alloc: Global, k: u32) -> Result<String, AllocError>
        ensures { IfOk result (λ name. string_bytes name
            ≡ name_of self.now.kind self.now.base.now self.now.suffix.now k) }
    {
        match self.kind {
            Kind::File => String::from_str(alloc, self.base),
            Kind::Wrap { count: _ } => file_name(alloc, self.base, k, self.suffix),
        }
    }

    /// The names of all files, in the order of their numbers.
    pub fn names(&self, alloc: Global) -> Result<Vec<String>, AllocError>
        ensures count { IfOk result (λ names. length names.items ≡ file_count self.now.kind) }
        ensures names { IfOk result (λ names. AreNames self.now (map string_bytes names.items)) }
    {
        let mut names = Vec::new(alloc);
        for k in 0..self.files() {
            names.push(self.name(alloc, k)?)?;
        }
        Ok(names)
    }
}
