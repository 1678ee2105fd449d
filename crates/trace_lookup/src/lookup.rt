//! What stands where a command line says that a trace is.
ghost use Rattle.std.specs.Prelude.{◌≡◌, ◌↔◌, IsTrue, IfOk, IfSome, string_bytes};
ghost use Rattle.trace_lookup.specs.Places.{file_count};
ghost use Rattle.trace_lookup.specs.Finding.{count_in, MayBeFile, MayBeWrap, IsInFile, IsInOne, IsFound, IsWrapFile};

use crate::place::{MOST_RUNS, Place};
use command_line::{Asked, Shape};
use foreign_files::first_header;
use recovery::{file_in_turn, files_in_turn};
use segment::{SegHeader, StoreSpec};
use std::alloc::AllocError;
use std::fs;
use stores::FolderStore;

/// What stands there.
#[derive(Clone, Copy)]
pub enum Found {
    /// No file with bytes.
    Nothing,
    /// One file.
    File,
    /// Wrap files, and the header of the first that is open, where there is one.
    Wrap(Option<SegHeader>),
}

impl Found {
    /// The runs that a wrap keeps, where a file of it says so.
    pub fn count(&self) -> Option<u16>
        ensures { result ≡ count_in self.now }
    {
        match self {
            Found::Wrap(Some(header)) => header.spec.count(),
            _ => None,
        }
    }
}

/// Whether a plain file of this name is there and isn't empty.
pub fn has_bytes(rt: &HostRuntime, name: &str) -> bool {
    match fs::metadata(rt, name) {
        Ok(found) => found.is_file() && found.len() > 0,
        Err(_) => false,
    }
}

/// The name of the first wrap file that is there and isn't empty.
pub fn first_wrap_file(rt: &HostRuntime, asked: Asked<'_>) -> Result<Option<String>, AllocError>
    ensures { IfOk result (λ file. IfSome file
        (λ name. IsWrapFile asked.entry (string_bytes name))) }
{
    let place = Place::of_wrap(&asked, Some(MOST_RUNS));
    for k in 0..place.files() {
        let name = place.name(rt.alloc(), k)?;
        if has_bytes(rt, name.as_str()) {
            return Ok(Some(name));
        }
    }
    Ok(None)
}

/// The header of a file, where it is open. None also where it can't be read: who opens the trace is told.
fn header_in(rt: HostRuntime, name: String) -> Result<Option<SegHeader>, AllocError> {
    let mut names = Vec::new(rt.alloc());
    names.push(name)?;
    let mut store = FolderStore::over(rt, names)?;
    Ok(first_header(&mut store).unwrap_or(None))
}

/// A file of a wrap: what the names of that wrap's files begin and end with.
#[derive(Drop)]
pub struct Member {
    pub base: String,
    pub suffix: String,
}

/// The wrap of which the file of this name is one, where its header says so.
pub fn wrap_of(rt: HostRuntime, name: &str) -> Result<Option<Member>, AllocError> {
    let alloc = rt.alloc();
    let Some(header) = header_in(rt, String::from_str(alloc, name)?)? else {
        return Ok(None);
    };
    let file = file_in_turn(header.spec, header.generation);
    let number = format!(in alloc; "{file}")?;
    match name.rsplit_once(number.as_str()) {
        Some((base, suffix)) if header.spec != StoreSpec::File => Ok(Some(Member {
            base: String::from_str(alloc, base)?,
            suffix: String::from_str(alloc, suffix)?,
        })),
        _ => Ok(None),
    }
}

/// Whether a wrap with this header has it in file `k`. Two wraps may share a name: `t10` is a file of `t` and of `t1`.
fn is_in_place(header: &SegHeader, k: u32) -> bool
    ensures { IsTrue result ↔ IsInFile header.now k }
{
    header.spec != StoreSpec::File && file_in_turn(header.spec, header.generation) == k
}

/// Whether one file may be asked for.
fn may_be_file(shape: Option<Shape>) -> bool
    ensures { IsTrue result → MayBeFile shape }
{
    match shape {
        Some(Shape::Wrap) => false,
        Some(Shape::File) | None => true,
    }
}

/// Whether a wrap may be asked for.
fn may_be_wrap(shape: Option<Shape>) -> bool
    ensures { IsTrue result → MayBeWrap shape }
{
    match shape {
        Some(Shape::File) => false,
        Some(Shape::Wrap) | None => true,
    }
}

/// Looks for a wrap: the header of the first of its files that is open and in its place.
fn find_wrap(rt: HostRuntime, asked: Asked<'_>) -> Result<Found, AllocError>
    requires { MayBeWrap asked.shape }
    ensures { IfOk result (IsFound asked.entry.shape) }
{
    let place = Place::of_wrap(&asked, Some(MOST_RUNS));
    let mut is_there = false;
    for k in 0..place.files() {
        let name = place.name(rt.alloc(), k)?;
        if !has_bytes(&rt, name.as_str()) {
            continue;
        }
        is_there = true;
        if let Some(header) = header_in(rt, name)?
            && is_in_place(&header, k)
        {
            return Ok(Found::Wrap(Some(header)));
        }
    }
    Ok(if is_there {
        Found::Wrap(None)
    } else {
        Found::Nothing
    })
}

/// Whether files of these names are those of a wrap that has a file of this number, as one of them says.
fn has_file(rt: HostRuntime, base: &str, suffix: &str, k: u32) -> Result<bool, AllocError> {
    if base.is_empty() || suffix.contains('/') {
        return Ok(false);
    }
    let asked = Asked {
        base,
        shape: Some(Shape::Wrap),
        suffix: Some(suffix),
        count: None,
    };
    Ok(match find_wrap(rt, asked)? {
        Found::Wrap(Some(header)) => k < files_in_turn(header.spec),
        _ => false,
    })
}

/// The wrap of which a file of this name is one that is closed, where another file of that wrap says so.
pub fn wrap_of_closed(rt: HostRuntime, name: &str) -> Result<Option<Member>, AllocError> {
    let alloc = rt.alloc();
    for k in 0..u32::from(MOST_RUNS) + 1 {
        let number = format!(in alloc; "{k}")?;
        if let Some((base, suffix)) = name.rsplit_once(number.as_str())
            && has_file(rt, base, suffix, k)?
        {
            return Ok(Some(Member {
                base: String::from_str(alloc, base)?,
                suffix: String::from_str(alloc, suffix)?,
            }));
        }
    }
    Ok(None)
}

/// Looks for a trace of the shape that is asked for; where none is, for one file and then for a wrap.
pub fn find(rt: HostRuntime, asked: Asked<'_>) -> Result<Found, AllocError>
    ensures { IfOk result (IsFound asked.entry.shape) }
{
    if may_be_file(asked.shape) && has_bytes(&rt, asked.base) {
        return Ok(Found::File);
    }
    if may_be_wrap(asked.shape) {
        find_wrap(rt, asked)
    } else {
        Ok(Found::Nothing)
    }
}
