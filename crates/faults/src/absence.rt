//! Why a trace isn't where it is asked for.

use crate::complaint::Advice;
use command_line::{Asked, Shape};
use std::alloc::AllocError;
use trace_lookup::{
    Found, Kind, Member, Place, Spot, first_wrap_file, has_bytes, spot_of, wrap_of, wrap_of_closed,
};

/// The wrap that is there.
fn wrap_there(rt: &HostRuntime, asked: &Asked<'_>) -> Result<Option<Advice>, AllocError> {
    Ok(match first_wrap_file(rt, *asked)? {
        Some(name) => Some(Advice::ThereIsWrap { name }),
        None => None,
    })
}

/// The file that is there.
fn file_there(rt: &HostRuntime, name: &str) -> Result<Option<Advice>, AllocError> {
    if !has_bytes(rt, name) {
        return Ok(None);
    }
    let name = String::from_str(rt.alloc(), name)?;
    Ok(Some(Advice::ThereIsFile { name }))
}

/// What is there of the other kind.
fn of_other_kind(rt: &HostRuntime, asked: &Asked<'_>) -> Result<Option<Advice>, AllocError> {
    match asked.shape {
        Some(Shape::File) => wrap_there(rt, asked),
        Some(Shape::Wrap) => file_there(rt, asked.base),
        None => Ok(None),
    }
}

/// The name of the first file of a wrap, where it isn't said whether one is asked for.
fn first_of_wrap(rt: &HostRuntime, asked: &Asked<'_>) -> Result<Option<String>, AllocError> {
    match asked.shape {
        None => Ok(Some(Place::of_wrap(asked, None).name(rt.alloc(), 0)?)),
        Some(_) => Ok(None),
    }
}

/// What is told of a link to a file that isn't there.
fn no_target(rt: &HostRuntime, name: &str, target: String) -> Result<Option<Advice>, AllocError> {
    let name = String::from_str(rt.alloc(), name)?;
    Ok(Some(Advice::NoTarget { name, target }))
}

/// What keeps a file of this name from being made: that its folder, or what it is a link to, isn't there.
pub fn in_the_way(rt: &HostRuntime, name: &str) -> Result<Option<Advice>, AllocError> {
    match spot_of(rt, name)? {
        Spot::NoFolder { folder } => Ok(Some(Advice::NoFolder { folder })),
        Spot::NoTarget { target } => no_target(rt, name, target),
        Spot::Free | Spot::Taken => Ok(None),
    }
}

fn is_free(rt: &HostRuntime, name: &str) -> Result<bool, AllocError> {
    Ok(matches!(spot_of(rt, name)?, Spot::Free))
}

/// Whether neither name is taken.
fn are_free(rt: &HostRuntime, name: &str, other: &Option<String>) -> Result<bool, AllocError> {
    if !is_free(rt, name)? {
        return Ok(false);
    }
    match other {
        Some(other) => is_free(rt, other.as_str()),
        None => Ok(true),
    }
}

/// What is told of files that are there and hold nothing.
fn is_empty(rt: &HostRuntime, base: &str) -> Result<Advice, AllocError> {
    Ok(Advice::IsEmpty {
        name: String::from_str(rt.alloc(), base)?,
    })
}

/// Says of files without a byte whether they are there.
fn empty_or_not(rt: &HostRuntime, asked: &Asked<'_>, name: String) -> Result<Advice, AllocError> {
    let other = first_of_wrap(rt, asked)?;
    if are_free(rt, name.as_str(), &other)? {
        Ok(Advice::NotThere { name, other })
    } else {
        is_empty(rt, asked.base)
    }
}

/// Why there is no trace where none of the other kind is.
fn why_absent(rt: &HostRuntime, asked: &Asked<'_>, found: &Found) -> Result<Advice, AllocError> {
    let name = Place::of(asked, found).name(rt.alloc(), 0)?;
    match in_the_way(rt, name.as_str())? {
        Some(advice) => Ok(advice),
        None => empty_or_not(rt, asked, name),
    }
}

/// What is there in place of a trace that isn't, or why nothing is, by what was found.
pub fn instead(rt: &HostRuntime, asked: &Asked<'_>, found: &Found) -> Result<Advice, AllocError> {
    match of_other_kind(rt, asked)? {
        Some(advice) => Ok(advice),
        None => why_absent(rt, asked, found),
    }
}

/// The wrap of which one file is asked for, and the command that takes that.
pub fn wrap_instead(
    rt: &HostRuntime,
    place: &Place<'_>,
    command: &'static str,
) -> Result<Option<Advice>, AllocError> {
    if !matches!(place.kind, Kind::File) {
        return Ok(None);
    }
    of_wrap(rt, place.base, wrap_of(*rt, place.base)?, command)
}

/// The same of a file of this name that is closed.
pub fn wrap_around(
    rt: &HostRuntime,
    name: &str,
    command: &'static str,
) -> Result<Option<Advice>, AllocError> {
    of_wrap(rt, name, wrap_of_closed(*rt, name)?, command)
}

/// Tells of which wrap a file is one, where it is one.
fn of_wrap(
    rt: &HostRuntime,
    name: &str,
    member: Option<Member>,
    command: &'static str,
) -> Result<Option<Advice>, AllocError> {
    let Some(Member { base, suffix }) = member else {
        return Ok(None);
    };
    Ok(Some(Advice::IsOfWrap {
        name: String::from_str(rt.alloc(), name)?,
        base,
        suffix,
        command,
    }))
}
