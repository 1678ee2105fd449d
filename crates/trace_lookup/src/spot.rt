//! What stands under the name of a file, where no file of a trace does.

use std::alloc::AllocError;
use std::fs;
use std::io::{self, ErrorKind};
use std::path::Path;

/// What stands under a name.
#[derive(Drop)]
pub enum Spot {
    /// Its folder isn't there.
    NoFolder { folder: String },
    /// A link to something that isn't there.
    NoTarget { target: String },
    /// Nothing.
    Free,
    /// Anything else, or what can't be looked at.
    Taken,
}

/// Whether nothing stands under a name, also through a link.
fn is_gone(rt: &HostRuntime, name: &str) -> Result<bool, AllocError> {
    match fs::metadata(rt, name) {
        Ok(_) => Ok(false),
        Err(reason) => is_not_found(reason),
    }
}

fn is_not_found(reason: io::Error) -> Result<bool, AllocError> {
    match reason.kind() {
        ErrorKind::OutOfMemory => Err(AllocError),
        kind => Ok(kind == ErrorKind::NotFound),
    }
}

/// The folder that a name tells; None where it tells none.
fn folder_in(name: &str) -> Option<&str> {
    let folder = Path::new(name).parent()?.as_str();
    if folder.is_empty() {
        None
    } else {
        Some(folder)
    }
}

/// What a link of this name leads to. None where it is no link.
fn target_of(rt: &HostRuntime, name: &str) -> Result<Option<String>, AllocError> {
    match fs::read_link(rt, name) {
        Ok(target) => Ok(Some(target.into_string())),
        Err(reason) if reason.kind() == ErrorKind::OutOfMemory => Err(AllocError),
        Err(_) => Ok(None),
    }
}

/// What stands under a name.
pub fn spot_of(rt: &HostRuntime, name: &str) -> Result<Spot, AllocError> {
    if !is_gone(rt, name)? {
        return Ok(Spot::Taken);
    }
    if let Some(folder) = folder_in(name)
        && is_gone(rt, folder)?
    {
        return Ok(Spot::NoFolder {
            folder: String::from_str(rt.alloc(), folder)?,
        });
    }
    Ok(match target_of(rt, name)? {
        Some(target) => Spot::NoTarget { target },
        None => Spot::Free,
    })
}
