//! A trace of which nothing is shown that is asked for: what it has.

use crate::files::Files;
use crate::inventory::Inventory;
use crate::live::hand_live;
use command_line::Shown as Asking;
use shown_listings::{Console, times_told};
use std::alloc::{AllocError, Global};
use std::fmt;
use trace_lookup::Shown;
use trace_text::{Choice, Filter, FunctionAsked};
use trace_views::ViewFeed;

/// The most parts of a choice that are sought.
const MOST: usize = 8;

/// What a part of a choice asks for.
#[derive(Clone, Copy)]
enum Sought<'a> {
    Kinds(&'a str),
    Process(&'a str),
    Function(&'a FunctionAsked),
}

impl fmt::Display for Sought<'_> {
    fn fmt<W: fmt::Write>(&self, f: &mut fmt::Formatter<W>) -> fmt::Result {
        match self {
            Sought::Kinds(kinds) => write!(f, "of kind {kinds}"),
            Sought::Process(process) => write!(f, "of the process {process}"),
            Sought::Function(function) => {
                let module = function.module.as_str();
                write!(f, "of the function {module}")?;
                if let Some(name) = &function.name {
                    let name = name.as_str();
                    write!(f, ":{name}")?;
                }
                match function.arity {
                    Some(arity) => write!(f, "/{arity}"),
                    None => Ok(()),
                }
            }
        }
    }
}

/// A copy of a text, where there is one.
fn copied(text: &Option<String>) -> Result<Option<String>, AllocError> {
    match text {
        Some(text) => Ok(Some(text.clone()?)),
        None => Ok(None),
    }
}

fn no_filter(alloc: Global) -> Filter {
    Filter {
        kinds: None,
        pids: Vec::new(alloc),
        functions: Vec::new(alloc),
    }
}

/// A choice of that alone.
fn choice_of(alloc: Global, sought: Sought<'_>) -> Result<Choice, AllocError> {
    let mut only = no_filter(alloc);
    match sought {
        Sought::Kinds(kinds) => only.kinds = Some(String::from_str(alloc, kinds)?),
        Sought::Process(process) => only.pids.push(String::from_str(alloc, process)?)?,
        Sought::Function(function) => only.functions.push(FunctionAsked {
            module: function.module.clone()?,
            name: copied(&function.name)?,
            arity: function.arity,
        })?,
    }
    Ok(Choice {
        from: None,
        to: None,
        is_whole: true,
        only,
        not: no_filter(alloc),
    })
}

/// What a choice asks for, by its parts.
fn parts_of(alloc: Global, choice: &Choice) -> Result<Vec<Sought<'_>>, AllocError> {
    let only = &choice.only;
    let mut parts = Vec::new(alloc);
    if let Some(kinds) = &only.kinds {
        parts.push(Sought::Kinds(kinds.as_str()))?;
    }
    for process in &only.pids {
        parts.push(Sought::Process(process.as_str()))?;
    }
    for function in &only.functions {
        parts.push(Sought::Function(function))?;
    }
    Ok(parts)
}

/// What files have of what a choice asks for, or of all, with the numbers of the first entry and of the last; up to the first
/// message where `is_to_stop` is true.
fn inventory(
    rt: &HostRuntime,
    files: &Files<'_>,
    choice: Option<&Choice>,
    is_to_stop: bool,
) -> Result<(Inventory, Option<(u64, u64)>), AllocError> {
    let mut files = files.again()?;
    let mut console = Console::new(*rt, true);
    let found = Inventory::new(rt.alloc(), is_to_stop);
    let mut feed = ViewFeed::new(rt.alloc(), choice, found, &mut console);
    let _ = hand_live(&mut files, &mut feed);
    let numbers = feed.numbers();
    Ok((feed.into_view(), numbers))
}

/// Tells which entries files have, and when they were.
fn tell_all(rt: &HostRuntime, files: &Files<'_>, asking: &Asking) -> Result<bool, AllocError> {
    let (found, numbers) = inventory(rt, files, None, false)?;
    let name = Shown(files.base());
    let Some((first, last)) = numbers else {
        let _ = eprintln!(rt; "dbgrec: {name}: no message is shown: it has no entry");
        return Ok(false);
    };
    match found.times {
        Some(times) => {
            let (from, to) = times_told(rt, times, asking.layout.as_ref())?;
            let (from, to) = (from.as_str(), to.as_str());
            let _ = eprintln!(rt;
                "dbgrec: {name}: no message is shown: it has entries {first} to {last}, from {from} to {to}"
            );
        }
        None => {
            let _ = eprintln!(rt;
                "dbgrec: {name}: no message is shown: it has entries {first} to {last}"
            );
        }
    }
    Ok(true)
}

/// Tells whether files have messages of what a part of a choice asks for.
fn tell_part(rt: &HostRuntime, files: &Files<'_>, sought: Sought<'_>) -> Result<(), AllocError> {
    let choice = choice_of(rt.alloc(), sought)?;
    let (found, _) = inventory(rt, files, Some(&choice), true)?;
    let some = if found.has_message {
        "there are messages"
    } else {
        "there is no message"
    };
    let _ = eprintln!(rt; "{some} {sought}");
    Ok(())
}

/// Tells what files have, and whether that has messages of each part of what is asked for.
fn tell(rt: &HostRuntime, files: &Files<'_>, asking: &Asking) -> Result<(), AllocError> {
    if !tell_all(rt, files, asking)? {
        return Ok(());
    }
    let Some(choice) = &asking.choice else {
        return Ok(());
    };
    let parts = parts_of(rt.alloc(), choice)?;
    for sought in parts.iter().take(MOST) {
        tell_part(rt, files, *sought)?;
    }
    Ok(())
}

/// Tells on standard error what files have, of which no message is shown that is asked for. Where there is no memory, it tells
/// less.
pub fn tell_unshown(rt: &HostRuntime, files: &Files<'_>, asking: &Asking) {
    let _ = tell(rt, files, asking);
}
