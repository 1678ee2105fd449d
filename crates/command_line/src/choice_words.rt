//! The words of a command line that say which entries are listed.

ghost use Rattle.std.specs.Prelude.{◌≡◌, IfOk};

use crate::command::kept;
use crate::function::{Function, function_in};
use crate::process::{is_name, is_process};
use crate::request::Misuse;
use clap::ArgMatches;
use std::alloc::{AllocError, Global};
use trace_text::{Choice, Filter, FunctionAsked, is_kind};

/// Whether kinds, processes or functions are named. What tells of them tells of those of a readable listing.
pub fn asks_of_messages(matches: &ArgMatches<'_>) -> bool {
    for name in ["only", "pid", "mfa", "not", "not-pid", "not-mfa"] {
        if matches.contains_id(name) {
            return true;
        }
    }
    false
}

/// The words of kinds, if each is one.
fn kinds_in<'a>(text: &'a str) -> Result<&'a str, Misuse<'a>>
    ensures { IfOk result (λ kinds. kinds.now ≡ text.entry.now) }
{
    for word in text.split(',') {
        if !is_kind(word) {
            return Err(Misuse::Kind(word));
        }
    }
    Ok(text)
}

/// Adds words to those that are there, with a comma between.
fn join(alloc: Global, words: &mut Option<String>, more: &str) -> Result<(), AllocError> {
    match words {
        Some(words) => {
            words.push(',')?;
            words.push_str(more)
        }
        None => {
            *words = Some(String::from_str(alloc, more)?);
            Ok(())
        }
    }
}

/// Adds the words of the kinds that an option names.
fn add_kinds<'a>(
    alloc: Global,
    matches: &ArgMatches<'a>,
    name: &str,
    words: &mut Option<String>,
) -> Result<(), Misuse<'a>> {
    for text in matches.get_strs(name).unwrap_or(&[]) {
        join(alloc, words, kinds_in(text)?)?;
    }
    Ok(())
}

/// Whether a text may name processes. A name can be looked up where there is a trace, and not in a stream, which is read once.
fn names_process(matches: &ArgMatches<'_>, text: &str) -> bool {
    is_process(text)
        || match matches.get_str("BASE") {
            Some(base) => base != "-" && is_name(text),
            None => false,
        }
}

/// Adds a text to those that are there.
fn add_text(alloc: Global, texts: &mut Vec<String>, text: &str) -> Result<(), AllocError> {
    Ok(texts.push(String::from_str(alloc, text)?)?)
}

/// Adds the processes that an option names.
fn add_processes<'a>(
    alloc: Global,
    matches: &ArgMatches<'a>,
    name: &str,
    processes: &mut Vec<String>,
) -> Result<(), Misuse<'a>> {
    for text in matches.get_strs(name).unwrap_or(&[]) {
        if !names_process(matches, text) {
            return Err(Misuse::Process(text));
        }
        add_text(alloc, processes, text)?;
    }
    Ok(())
}

/// A function that is kept.
fn function_kept(alloc: Global, function: Function<'_>) -> Result<FunctionAsked, AllocError> {
    Ok(FunctionAsked {
        module: String::from_str(alloc, function.module)?,
        name: kept(alloc, function.name)?,
        arity: function.arity,
    })
}

/// Adds a function to those that are there.
fn add_function(
    alloc: Global,
    functions: &mut Vec<FunctionAsked>,
    function: Function<'_>,
) -> Result<(), AllocError> {
    Ok(functions.push(function_kept(alloc, function)?)?)
}

/// Adds the functions that an option names.
fn add_functions<'a>(
    alloc: Global,
    matches: &ArgMatches<'a>,
    name: &str,
    functions: &mut Vec<FunctionAsked>,
) -> Result<(), Misuse<'a>> {
    for text in matches.get_strs(name).unwrap_or(&[]) {
        match function_in(text) {
            None => return Err(Misuse::Function(text)),
            Some(function) => add_function(alloc, functions, function)?,
        }
    }
    Ok(())
}

/// Adds the kinds, processes and functions that three options name.
fn fill<'a>(
    alloc: Global,
    matches: &ArgMatches<'a>,
    [kinds, pids, functions]: [&str; 3],
    filter: &mut Filter,
) -> Result<(), Misuse<'a>> {
    add_kinds(alloc, matches, kinds, &mut filter.kinds)?;
    add_processes(alloc, matches, pids, &mut filter.pids)?;
    add_functions(alloc, matches, functions, &mut filter.functions)
}

/// A filter that names nothing.
fn no_filter(alloc: Global) -> Filter {
    Filter {
        kinds: None,
        pids: Vec::new(alloc),
        functions: Vec::new(alloc),
    }
}

/// Adds what the options say of messages.
fn fill_both<'a>(
    alloc: Global,
    matches: &ArgMatches<'a>,
    choice: &mut Choice,
) -> Result<(), Misuse<'a>> {
    fill(alloc, matches, ["only", "pid", "mfa"], &mut choice.only)?;
    fill(
        alloc,
        matches,
        ["not", "not-pid", "not-mfa"],
        &mut choice.not,
    )
}

/// Which entries of a listing are shown; None stands for all.
pub fn choice_in<'a>(
    alloc: Global,
    matches: &ArgMatches<'a>,
) -> Result<Option<Choice>, Misuse<'a>> {
    let from = matches.get_one::<u64>("from");
    let to = matches.get_one::<u64>("to");
    if from.is_none() && to.is_none() && !asks_of_messages(matches) {
        return Ok(None);
    }
    let mut choice = Choice {
        from,
        to,
        is_whole: matches.get_flag("salvage"),
        only: no_filter(alloc),
        not: no_filter(alloc),
    };
    match fill_both(alloc, matches, &mut choice) {
        Ok(()) => Ok(Some(choice)),
        Err(misuse) => Err(misuse),
    }
}
