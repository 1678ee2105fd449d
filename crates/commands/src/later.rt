//! A listing that begins near the end of a trace.
ghost use Rattle.std.specs.Prelude.{◌≡◌, true, OnSome, IfOk, IfErr};
ghost use Rattle.trace_text.specs.Choosing.{asked_of};
ghost use Rattle.commands.specs.Later.{nothing, IsApart, IsList, ShowsLast, EndsAtTheEnd, MayBeginLater, ShowsNew, IsNotLater, IsChoiceFrom, start_asked, IsBegunAt, as_asked, later_of, LooksUpTo, IsNearEndOf};
ghost use Rattle.recovery.specs.CallCounts.{most_in};

use crate::files::Files;
use command_line::{Layout, Shown, TimeColumn, TraceRequest};
use std::alloc::Global;
use trace_text::{Choice, Filter};

/// How many entries from the end on are listed at least.
const LEAST: u64 = 10_000;

/// How many entries are listed for each row that is asked for.
const FOR_EACH: u64 = 4;

/// How many of the last entries are listed for so many rows.
pub fn entries_for(last: u32) -> u64 {
    (u64::from(last) * FOR_EACH).max(LEAST)
}

fn is_list(request: &TraceRequest<'_>) -> bool
    ensures { result ≡ true → IsList request.now }
{
    matches!(request, TraceRequest::List { .. })
}

/// Whether times don't depend on the first that is listed.
fn is_apart(times: TimeColumn) -> bool
    ensures { result ≡ true → IsApart times }
{
    match times {
        TimeColumn::Clock | TimeColumn::SinceLast => true,
        TimeColumn::SinceFirst => false,
    }
}

/// How many of the last rows alone are shown, where nothing in them depends on where their listing begins.
fn last_in(layout: &Option<Layout>) -> Option<u32>
    ensures { OnSome result (ShowsLast layout.now) }
{
    match layout {
        Some(layout) if is_apart(layout.times) => layout.last,
        _ => None,
    }
}

/// Whether a listing goes on to the end.
fn is_to_end(choice: &Option<Choice>) -> bool
    ensures { result ≡ true → EndsAtTheEnd choice.now }
{
    choice.as_ref().is_none_or(|choice| choice.to.is_none())
}

/// How many of the last rows of a trace alone are shown, where its listing may begin near the end.
pub fn last_of(request: &TraceRequest<'_>, shown: &Shown) -> Option<u32>
    ensures { OnSome result (MayBeginLater request.now shown.now) }
{
    if is_list(request) && is_to_end(&shown.choice) {
        last_in(&shown.layout)
    } else {
        None
    }
}

/// Whether what is shown of a trace that is followed is what comes from now on.
pub fn shows_new(shown: &Shown) -> bool
    ensures { result ≡ true → ShowsNew shown.now }
{
    match &shown.layout {
        Some(layout) => layout.is_from_now && is_to_end(&shown.choice),
        None => false,
    }
}

/// The entry at which a listing begins near the end, or a later one where the choice asks for that.
fn not_before(choice: &Option<Choice>, first: u64) -> u64
    ensures is { result ≡ later_of choice.now first }
    ensures not_later { IsNotLater choice.now result }
{
    match choice {
        Some(choice) => choice.from.map_or(first, |own| own.max(first)),
        None => first,
    }
}

fn no_filter(alloc: Global) -> Filter
    ensures { asked_of result ≡ nothing }
{
    Filter {
        kinds: None,
        pids: Vec::new(alloc),
        functions: Vec::new(alloc),
    }
}

/// The same choice from this entry on.
fn choice_from(alloc: Global, choice: Option<Choice>, first: u64) -> Choice
    ensures { IsChoiceFrom first choice result }
{
    match choice {
        Some(choice) => Choice {
            from: Some(first),
            ..choice
        },
        None => Choice {
            from: Some(first),
            to: None,
            is_whole: false,
            only: no_filter(alloc),
            not: no_filter(alloc),
        },
    }
}

/// Where a choice begins, where there is one.
fn start_asked(choice: &Option<Choice>) -> Option<Option<u64>>
    ensures { result ≡ start_asked choice.now }
{
    match choice {
        Some(choice) => Some(choice.from),
        None => None,
    }
}

/// The same shown from this entry on.
fn shown_from(alloc: Global, shown: Shown, first: u64) -> Shown
    ensures { IsBegunAt first shown result }
{
    let Shown {
        is_json,
        choice,
        is_plain,
        layout,
    } = shown;
    Shown {
        is_json,
        choice: Some(choice_from(alloc, choice, first)),
        is_plain,
        layout,
    }
}

/// What is shown from an entry near the end on.
#[derive(Drop)]
pub struct NearEnd {
    pub first: u64,
    /// Where what is asked begins, where a choice is asked for.
    pub start: Option<Option<u64>>,
    pub later: Shown,
}

/// What is asked, shown from that entry on which is followed by so many at least; as it is asked, where none comes before these
/// or that can't be told.
pub fn near_end(files: &mut Files<'_>, entries: u64, shown: Shown) -> Result<NearEnd, Shown>
    ensures near { IfOk result (IsNearEndOf files.old files.new shown) }
    ensures as_asked { IfErr result (λ asked. asked ≡ shown) }
    ensures looks { LooksUpTo most_in files.old files.new }
{
    let Some(entry) = files.entry_before_end(entries) else {
        return Err(shown);
    };
    let first = not_before(&shown.choice, entry);
    let start = start_asked(&shown.choice);
    let later = shown_from(files.alloc(), shown, first);
    Ok(NearEnd {
        first,
        start,
        later,
    })
}

/// A choice as it was asked for, by where it began, where there was one.
fn choice_as_asked(choice: Option<Choice>, start: Option<Option<u64>>) -> Option<Choice>
    ensures { result ≡ as_asked choice start }
{
    match (choice, start) {
        (Some(choice), Some(from)) => Some(Choice { from, ..choice }),
        _ => None,
    }
}

/// What was to be shown, by where its choice began.
pub fn shown_as_asked(later: Shown, start: Option<Option<u64>>) -> Shown
    ensures { result ≡ record later { choice = as_asked later.choice start } }
{
    let Shown {
        is_json,
        choice,
        is_plain,
        layout,
    } = later;
    Shown {
        is_json,
        choice: choice_as_asked(choice, start),
        is_plain,
        layout,
    }
}
