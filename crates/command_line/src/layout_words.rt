//! The words of a command line that say how a listing is laid out.

use crate::command::kept;
use crate::layout::{Colours, Layout, Moment, TimeColumn};
use crate::moment::moment_in;
use crate::request::Misuse;
use clap::ArgMatches;
use std::alloc::Global;

/// The moment that an option names, where it is given.
fn moment_asked<'a>(matches: &ArgMatches<'a>, name: &str) -> Result<Option<Moment>, Misuse<'a>> {
    match matches.get_str(name) {
        None => Ok(None),
        Some(text) => match moment_in(text) {
            None => Err(Misuse::Moment(text)),
            found => Ok(found),
        },
    }
}

/// What the column of times has.
fn times_in(matches: &ArgMatches<'_>) -> TimeColumn {
    if matches.get_flag("relative") {
        TimeColumn::SinceFirst
    } else if matches.get_flag("delta") {
        TimeColumn::SinceLast
    } else {
        TimeColumn::Clock
    }
}

/// Where rows have colours.
fn colours_in(matches: &ArgMatches<'_>) -> Colours {
    match matches.get_str("color") {
        Some("always") => Colours::Always,
        Some("never") => Colours::Never,
        _ => Colours::OnTerminal,
    }
}

/// How a listing is laid out that shows what there is from the first moment to the last, and this text.
fn layout_of(
    matches: &ArgMatches<'_>,
    [since, until]: [Option<Moment>; 2],
    grep: Option<String>,
    follows: bool,
) -> Layout {
    let last = matches.get_one::<u32>("last");
    Layout {
        times: times_in(matches),
        colours: colours_in(matches),
        is_full: matches.get_flag("full"),
        width: matches.get_one::<u32>("width"),
        longest_text: matches.get_one::<u32>("longest-text"),
        is_utc: matches.get_flag("utc"),
        since,
        until,
        grep,
        is_from_now: follows && last.is_none() && matches.get_one::<u64>("from").is_none(),
        last,
        follows,
    }
}

/// How a listing is laid out for a person, which may go on with what is added to a trace.
pub fn layout_in<'a>(
    alloc: Global,
    matches: &ArgMatches<'a>,
    follows: bool,
) -> Result<Layout, Misuse<'a>> {
    let moments = [
        moment_asked(matches, "since")?,
        moment_asked(matches, "until")?,
    ];
    let grep = kept(alloc, matches.get_str("grep"))?;
    Ok(layout_of(matches, moments, grep, follows))
}
