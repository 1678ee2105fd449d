//! The words of a command line, and what they ask for.
ghost use Rattle.std.specs.Prelude.{◌≡◌, IfOk, string_bytes};
ghost use Rattle.std.specs.Option.{option_map, option_copied};

use crate::choice_words::{asks_of_messages, choice_in};
use crate::layout_words::layout_in;
use crate::options::add_options;
use crate::ranking::{Grouping, Order, Ranking};
use crate::request::{
    Asked, Ending, Flushing, Form, Misuse, Request, Rules, Shape, Shown, TraceRequest, Wanted,
};
use crate::size::bytes_in;
use clap::{Arg, ArgMatches, Command, Error};
use std::alloc::{AllocError, Global};
use std::convert::AsStr;
use trace_text::Choice;

/// The most bytes of a message that `stream` shows in full and `import` keeps, unless the command line says so.
const DEFAULT_LONGEST: u32 = 16 << 20;

/// The most that the command line may say.
const GREATEST_LONGEST: u32 = 256 << 20;

/// The least that it may say of an import, which keeps what an entry holds in any case.
const LEAST_KEPT: u32 = 65_531;

/// The most rows of a table that are shown, unless the command line says so.
const DEFAULT_LIMIT: u32 = 20;

/// The commands, what the help says that each does, and what the help of each ends with.
static COMMANDS: [(&str, &str, &str); 10] = [
    (
        "import",
        "Records the entry stream of a node from standard input, and seals the trace at its end",
        "A trace that is there and not sealed is gone on with. A sealed one is kept by export and cleared by wipe. A stream that is truncated or broken doesn't seal, and an input without a byte does nothing.\n\nExample: nc HOST 4711 | dbgrec import trace --kind wrap",
    ),
    (
        "list",
        "Lists a stored trace on standard output",
        "With --from, --to, --only, --pid, --mfa, --not, --not-pid or --not-mfa it shows the entries of which all of these hold, each with its number, and all drop records up to --to. BASE may be -: then an entry stream is read from standard input.\n\nExample: dbgrec list -p trace",
    ),
    (
        "show",
        "Shows a stored trace to a person: times, calls that go in by their depth, colours",
        "BASE may be -: then an entry stream is read from standard input. With -f what is there already is shown with --from or --last alone.\n\nExample: dbgrec show trace",
    ),
    (
        "export",
        "Writes a stored trace on standard output, as the entry stream that dbg:trace_client reads",
        "With --from, --to, --only, --pid, --mfa, --not, --not-pid or --not-mfa it writes the entries of which all of these hold, and all drop records up to --to. BASE may be -: then an entry stream is read from standard input.\n\nExample: dbgrec export trace > trace.out",
    ),
    (
        "info",
        "Tells what a stored trace holds, in numbers",
        "BASE may be -: then an entry stream is read from standard input.\n\nExample: dbgrec info trace",
    ),
    (
        "top",
        "Counts a stored trace's messages by function, process or kind, and the times of its calls",
        "Times are those between a call and its return or exception, where messages have time stamps. BASE may be -: then an entry stream is read from standard input.\n\nExample: dbgrec top trace --sort longest",
    ),
    (
        "wipe",
        "Clears a stored trace, for good",
        "Example: dbgrec wipe trace",
    ),
    (
        "stream",
        "Lists an entry stream from standard input on standard output, each line as it comes",
        "Example: nc HOST 4711 | dbgrec stream -p",
    ),
    (
        "record",
        "Records what a script from standard input says, and seals the trace at its end",
        "Example: dbgrec record trace < desk.script",
    ),
    (
        "sim",
        "Runs a script from standard input over a store in memory",
        "Example: dbgrec sim < examples/first.script",
    ),
];

/// Whether a word is among those of a command line.
fn is_among<S: AsStr>(words: &[S], name: &str) -> bool {
    for word in words {
        if word.as_str() == name {
            return true;
        }
    }
    false
}

/// Whether the word after the program's name is a command.
fn names_command<S: AsStr>(words: &[S]) -> bool {
    let [_, word, ..] = words else {
        return false;
    };
    for (name, _, _) in &COMMANDS {
        if *name == word.as_str() {
            return true;
        }
    }
    false
}

/// A command, with its options where they are asked for.
fn command_of<'a>(
    alloc: Global,
    (name, about, example): (&'a str, &'a str, &'a str),
    is_asked: bool,
) -> Result<Command<'a>, AllocError> {
    let mut options = Vec::new(alloc);
    if is_asked {
        add_options(alloc, name, &mut options)?;
    }
    Command::new(alloc, name)
        .about(about)
        .after_help(example)
        .args(options)
}

/// Adds the program's commands, of which those among the words have options. Where the words begin with a command no other is
/// there: nothing that is said then shows another.
fn add_commands<'a, S: AsStr>(
    alloc: Global,
    words: &[S],
    commands: &mut Vec<Command<'a>>,
) -> Result<(), AllocError> {
    let is_named = names_command(words);
    for texts in &COMMANDS {
        let is_asked = is_among(words, texts.0);
        if is_asked || !is_named {
            commands.push(command_of(alloc, *texts, is_asked)?)?;
        }
    }
    Ok(())
}

/// The program with its commands.
fn dbgrec<'a>(alloc: Global, commands: Vec<Command<'a>>) -> Result<Command<'a>, AllocError> {
    Command::new(alloc, "dbgrec")
        .version("0.1.0")
        .about("Records traces as dbg of Erlang does, and lists what a crash has left of them")
        .subcommand_required(true)
        .arg_required_else_help(true)
        .subcommands(commands)
}

/// What the options say of where a trace is.
fn asked_in<'a>(matches: &ArgMatches<'a>) -> Asked<'a> {
    let shape = match matches.get_str("kind") {
        Some("wrap") => Some(Shape::Wrap),
        Some(_) => Some(Shape::File),
        None => None,
    };
    Asked {
        base: matches.get_str("BASE").unwrap_or(""),
        shape,
        suffix: matches.get_str("suffix"),
        count: matches.get_one::<u16>("count"),
    }
}

/// The bytes that end a run of a wrap, where they are given.
fn size_in<'a>(matches: &ArgMatches<'a>) -> Result<Option<u32>, Misuse<'a>> {
    match matches.get_str("size") {
        None => Ok(None),
        Some(text) => match bytes_in(text) {
            None => Err(Misuse::Size(text)),
            found => Ok(found),
        },
    }
}

/// What the options say of a trace that is made where there is none.
fn wanted_in<'a>(matches: &ArgMatches<'a>, size: Option<u32>) -> Wanted<'a> {
    Wanted {
        asked: asked_in(matches),
        size,
        time: matches.get_one::<u32>("time"),
        is_after_failure: matches.get_flag("after-failure"),
    }
}

/// How an import goes.
fn rules_in(matches: &ArgMatches<'_>, longest: u32) -> Rules {
    let flushing = match matches.get_str("flush") {
        Some("always") => Flushing::Always,
        Some("never") => Flushing::Never,
        _ => Flushing::Paused,
    };
    let ending = if matches.get_flag("keep-open") {
        Ending::Keep
    } else {
        Ending::Seal
    };
    Rules {
        skip: matches.get_one::<u64>("skip").unwrap_or(0),
        longest,
        flushing,
        ending,
    }
}

/// A text that is kept.
pub fn kept(alloc: Global, text: Option<&str>) -> Result<Option<String>, AllocError>
    ensures { IfOk result (λ kept. option_map string_bytes kept ≡ option_copied text.entry) }
{
    match text {
        Some(text) => Ok(Some(String::from_str(alloc, text)?)),
        None => Ok(None),
    }
}

/// How many bytes the longest message has that is kept, or shown in full. Else the text that says none from the least on.
fn longest_in<'a>(matches: &ArgMatches<'a>, least: u32) -> Result<u32, &'a str> {
    let Some(text) = matches.get_str("longest") else {
        return Ok(DEFAULT_LONGEST);
    };
    match bytes_in(text) {
        Some(size) if least <= size && size <= GREATEST_LONGEST => Ok(size),
        _ => Err(text),
    }
}

/// Whether any term is shown.
fn is_pretty(matches: &ArgMatches<'_>) -> bool {
    matches.get_flag("pretty")
        || matches.get_flag("json")
        || matches.get_str("longest").is_some()
        || asks_of_messages(matches)
}

/// How a listing of a choice of entries is to be shown.
fn shown_in(matches: &ArgMatches<'_>, choice: Option<Choice>) -> Shown {
    Shown {
        is_json: matches.get_flag("json"),
        choice,
        is_plain: !is_pretty(matches),
        layout: None,
    }
}

/// The listing of a stored trace that is asked for.
fn stored_in<'a>(matches: &ArgMatches<'a>, is_pretty: bool) -> TraceRequest<'a> {
    let asked = asked_in(matches);
    if matches.get_flag("salvage") {
        let form = Form::Lines { is_pretty };
        TraceRequest::Salvage { asked, form }
    } else {
        TraceRequest::List { asked, is_pretty }
    }
}

/// The export that is asked for.
fn export_in<'a>(matches: &ArgMatches<'a>) -> TraceRequest<'a> {
    let asked = asked_in(matches);
    if matches.get_flag("salvage") {
        let form = Form::Stream;
        return TraceRequest::Salvage { asked, form };
    }
    match matches.get_str("as") {
        Some("folded") => TraceRequest::Fold(asked),
        Some("perfetto") => TraceRequest::Draw(asked),
        _ => TraceRequest::Export(asked),
    }
}

/// By what the rows of a table are in order, where that is said.
fn order_in(matches: &ArgMatches<'_>) -> Option<Order> {
    match matches.get_str("sort") {
        Some("count") => Some(Order::Count),
        Some("exceptions") => Some(Order::Exceptions),
        Some("total") => Some(Order::Total),
        Some("mean") => Some(Order::Mean),
        Some("longest") => Some(Order::Longest),
        Some("waiting") => Some(Order::Waiting),
        _ => None,
    }
}

/// What a row of it stands for.
fn grouping_in(matches: &ArgMatches<'_>) -> Grouping {
    match matches.get_str("by") {
        Some("process") => Grouping::Process,
        Some("kind") => Grouping::Kind,
        _ => Grouping::Function,
    }
}

/// The table that is asked for.
fn top_in<'a>(matches: &ArgMatches<'a>) -> TraceRequest<'a> {
    TraceRequest::Top {
        asked: asked_in(matches),
        ranking: Ranking {
            by: grouping_in(matches),
            order: order_in(matches),
            limit: matches.get_one::<u32>("limit").unwrap_or(DEFAULT_LIMIT),
        },
        is_json: matches.get_flag("json"),
    }
}

/// What a subcommand of this name asks of a stored trace: so many bytes end a run, and the longest message that is kept has so
/// many.
fn trace_request_in<'a>(
    name: &str,
    matches: &ArgMatches<'a>,
    size: Option<u32>,
    longest: u32,
) -> TraceRequest<'a> {
    match name {
        "record" => TraceRequest::Record(wanted_in(matches, size)),
        "import" => TraceRequest::Import {
            wanted: wanted_in(matches, size),
            rules: rules_in(matches, longest),
        },
        "export" => export_in(matches),
        "top" => top_in(matches),
        "wipe" => TraceRequest::Wipe {
            asked: asked_in(matches),
            is_forced: matches.get_flag("force"),
        },
        _ => TraceRequest::Info {
            asked: asked_in(matches),
            is_json: matches.get_flag("json"),
        },
    }
}

/// What is listed: a stream, a trace with what is added to it, or what it has now.
fn listing_of<'a>(matches: &ArgMatches<'a>, is_pretty: bool, shown: Shown) -> Request<'a> {
    let asked = asked_in(matches);
    if asked.is_input() {
        let longest = DEFAULT_LONGEST;
        Request::Stream {
            is_pretty,
            longest,
            shown,
        }
    } else if matches.get_flag("follow") {
        Request::Follow {
            asked,
            is_pretty,
            shown,
        }
    } else {
        let request = stored_in(matches, is_pretty);
        Request::Listing { request, shown }
    }
}

/// What is asked of a trace, or of a stream, that is shown to a person.
fn show_in<'a>(alloc: Global, matches: &ArgMatches<'a>) -> Result<Request<'a>, Misuse<'a>> {
    let follows = matches.get_flag("follow") && !asked_in(matches).is_input();
    let choice = choice_in(alloc, matches)?;
    let shown = Shown {
        is_json: true,
        is_plain: false,
        layout: Some(layout_in(alloc, matches, follows)?),
        choice,
    };
    Ok(listing_of(matches, true, shown))
}

/// What is asked of a trace, or of a stream, that is listed.
fn list_in<'a>(alloc: Global, matches: &ArgMatches<'a>) -> Result<Request<'a>, Misuse<'a>> {
    let shown = shown_in(matches, choice_in(alloc, matches)?);
    Ok(listing_of(matches, is_pretty(matches), shown))
}

/// What is asked of a stream that is listed as it comes.
fn stream_in<'a>(alloc: Global, matches: &ArgMatches<'a>) -> Result<Request<'a>, Misuse<'a>> {
    let longest = match longest_in(matches, 0) {
        Ok(longest) => longest,
        Err(text) => return Err(Misuse::LongestShown(text)),
    };
    Ok(Request::Stream {
        is_pretty: is_pretty(matches),
        longest,
        shown: shown_in(matches, choice_in(alloc, matches)?),
    })
}

/// What is asked of a stored trace, or of those of its entries that are chosen.
fn chosen_in<'a>(
    alloc: Global,
    name: &str,
    matches: &ArgMatches<'a>,
) -> Result<Request<'a>, Misuse<'a>> {
    let size = size_in(matches)?;
    let longest = match longest_in(matches, LEAST_KEPT) {
        Ok(longest) => longest,
        Err(text) => return Err(Misuse::LongestKept(text)),
    };
    Ok(Request::OfTrace {
        request: trace_request_in(name, matches, size, longest),
        shown: Shown::of(choice_in(alloc, matches)?),
    })
}

/// What the words that were found ask for.
fn request_in<'a>(alloc: Global, matches: &ArgMatches<'a>) -> Result<Request<'a>, Misuse<'a>> {
    match matches.subcommand() {
        None | Some(("sim", _)) => Ok(Request::Sim),
        Some(("show", matches)) => show_in(alloc, matches),
        Some(("list", matches)) => list_in(alloc, matches),
        Some(("stream", matches)) => stream_in(alloc, matches),
        Some((name, matches)) => chosen_in(alloc, name, matches),
    }
}

/// What the parser finds in the words.
fn matches_in<'a, S: AsStr>(alloc: Global, words: &'a [S]) -> Result<ArgMatches<'a>, Error> {
    let mut commands = Vec::new(alloc);
    add_commands(alloc, words, &mut commands)?;
    dbgrec(alloc, commands)?.try_get_matches_from(words)
}

/// What the words ask for, of which the first is the program's name.
pub fn asked_for<'a, S: AsStr>(alloc: Global, words: &'a [S]) -> Result<Request<'a>, Misuse<'a>> {
    match matches_in(alloc, words) {
        Ok(matches) => request_in(alloc, &matches),
        Err(error) => Err(Misuse::Form(error)),
    }
}
