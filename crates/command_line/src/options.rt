//! The options that commands have, as a command line gives them and the help tells them.

use self::CommandOption::{Flag, Letter, Moment, Operand, Parsed, ParsedOr, Text, Texts, Without};
use clap::builder::ValueParser::{self, Names, Signed, Unsigned};
use clap::{Arg, ArgAction};
use std::alloc::{AllocError, Global};

/// An option by its name, with what the help calls its value, and what else the parser is told of it.
#[derive(Clone, Copy)]
enum CommandOption {
    /// It is no option, but a word by itself, which has to be there.
    Operand(&'static str),
    Flag(&'static str),
    /// A flag that a letter stands for too.
    Letter(&'static str, char),
    /// A flag that isn't given beside these options.
    Without(&'static str, &'static [&'static str]),
    Text(&'static str, &'static str),
    /// It may be given again.
    Texts(&'static str, &'static str),
    /// Its text may begin with a hyphen.
    Moment(&'static str, &'static str),
    Parsed(&'static str, &'static str, ValueParser<'static>),
    /// The last is its value where it isn't given.
    ParsedOr(&'static str, &'static str, ValueParser<'static>, &'static str),
}

/// A number of 64 bits.
const NUMBER: ValueParser<'static> = Unsigned(0, u64::MAX);

/// A number of 32 bits that isn't 0.
const AMOUNT: ValueParser<'static> = Signed(1, u32::MAX as i64);

/// The commands over the files of a trace.
const FILES: &[&str] = &[
    "import", "list", "show", "export", "info", "top", "wipe", "record",
];

/// Those that make them where there is no trace yet.
const NEW_FILES: &[&str] = &["import", "record"];

/// Those that show entries or count them.
const ENTRIES: &[&str] = &["list", "show", "export", "top", "stream"];

/// The commands that have an option, the option, and its help, which tells those of a command in this order.
static OPTIONS: [(&[&str], CommandOption, &str); 41] = [
    (
        FILES,
        Operand("BASE"),
        "The file, or what the names of the wrap files begin with",
    ),
    (
        FILES,
        Parsed("kind", "KIND", Names(&["file", "wrap"])),
        "One file, or wrap files BASE0SUFFIX, BASE1SUFFIX ..; unless said, what is there [default: file]",
    ),
    (
        FILES,
        Text("suffix", "SUFFIX"),
        "What the names of wrap files end with",
    ),
    (
        FILES,
        Parsed("count", "COUNT", Signed(1, 1000)),
        "Runs that a wrap keeps (1 to 1000), in one file more [default: 8]",
    ),
    (
        NEW_FILES,
        Text("size", "BYTES"),
        "A new wrap goes on to its next file after more than this; k, M, G: powers of 1,024, up to 4G [default: 131072]",
    ),
    (
        NEW_FILES,
        Parsed("time", "MS", AMOUNT),
        "A new wrap goes on to its next file after this time instead",
    ),
    (
        NEW_FILES,
        Flag("after-failure"),
        "Goes on also where the disk failed while the trace was written",
    ),
    (
        &["import"],
        ParsedOr(
            "flush",
            "WHEN",
            Names(&["always", "paused", "never"]),
            "paused",
        ),
        "When what came is synced: after each entry, when the writer pauses, or at the end",
    ),
    (
        &["import"],
        Flag("keep-open"),
        "At the end of the input flushes, and doesn't seal: the next import goes on",
    ),
    (
        &["import"],
        Parsed("skip", "BYTES", NUMBER),
        "Passes over so many bytes of the input first: those that an import before kept, as it said",
    ),
    (
        &["import"],
        Text("longest", "SIZE"),
        "Keeps messages of up to so many bytes, from 65531 to 256M; a drop record of 1 stands instead of a longer one [default: 16M]",
    ),
    (
        &["list", "show"],
        Letter("follow", 'f'),
        "Goes on with what another process adds to the trace, until it is sealed",
    ),
    (
        &["export"],
        ParsedOr(
            "as",
            "FORM",
            Names(&["stream", "folded", "perfetto"]),
            "stream",
        ),
        "What is written: the entry stream, the stacks of calls, each with its time, as programs for flame graphs read them, or a JSON of all messages over time, as Perfetto, chrome://tracing and speedscope open it",
    ),
    (
        &["list", "show", "export"],
        Without("salvage", &["follow", "as"]),
        "Where the trace is refused: what each of its files holds by itself, up to its damage, and what is missing between them; the exit status is 1",
    ),
    (
        &["stream"],
        Text("longest", "SIZE"),
        "Shows messages of up to so many bytes in full, up to 256M, as --pretty does [default: 16M]",
    ),
    (
        &["list", "stream"],
        Letter("pretty", 'p'),
        "Shows any term nearly as a node's shell does, as --json and a choice by kind, process or function do too; without it text is a list of numbers, and a message with a float, map, reference or the like is opaque",
    ),
    (
        &["top"],
        ParsedOr(
            "by",
            "WHAT",
            Names(&["function", "process", "kind"]),
            "function",
        ),
        "What a row stands for: a function, a process, or a kind of messages",
    ),
    (
        &["top"],
        Parsed(
            "sort",
            "NUMBER",
            Names(&["count", "exceptions", "total", "mean", "longest", "waiting"]),
        ),
        "The number by which rows are in order, the greatest first [default: total where there are times, else count]",
    ),
    (
        &["top"],
        Parsed("limit", "N", Signed(0, u32::MAX as i64)),
        "Shows so many rows at most [default: 20]",
    ),
    (
        &["list", "stream"],
        Flag("json"),
        "As JSON objects, one for each line",
    ),
    (&["info", "top"], Flag("json"), "As one JSON object"),
    (
        ENTRIES,
        Parsed("from", "N", NUMBER),
        "Only entries from this number on",
    ),
    (
        ENTRIES,
        Parsed("to", "N", NUMBER),
        "Only entries up to this number; a listing ends there",
    ),
    (
        ENTRIES,
        Texts("only", "KIND[,KIND..]"),
        "Only entries of these kinds, and drop records; given again, those of the other kinds too",
    ),
    (
        ENTRIES,
        Texts("pid", "PID"),
        "Only what this process did: NODE.ID.SERIAL.CREATION or NODE.ID.SERIAL, 0 standing for any NODE, with or without < and >, #Port<..>, or in a trace its registered name; given again, what the others did too",
    ),
    (
        ENTRIES,
        Texts("mfa", "M[:F[/A]]"),
        "Only calls of these functions, and what they return or raise; given again, those of the others too",
    ),
    (
        ENTRIES,
        Texts("not", "KIND[,KIND..]"),
        "No entry of these kinds, but for drop records; may be given again, for more of them",
    ),
    (
        ENTRIES,
        Texts("not-pid", "PID"),
        "Nothing of what this process did; may be given again, for more of them",
    ),
    (
        ENTRIES,
        Texts("not-mfa", "M[:F[/A]]"),
        "No call, return or exception of these functions; may be given again, for more of them",
    ),
    (
        &["show"],
        Parsed("color", "WHEN", Names(&["always", "never", "auto"])),
        "Colours rows by their kinds [default: auto, on a terminal where NO_COLOR isn't set]",
    ),
    (
        &["show"],
        Moment("since", "TIME"),
        "Shows messages from this time on: HH:MM:SS, YYYY-MM-DDTHH:MM:SS, seconds since the first message as rows show them, or so long before now, as -5s, -5m or -2h",
    ),
    (
        &["show"],
        Moment("until", "TIME"),
        "Shows messages up to this time",
    ),
    (
        &["show"],
        Text("grep", "TEXT"),
        "Shows rows whose text has this in it",
    ),
    (
        &["show"],
        Parsed("last", "N", AMOUNT),
        "Shows the last N rows alone; with -f these of what is there, and then what is added",
    ),
    (
        &["show"],
        Flag("relative"),
        "Tells the time since the first message that is shown",
    ),
    (
        &["show"],
        Without("delta", &["relative"]),
        "Tells the time since the message that is shown before",
    ),
    (
        &["show"],
        Flag("utc"),
        "Tells and takes times of day in UTC, not in the zone of TZ or of the machine",
    ),
    (
        &["show"],
        Without("full", &["width"]),
        "Cuts no row at a width",
    ),
    (
        &["show"],
        Parsed("width", "N", AMOUNT),
        "Cuts rows at so many columns [default: on a terminal COLUMNS, where it is set]",
    ),
    (
        &["show"],
        Parsed("longest-text", "BYTES", AMOUNT),
        "Cuts the text of a term at so many bytes",
    ),
    (
        &["wipe"],
        Flag("force"),
        "Clears files that aren't of a trace too",
    ),
];

/// A flag, as the parser takes it.
fn flag_of<'a>(flag: Arg<'a>, option: CommandOption) -> Result<Arg<'a>, AllocError> {
    let flag = flag.action(ArgAction::SetTrue);
    match option {
        Letter(_, letter) => Ok(flag.short(letter)),
        Without(_, others) => flag.conflicts_with_all(others),
        _ => Ok(flag),
    }
}

/// An option with a value, as the parser takes it.
fn valued<'a>(alloc: Global, name: &'a str, value: &'a str, help: &'a str) -> Arg<'a> {
    Arg::new(alloc, name)
        .long(name)
        .value_name(value)
        .help(help)
}

/// An option with its help, as the parser takes it.
fn argument_of<'a>(
    alloc: Global,
    option: CommandOption,
    help: &'a str,
) -> Result<Arg<'a>, AllocError> {
    Ok(match option {
        Operand(name) => Arg::new(alloc, name).required(true).help(help),
        Flag(name) | Letter(name, _) | Without(name, _) => {
            return flag_of(Arg::new(alloc, name).long(name).help(help), option);
        }
        Text(name, value) => valued(alloc, name, value, help),
        Texts(name, value) => valued(alloc, name, value, help).action(ArgAction::Append),
        Moment(name, value) => valued(alloc, name, value, help).allow_hyphen_values(true),
        Parsed(name, value, parser) => valued(alloc, name, value, help).value_parser(parser),
        ParsedOr(name, value, parser, default) => valued(alloc, name, value, help)
            .value_parser(parser)
            .default_value(default),
    })
}

/// Adds an option to the arguments that are there.
fn add_option<'a>(
    alloc: Global,
    option: CommandOption,
    help: &'a str,
    arguments: &mut Vec<Arg<'a>>,
) -> Result<(), AllocError> {
    Ok(arguments.push(argument_of(alloc, option, help)?)?)
}

/// Adds the options of a command to the arguments that are there.
pub fn add_options<'a>(
    alloc: Global,
    command: &str,
    arguments: &mut Vec<Arg<'a>>,
) -> Result<(), AllocError> {
    for (commands, option, help) in &OPTIONS {
        if commands.contains(&command) {
            add_option(alloc, *option, help, arguments)?;
        }
    }
    Ok(())
}
