//! What is wrong with the words of a command line, and the help that they ask for.
ghost use Rattle.std.specs.Prelude.{◌≡◌};
ghost use Rattle.std.specs.Process.{exit_status};
ghost use Rattle.clap.specs.Values.{kind_of};
ghost use Rattle.faults.specs.Statuses.{status_of_form, status_of_misuse};

use crate::ending::no_memory;
use clap::Error as FormError;
use clap::error::ErrorKind as MisuseKind;
use command_line::Misuse;
use std::alloc::Global;
use std::process::ExitCode;

/// What may stand for the number of `--size`.
const A_SIZE: &str =
    "a number of bytes, at most 4294967295; k, M and G after it stand for powers of 1,024, as in 64k, and 4G for the most";

/// What may stand for the number of `--longest` of a listing.
const A_LONGEST: &str =
    "a number of bytes, at most 268435456; k, M and G after it stand for powers of 1,024, as in 64M";

/// What may stand for that of an import.
const A_LONGEST_KEPT: &str =
    "a number of bytes, from 65531 to 268435456; k, M and G after it stand for powers of 1,024, as in 64M";

/// What may stand for the kinds of `--only` or `--not`.
const KINDS: &str =
    "call, return, exception, send, send_lost, receive, other, opaque, drop or one of OTP's other words, as spawn, exit and seq_trace; several with commas between them";

/// What may stand for the process of `--pid` or `--not-pid`.
const A_PROCESS: &str =
    "a process as a listing shows it, as <app@host.80.0.0>, with or without its last number, or as the node's shell does, as <0.80.0>, or a port, as #Port<app@host.4.0>, or in a trace the name of a registered process";

/// What may stand for the function of `--mfa` or `--not-mfa`.
const A_FUNCTION: &str =
    "a module, as lists, a function, as lists:seq, or one of so many arguments, as lists:seq/2";

/// What may stand for the time of `--since` or `--until`.
const A_MOMENT: &str =
    "a time of day, as 12:04:31.5, a time, as 2026-05-01T12:04:31, seconds since the first message, as 17.25, so long before now, as -5s, -5m or -2h, or a monotonic time stamp, as -576460751234567890";

/// What is said where a shell made several names of one, as of `w*`.
const ONE_NAME: &str =
    "\nOne name is taken. That of a wrap is what the names of its files begin with: w, where they are w0, w1 and so on.";

/// Tells that a word isn't one that the option takes, and what that takes.
fn refuse(rt: &impl Eprint, word: &str, option: &str, taken: &str) -> ExitCode
    ensures { exit_status result ≡ 2 }
{
    let _ = eprintln!(rt;
        "error: invalid value '{word}' for '{option}': {taken}\n\nFor more information, try '--help'."
    );
    ExitCode::from(2)
}

/// Tells that a word isn't text.
fn refuse_bytes(rt: &impl Eprint) -> ExitCode
    ensures { exit_status result ≡ 2 }
{
    let _ = rt.eprintln(
        "error: a word of the command line isn't UTF-8: a trace and its folder have names that are",
    );
    ExitCode::from(2)
}

/// The status for words that aren't of the form that the help shows.
fn form_status(kind: MisuseKind) -> u8
    ensures { result ≡ status_of_form kind }
{
    match kind {
        MisuseKind::DisplayHelp | MisuseKind::DisplayVersion => 0,
        MisuseKind::OutOfMemory => 1,
        _ => 2,
    }
}

/// Whether a word was one too many after the name of a trace, as the text of a fault tells it.
fn tells_second_name(text: &str) -> bool {
    match text.strip_prefix("error: unexpected argument '") {
        Some(word) => !word.starts_with('-') && text.contains("<BASE>"),
        None => false,
    }
}

/// The same of a fault. The text alone tells that.
fn is_second_name(alloc: Global, error: &FormError) -> bool {
    match format!(in alloc; "{error}") {
        Ok(text) => tells_second_name(text.as_str()),
        Err(_) => false,
    }
}

/// Tells what is wrong with the form of the words, or shows the help that they ask for.
fn correct_form(rt: &(impl Print + Eprint), alloc: Global, error: &FormError) -> ExitCode
    ensures { exit_status result ≡ status_of_form (kind_of error.now) }
{
    let kind = error.kind();
    if kind == MisuseKind::OutOfMemory {
        return no_memory(rt);
    }
    let _ = error.print(rt);
    if kind == MisuseKind::UnknownArgument && is_second_name(alloc, error) {
        let _ = rt.eprintln(ONE_NAME);
    }
    ExitCode::from(form_status(kind))
}

/// Tells what is wrong with the command line, or shows the help that it asks for.
pub fn correct(rt: &(impl Print + Eprint), alloc: Global, misuse: Misuse<'_>) -> ExitCode
    ensures { exit_status result ≡ status_of_misuse misuse.entry }
{
    match misuse {
        Misuse::NotText => refuse_bytes(rt),
        Misuse::Form(error) => correct_form(rt, alloc, &error),
        Misuse::Size(text) => refuse(rt, text, "--size <BYTES>", A_SIZE),
        Misuse::LongestShown(text) => refuse(rt, text, "--longest <SIZE>", A_LONGEST),
        Misuse::LongestKept(text) => refuse(rt, text, "--longest <SIZE>", A_LONGEST_KEPT),
        Misuse::Kind(word) => refuse(rt, word, "--only or --not <KIND[,KIND..]>", KINDS),
        Misuse::Process(text) => refuse(rt, text, "--pid or --not-pid <PID>", A_PROCESS),
        Misuse::Function(text) => refuse(rt, text, "--mfa or --not-mfa <M[:F[/A]]>", A_FUNCTION),
        Misuse::Moment(text) => refuse(rt, text, "--since or --until <TIME>", A_MOMENT),
    }
}
