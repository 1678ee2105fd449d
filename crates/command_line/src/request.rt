//! What a command line asks for.
ghost use Rattle.std.specs.Prelude.{◌↔◌, IsTrue};
ghost use Rattle.command_line.specs.Inputs.{IsInput};

use crate::layout::Layout;
use crate::ranking::Ranking;
use clap::Error;
use std::alloc::AllocError;
use trace_text::Choice;

/// How a trace is stored, as a command line says it.
#[derive(Clone, Copy)]
pub enum Shape {
    File,
    Wrap,
}

/// What a command line says of where a trace is; None stands for what it doesn't say.
#[derive(Clone, Copy)]
pub struct Asked<'a> {
    pub base: &'a str,
    pub shape: Option<Shape>,
    pub suffix: Option<&'a str>,
    /// The runs that a wrap keeps.
    pub count: Option<u16>,
}

impl Asked<'_> {
    /// Whether it is an entry stream from standard input, and no trace.
    pub fn is_input(&self) -> bool
        ensures { IsTrue result ↔ IsInput self.now }
    {
        self.base == "-"
    }
}

/// What a command line asks of a trace that is made where there is none.
#[derive(Clone, Copy)]
pub struct Wanted<'a> {
    pub asked: Asked<'a>,
    /// The bytes of entries that end a run of a wrap, where the command line says so.
    pub size: Option<u32>,
    /// The milliseconds that end a run of a wrap, where the command line says so.
    pub time: Option<u32>,
    /// To go on also where the disk failed.
    pub is_after_failure: bool,
}

/// When an import flushes.
#[derive(Clone, Copy, PartialEq, Eq)]
pub enum Flushing {
    /// After each entry.
    Always,
    /// After a read that didn't fill its buffer: the writer pauses.
    Paused,
    /// At the end alone.
    Never,
}

/// What becomes of a trace where its stream ends between two entries.
#[derive(Clone, Copy)]
pub enum Ending {
    /// It is sealed.
    Seal,
    /// It is flushed and stays open, as it does where the stream ends in any other way.
    Keep,
}

/// How an import begins, flushes and ends.
#[derive(Clone, Copy)]
pub struct Rules {
    /// The bytes of its input that it passes over first.
    pub skip: u64,
    /// The most bytes of a message that is kept.
    pub longest: u32,
    pub flushing: Flushing,
    pub ending: Ending,
}

/// How a listing is shown.
#[derive(Drop)]
pub struct Shown {
    /// A JSON object for each line.
    pub is_json: bool,
    /// Which entries are listed, where not all are.
    pub choice: Option<Choice>,
    /// It isn't readable: it may have lines that are opaque for want of `--pretty`.
    pub is_plain: bool,
    /// How it is laid out for a person, where it is.
    pub layout: Option<Layout>,
}

impl Shown {
    /// All entries, or those that are chosen, as they are.
    pub fn of(choice: Option<Choice>) -> Shown {
        Shown {
            is_json: false,
            choice,
            is_plain: false,
            layout: None,
        }
    }
}

/// What a command line asks for.
#[derive(Drop)]
pub enum Request<'a> {
    /// Run a script over a store in memory.
    Sim,
    /// List an entry stream.
    Stream {
        /// Every term as a person at a node's shell would see it.
        is_pretty: bool,
        /// The most bytes of a message that is then read.
        longest: u32,
        shown: Shown,
    },
    /// List a trace, and go on with what is added to it.
    Follow {
        asked: Asked<'a>,
        /// Every term as a person at a node's shell would see it.
        is_pretty: bool,
        shown: Shown,
    },
    /// What is done with the files of a trace, of which a choice of entries may be asked.
    OfTrace {
        request: TraceRequest<'a>,
        shown: Shown,
    },
    /// What of them is listed, and how that is shown.
    Listing {
        request: TraceRequest<'a>,
        shown: Shown,
    },
}

/// How entries are written.
#[derive(Clone, Copy)]
pub enum Form {
    /// As lines.
    Lines {
        /// Every term as a person at a node's shell would see it.
        is_pretty: bool,
    },
    /// As an entry stream.
    Stream,
}

/// What a command line asks of a stored trace.
#[derive(Clone, Copy)]
pub enum TraceRequest<'a> {
    /// Record what a script says.
    Record(Wanted<'a>),
    /// Record an entry stream.
    Import {
        wanted: Wanted<'a>,
        rules: Rules,
    },
    /// List it.
    List {
        asked: Asked<'a>,
        /// Every term as a person at a node's shell would see it.
        is_pretty: bool,
    },
    /// Write it as an entry stream.
    Export(Asked<'a>),
    /// Write the stacks of its calls.
    Fold(Asked<'a>),
    /// Write what it tells as events, for a viewer of these.
    Draw(Asked<'a>),
    /// Write what each of its open files holds, whether or not they are a trace together.
    Salvage {
        asked: Asked<'a>,
        form: Form,
    },
    /// Tell what it holds, in numbers.
    Info {
        asked: Asked<'a>,
        /// As one JSON object.
        is_json: bool,
    },
    /// Count what its messages tell.
    Top {
        asked: Asked<'a>,
        ranking: Ranking,
        /// As one JSON object.
        is_json: bool,
    },
    /// End it, and leave an empty store.
    Wipe {
        asked: Asked<'a>,
        /// Also files that aren't of a trace.
        is_forced: bool,
    },
}

/// Why words aren't a command line.
#[derive(Drop)]
pub enum Misuse<'a> {
    /// A word isn't UTF-8.
    NotText,
    /// The words aren't of the form that the help shows, or ask for help.
    Form(Error),
    /// The value of `--size`.
    Size(&'a str),
    /// The value of `--longest` of a listing.
    LongestShown(&'a str),
    /// The value of `--longest` of an import.
    LongestKept(&'a str),
    /// A word of `--only` or `--not` that is no kind.
    Kind(&'a str),
    /// A value of `--pid` or `--not-pid`.
    Process(&'a str),
    /// A value of `--mfa` or `--not-mfa`.
    Function(&'a str),
    /// The value of `--since` or `--until`.
    Moment(&'a str),
}

impl From<Error> for Misuse<'_> {
    fn from(error: Error) -> Self {
        Misuse::Form(error)
    }
}

impl From<AllocError> for Misuse<'_> {
    fn from(fault: AllocError) -> Self {
        Misuse::Form(Error::from(fault))
    }
}
