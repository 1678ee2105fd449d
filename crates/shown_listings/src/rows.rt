//! The rows of a listing, made of its objects one by one.
ghost use Rattle.std.specs.Prelude.{◌≡◌, ◌||◌, ℕ, List, true, false, is_some, IfOk, MatchOption};
ghost use Rattle.shown_listings.specs.Rows.{IsRow, MayLack, ShowsInRow, is_end};

use crate::clock_text::{Clock, Day, Fineness, Seconds, fineness_of};
use crate::counted::kind_in;
use crate::look::{Look, RowTime};
use crate::nesting::{Nested, Nesting, Told};
use crate::notices::{Reached, notice_of};
use crate::returned_to::returned_to;
use crate::row::{Parts, Room, row_of};
use crate::shown_object::{member, number, read_object, text_of};
use crate::zone::Zone;
use json::{Scratch, Value};
use std::alloc::{AllocError, Global};
use trace_times::{Time, time_in};

/// The columns by which a row goes in for each open call.
const STEP: usize = 2;

/// The most columns for that, where rows aren't cut at a width.
const MOST_STEPS: usize = 40;

/// The bytes that mostly suffice for what stands before a text.
const BEFORE: usize = 96;

/// The end of a line.
const FEED: u8 = b'\n';

/// The line that tells the end of a trace.
const END: [u8; 23] = *b"{\"kind\":\"end_of_trace\"}";

/// Ends the colour of a row.
const PLAIN: &str = "\x1b[0m";

/// The colour of the entries of a kind.
fn colour_of(kind: &str) -> &'static str {
    match kind {
        "call" => "\x1b[36m",
        "return" => "\x1b[32m",
        "exception" => "\x1b[31m",
        "send" | "send_lost" => "\x1b[33m",
        "receive" => "\x1b[34m",
        "drop" | "part" | "opaque" | "before" | "missing" => "\x1b[35m",
        _ => "",
    }
}

/// The most bytes of an entry, and the data of each fragment of a longer message.
const LONGEST: u64 = 65_531;

const FRAGMENT: u64 = 65_513;

/// The bytes of a text that no message has that is longer than an entry.
const SHORT: usize = 16_384;

/// How many entries a message of so many bytes has.
fn entries_of(size: u64) -> u64 {
    if size > LONGEST {
        size / FRAGMENT + 1
    } else {
        1
    }
}

/// Whether an object of this kind tells that messages were lost, or is one that can't be read.
fn is_loss(kind: &str) -> bool {
    matches!(kind, "drop" | "part" | "opaque" | "before" | "missing")
}

/// Whether a line is the object of a return or an exception, by what it begins with.
fn is_of_end(line: &[u8]) -> bool {
    match kind_in(line) {
        Some(kind) => {
            kind.starts_with(b",\"kind\":\"return\",")
                || kind.starts_with(b",\"kind\":\"exception\",")
        }
        None => false,
    }
}

/// Whether a line tells the end of a trace.
pub fn is_end(line: &[u8]) -> bool
    ensures { result ≡ is_end line.now }
{
    line == END.as_slice()
}

/// What stands before and behind the text of a row.
#[derive(Drop)]
struct Frame {
    before: String,
    colour: &'static str,
    /// Where that stands in `before`.
    colour_at: usize,
}

/// The rows of a listing.
#[derive(Drop)]
pub struct Rows {
    maker: RowMaker,
    /// What reading takes.
    scratch: Scratch,
}

/// Makes rows, of which each depends on those before.
#[derive(Drop)]
struct RowMaker {
    alloc: Global,
    nesting: Nesting,
    clock: Clock,
    zone: Zone,
    /// When the listing began, as the clocks of the zone tell it, where that is known.
    began: Option<i64>,
    /// The last time that was told.
    time: Option<RowTime>,
    /// What comes is new.
    is_new: bool,
    /// A message has a row.
    has_shown: bool,
    /// Where what was listed goes on, where entries were.
    reached: Option<Reached>,
    /// Entries are passed over that aren't asked for.
    passes_over: bool,
    /// What the text of each row that is shown has.
    grep: Option<String>,
}

/// Appends blanks.
fn put_blanks(text: &mut String, count: usize) -> Result<(), AllocError> {
    for _ in 0..count {
        text.push(' ')?;
    }
    Ok(())
}

/// Appends the time since a call, where it is told.
fn put_took(text: &mut String, nested: Nested, stamp: Option<Time>) -> Result<(), AllocError> {
    if let Some(nanos) = nested.took {
        let fineness = stamp.map_or(Fineness::Micros, fineness_of);
        let took = Seconds { nanos, fineness };
        write!(text, "({took} s) ")?;
    }
    Ok(())
}

/// Appends the function that an entry tells of, where it tells of one: where a row is cut, its text may not come to that.
fn put_function(text: &mut String, object: &Option<Value<'_>>) -> Result<(), AllocError> {
    if let Some(function) = member(object, "mfa") {
        text.push_str(function)?;
        text.push_str("  ")?;
    }
    Ok(())
}

/// The columns by which the row of an entry goes in.
fn inset(look: &Look, depth: usize) -> usize {
    let most = look.width.map_or(MOST_STEPS, |width| width / 4);
    depth.saturating_mul(STEP).min(most)
}

/// How much of a row is shown.
fn room(look: &Look) -> Room
    ensures { (is_some result.bytes || is_some result.columns) ≡ true
        → look.now.rule.may_cut ≡ true }
{
    if look.rule.may_cut {
        Room {
            bytes: look.longest_text,
            columns: look.width,
        }
    } else {
        Room {
            bytes: None,
            columns: None,
        }
    }
}

/// The row of a text in its frame.
fn framed(alloc: Global, look: &Look, frame: &Frame, text: &[u8]) -> Result<Vec<u8>, AllocError>
    ensures { IfOk result (λ row. ShowsInRow look.now.rule.may_cut text.now row.items) }
{
    let after = if frame.colour.is_empty() { "" } else { PLAIN };
    let parts = Parts {
        before: frame.before.as_bytes(),
        colour: frame.colour.as_bytes(),
        colour_at: frame.colour_at,
        text,
        after: after.as_bytes(),
    };
    row_of(alloc, parts, room(look))
}

impl RowMaker {
    /// Whether a text has what is asked of each.
    fn has(&self, text: &str) -> bool {
        match &self.grep {
            Some(part) => text.contains(part.as_str()),
            None => true,
        }
    }

    /// Whether a text has a row where nothing is asked of times.
    fn is_asked(&self, look: &Look, text: &str) -> bool {
        (!look.is_from_now || self.is_new) && self.has(text)
    }

    /// Whether a text has a row.
    fn is_wanted(&self, look: &Look, text: &str) -> bool
        ensures { look.now.rule.shows_each ≡ true → result ≡ true }
    {
        look.rule.shows_each || look.is_between(self.time) && self.is_asked(look, text)
    }

    /// Notes when a message with this text is.
    fn note_time(&mut self, look: &Look, text: &str, stamp: Option<Time>) {
        let Some(stamp) = stamp else {
            return;
        };
        let passed = if look.asks_passed() {
            let is_asked = self.is_asked(look, text);
            self.clock.since_first(stamp, is_asked)
        } else {
            0
        };
        self.time = Some(RowTime {
            told: self.zone.told(stamp),
            passed,
            began: self.began,
        });
    }

    /// Notes that an entry is listed, of so many in a row that are one message.
    fn reach(&mut self, object: &Option<Value<'_>>, entries: u64, is_exact: bool) {
        if let Some(number) = number(object, "n") {
            self.reached = Some(Reached {
                next: number.saturating_add(entries),
                is_exact: is_exact && !self.passes_over,
            });
        }
    }

    /// Where a message with this text stands among the calls of its process.
    fn nested(
        &mut self,
        object: &Option<Value<'_>>,
        text: &str,
        stamp: Option<Time>,
    ) -> Result<Nested, AllocError> {
        let kind = member(object, "kind").unwrap_or("");
        let back = if kind == "return_to" {
            returned_to(self.alloc, text)?
        } else {
            None
        };
        let function = match &back {
            Some(function) => Some(function.as_str()),
            None => member(object, "mfa"),
        };
        self.nesting.note(Told {
            kind,
            process: member(object, "pid"),
            function,
            time: stamp.map(Time::nanos),
        })
    }

    /// What stands beside the text of an entry.
    fn frame(
        &mut self,
        look: &Look,
        object: &Option<Value<'_>>,
        stamp: Option<Time>,
        nested: Nested,
    ) -> Result<Frame, AllocError> {
        let kind = member(object, "kind").unwrap_or("");
        let number = number(object, "n").unwrap_or(0);
        self.has_shown = self.has_shown || kind != "drop";
        let mut before = String::with_capacity(self.alloc, BEFORE)?;
        write!(before, "{number:>6}  ")?;
        if let Some(stamp) = stamp {
            self.clock.put(&mut before, look.times, stamp, &self.zone)?;
        } else {
            put_blanks(&mut before, self.clock.blanks())?;
        }
        let colour = if look.is_coloured {
            colour_of(kind)
        } else {
            ""
        };
        let colour_at = before.len();
        write!(before, "{kind:<9} ")?;
        put_blanks(&mut before, inset(look, nested.depth))?;
        put_took(&mut before, nested, stamp)?;
        if look.width.is_some() {
            put_function(&mut before, object)?;
        }
        Ok(Frame {
            before,
            colour,
            colour_at,
        })
    }

    /// The row of an entry that shows this text, by its line; None where none is asked for.
    fn entry_row(
        &mut self,
        look: &Look,
        object: &Option<Value<'_>>,
        text: &str,
        line: &[u8],
    ) -> Result<Option<Vec<u8>>, AllocError>
        ensures { IfOk result (λ row. MatchOption row (MayLack look.now.rule.shows_each line.now)
            (λ row. ShowsInRow look.now.rule.may_cut text.now row.items)) }
    {
        let stamp = time_in(text.as_bytes());
        let nested = self.nested(object, text, stamp)?;
        self.note_time(look, text, stamp);
        self.reach(object, 1, text.len() < SHORT);
        if !self.is_wanted(look, text) && !is_end(line) {
            return Ok(None);
        }
        let frame = self.frame(look, object, stamp, nested)?;
        Ok(Some(framed(self.alloc, look, &frame, text.as_bytes())?))
    }

    /// What an object tells that shows no term, or a line that is no object.
    fn words(&mut self, object: &Option<Value<'_>>, line: &[u8]) -> Result<String, AllocError> {
        let words = notice_of(self.alloc, object, self.reached)?;
        let entries = match member(object, "kind") {
            Some("opaque") => entries_of(number(object, "size").unwrap_or(0)),
            _ => 1,
        };
        self.reach(object, entries, true);
        match words {
            Some(words) => Ok(words),
            None => String::from_utf8_lossy(self.alloc, line),
        }
    }

    /// The row of an object that shows no term, or of a line that is no object; None where none is asked for.
    fn notice_row(
        &mut self,
        look: &Look,
        object: &Option<Value<'_>>,
        line: &[u8],
    ) -> Result<Option<Vec<u8>>, AllocError>
        ensures { IfOk result (λ row. MatchOption row (MayLack look.now.rule.shows_each line.now)
            (λ row. (text : List ℕ) × ShowsInRow look.now.rule.may_cut text row.items)) }
    {
        if is_loss(member(object, "kind").unwrap_or("")) {
            self.nesting.lose();
        }
        let words = self.words(object, line)?;
        if !self.is_wanted(look, words.as_str()) && !is_end(line) {
            return Ok(None);
        }
        let frame = if number(object, "n").is_some() {
            self.frame(look, object, None, Nested::APART)?
        } else {
            Frame {
                before: String::from_str(self.alloc, "-- ")?,
                colour: "",
                colour_at: 0,
            }
        };
        let uncut = Look {
            longest_text: None,
            ..*look
        };
        Ok(Some(framed(self.alloc, &uncut, &frame, words.as_bytes())?))
    }
}

impl Rows {
    /// No object came. Times of wall clocks are told in the zone, whose clocks told `began` when the listing began. Where a text
    /// is handed in, only rows whose text has it are asked for.
    pub fn new(alloc: Global, zone: Zone, began: Option<i64>, grep: Option<String>) -> Rows {
        let maker = RowMaker {
            alloc,
            nesting: Nesting::new(alloc),
            clock: Clock::new(began.map(Day::of)),
            zone,
            began,
            time: None,
            is_new: false,
            has_shown: false,
            reached: None,
            passes_over: false,
            grep,
        };
        let scratch = Scratch::new(alloc);
        Rows { maker, scratch }
    }

    /// Whether what is told of a row depends on which the first is: how long after that it came.
    pub fn are_since_first(&self, look: &Look) -> bool {
        look.asks_passed() || self.maker.clock.is_since_first(look.times)
    }

    /// Whether a message has a row.
    pub fn has_shown(&self) -> bool {
        self.maker.has_shown
    }

    /// Learns of which function an end is to come, where this line tells one.
    fn learn(&mut self, line: &[u8]) -> Result<(), AllocError> {
        if !is_of_end(line) {
            return Ok(());
        }
        let object = read_object(self.maker.alloc, line, &mut self.scratch)?;
        if let Some(function) = member(&object, "mfa") {
            let _number = self.maker.nesting.learn(function)?;
        }
        Ok(())
    }

    /// Learns of which functions an end is to come, by the lines that are.
    pub fn look_ahead(&mut self, lines: &[u8]) -> Result<(), AllocError> {
        for line in lines.split(|byte| *byte == FEED) {
            self.learn(line)?;
        }
        Ok(())
    }

    /// Entries are passed over that aren't asked for.
    pub fn pass_over(&mut self) {
        self.maker.passes_over = true;
    }

    /// What comes from now on is new.
    pub fn begin(&mut self) {
        self.maker.is_new = true;
    }

    /// The row of a line of a listing; None where none is asked for.
    pub fn row_of(&mut self, look: &Look, line: &[u8]) -> Result<Option<Vec<u8>>, AllocError>
        ensures { IfOk result (λ row. MatchOption row (MayLack look.now.rule.shows_each line.now)
            (λ row. IsRow look.now.rule.may_cut line.now row.items)) }
    {
        let object = read_object(self.maker.alloc, line, &mut self.scratch)?;
        match text_of(&object) {
            Some(text) => self.maker.entry_row(look, &object, text, line),
            None => self.maker.notice_row(look, &object, line),
        }
    }
}
