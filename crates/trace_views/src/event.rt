//! An event of the Trace Event Format, as one JSON object.

ghost use Rattle.std.specs.Prelude.{◌≡◌, ◌++◌, ◌∷◌, [], OnOk};
ghost use Rattle.json.specs.Token.{key, string};

use json::{Writer, is_number};
use std::alloc::{AllocError, Global};

/// The number of the one process that all tracks are of.
const PROCESS: u64 = 1;

/// What the arrows of all messages are of.
const ARROWS: &str = "message";

/// Nanoseconds in a microsecond.
const MICROSECOND: u64 = 1_000;

/// What an event is.
#[derive(Clone, Copy)]
pub enum Phase {
    /// It names something, and has no time.
    Name,
    /// A slice begins.
    Begin,
    /// The innermost slice of the track ends.
    End,
    /// A slice without duration.
    Point,
    /// A mark on the track.
    Mark,
    /// A mark on all tracks.
    MarkOfAll,
    /// The arrow of this number goes out from the slice before.
    Leaves(u64),
    /// It comes in there.
    Arrives(u64),
}

impl Phase {
    /// The letter for it.
    fn letter(self) -> &'static str {
        match self {
            Phase::Name => "M",
            Phase::Begin => "B",
            Phase::End => "E",
            Phase::Point => "X",
            Phase::Mark | Phase::MarkOfAll => "i",
            Phase::Leaves(_) => "s",
            Phase::Arrives(_) => "f",
        }
    }
}

/// What an event tells, beside its name.
#[derive(Clone, Copy)]
pub enum Told<'t> {
    Nothing,
    /// A text, under a name.
    Text(&'t str, &'t [u8]),
    /// A number, under a name.
    Number(&'t str, u64),
}

/// An event.
#[derive(Clone, Copy)]
pub struct Event<'t> {
    pub name: &'t [u8],
    pub phase: Phase,
    /// The number of its track, from 1 on; 0 for none.
    pub track: u64,
    /// Its nanoseconds from the beginning.
    pub time: u64,
    pub told: Told<'t>,
}

impl Event<'_> {
    /// Puts it as one object.
    pub fn put(&self, alloc: Global, out: &mut Writer) -> Result<(), AllocError> {
        out.begin_object()?;
        out.key("name")?;
        put_text(alloc, out, self.name)?;
        put_member(out, "ph", self.phase.letter())?;
        self.put_place(alloc, out)?;
        put_phase(out, self.phase)?;
        self.put_told(alloc, out)?;
        out.end_object()
    }

    /// Puts where it stands.
    fn put_place(&self, alloc: Global, out: &mut Writer) -> Result<(), AllocError> {
        out.key("pid")?;
        out.u64(PROCESS)?;
        out.key("tid")?;
        out.u64(self.track)?;
        if let Phase::Name = self.phase {
            return Ok(());
        }
        out.key("ts")?;
        put_time(alloc, out, self.time)
    }

    /// Puts what it tells.
    fn put_told(&self, alloc: Global, out: &mut Writer) -> Result<(), AllocError> {
        if let Told::Nothing = self.told {
            return Ok(());
        }
        out.key("args")?;
        out.begin_object()?;
        match self.told {
            Told::Nothing => {}
            Told::Text(name, text) => {
                out.key(name)?;
                put_text(alloc, out, text)?;
            }
            Told::Number(name, number) => {
                out.key(name)?;
                out.u64(number)?;
            }
        }
        out.end_object()
    }
}

/// Puts a member whose value is a text.
pub fn put_member(out: &mut Writer, name: &str, text: &str) -> Result<(), AllocError>
    ensures before { out.new.before ≡ out.old.before }
    ensures tokens { OnOk result (out.new.tokens ≡ out.old.tokens
        ++ (key name.now ∷ string text.now ∷ [])) }
{
    out.key(name)?;
    out.string(text)
}

/// Puts what an event of this phase has beside what all have.
fn put_phase(out: &mut Writer, phase: Phase) -> Result<(), AllocError> {
    match phase {
        Phase::Name | Phase::Begin | Phase::End => Ok(()),
        Phase::Point => {
            out.key("dur")?;
            out.u64(0)
        }
        Phase::Mark => put_member(out, "s", "t"),
        Phase::MarkOfAll => put_member(out, "s", "g"),
        Phase::Leaves(number) => put_arrow(out, number),
        Phase::Arrives(number) => {
            put_arrow(out, number)?;
            put_member(out, "bp", "e")
        }
    }
}

/// Puts which arrow it is.
fn put_arrow(out: &mut Writer, number: u64) -> Result<(), AllocError> {
    put_member(out, "cat", ARROWS)?;
    out.key("id")?;
    out.u64(number)
}

/// Puts nanoseconds as microseconds with three decimals.
fn put_time(alloc: Global, out: &mut Writer, time: u64) -> Result<(), AllocError> {
    let (micros, rest) = (time / MICROSECOND, time % MICROSECOND);
    let text = format!(in alloc; "{micros}.{rest:03}")?;
    if is_number(text.as_str()) {
        out.number(text.as_str())
    } else {
        out.u64(micros)
    }
}

/// Puts a text; its bytes that aren't UTF-8 are told as U+FFFD.
fn put_text(alloc: Global, out: &mut Writer, text: &[u8]) -> Result<(), AllocError> {
    match str::from_utf8(text) {
        Ok(text) => out.string(text),
        Err(_) => out.string(String::from_utf8_lossy(alloc, text)?.as_str()),
    }
}
