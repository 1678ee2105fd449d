//! Listings, shown as they are or up to an empty line.
ghost use Rattle.std.specs.Prelude.{◌≡◌, ◌++◌, ℕ, List, [], None, Ok, Some, Option, Result, OnOk, IfErr, drop, true};
ghost use Rattle.shown_listings.specs.Rows.{given_lines, laid_contents};
ghost use Rattle.std.specs.Io.KnownBytes.{append_known, Appends, Keeps};
ghost use Rattle.script_runner.specs.declared.fault.SimFault.TheVariants as faults;
ghost use Rattle.command_line.specs.declared.request.Shown.{Shown};
ghost use Rattle.faults.specs.declared.complaint.Complaint.TheVariants as complaints;
ghost use Rattle.shown_listings.specs.Listings.{Listing, UpToEnd, IsToldBy, IsLaidOut, IsToldWith, rule_from, may_end, ShowsBy, ShowsFrom, Shows};
ghost use Rattle.shown_listings.specs.Ahead.{EndsRows};

use crate::ahead::Ahead;
use crate::counted::{Counted, CountedLeft};
use crate::end_writer::EndWriter;
use crate::given::Given;
use crate::laid_out::{LaidOut, RowsEnd};
use crate::look::Look;
use crate::outlet::{Output, taken};
use crate::rows::Rows;
use crate::screen::screen_of;
use crate::sending::{Unsent, send};
use crate::zone::{Zone, local_zone};
use command_line::{Layout, Shown};
use faults::Complaint;
use script_runner::SimFault;
use std::alloc::{AllocError, Global};
use std::cell::Cell;
use std::io::{IsTerminal, Read, Write};
use std::sync::Wait;
use trace_text::Choice;

/// What can be listed.
pub trait Listable {
    /// What is left of it in the end, as the files of a trace.
    type Left;

    /// What comes of it, by how it is to be shown, by the bytes that the input has and by what is left.
    ghost lists: { Self → Shown → Option (List ℕ) → Self.Left → Listing };

    /// Lists the entries that are chosen, by lines or by objects. It may read the input, and wait for what is to be listed.
    fn list<R: Wait, I: Read + Drop, W: Output>(
        self,
        waiter: &R,
        shown: &Shown,
        input: I,
        output: &mut W,
    ) -> (Result<(), Complaint>, Self::Left)
        ensures { lists self shown.now (I.remaining input) result.1 result.0 (W.contents output.old)
            (W.contents output.new) };

    /// Whether what is there when it begins is new: it was waited for.
    fn is_new(&self) -> bool;

    /// Tells on standard error what it has, by what is left of it, where nothing of it is shown that is asked for.
    fn tell_unshown(rt: &HostRuntime, left: &Self::Left, shown: &Shown);
}

impl<W: Output> Output for EndWriter<W> {
    fn none(alloc: Global) -> EndWriter<W> {
        EndWriter::new(W::none(alloc))
    }
}

impl<W: Output> Output for LaidOut<W> {
    fn none(alloc: Global) -> Self {
        let rows = Rows::new(alloc, Zone::Utc, None, None);
        LaidOut::new(alloc, W::none(alloc), Look::PLAIN, Ok(rows))
    }
}

/// The writer to which `lines` hands on.
fn out_of<W: Write>(lines: EndWriter<W>) -> W
    ensures { result ≡ lines.out }
{
    lines.out
}

/// Writes out what is shown.
fn write_out<W: Write>(output: &mut W) -> Result<(), Complaint>
    ensures kept { Keeps (W.contents output.old) (W.contents output.new) }
    ensures err { IfErr result (λ complaint. complaint ≡ complaints.Fault faults.Write None) }
{
    match output.flush() {
        Ok(()) => Ok(()),
        Err(_) => Err(Complaint::from(SimFault::Write)),
    }
}

/// How a listing ended; where that was at an empty line, whether what came before it could be written out.
fn told_of<W: Write>(
    done: Result<(), Complaint>,
    is_ended: bool,
    output: &mut W,
) -> Result<(), Complaint>
    ensures told { IsToldBy is_ended done result }
    ensures kept { Keeps (W.contents output.old) (W.contents output.new) }
{
    if is_ended {
        drop(done);
        return write_out(output);
    }
    done
}

/// Whether a listing by this choice may end before its last line.
fn may_end(choice: &Option<Choice>) -> bool
    ensures { result ≡ may_end choice.now }
{
    match choice {
        Some(choice) => !choice.is_whole && choice.to.is_some(),
        None => false,
    }
}

/// Lists what comes before the first empty line of a listing.
fn list_to_end<S: Listable, R: Wait, I: Read + Drop, W: Output>(
    alloc: Global,
    waiter: &R,
    listing: S,
    shown: &Shown,
    input: I,
    output: &mut W,
) -> (Result<(), Complaint>, S::Left)
    ensures { UpToEnd (S.lists listing shown.now (I.remaining input) result.1) result.0
        (W.contents output.old) (W.contents output.new) }
{
    let mut lines = EndWriter::new(taken(alloc, output));
    let (done, left) = listing.list(waiter, shown, input, &mut lines);
    let is_ended = lines.is_ended;
    *output = out_of(lines);
    let told = told_of(done, is_ended, output);
    (told, left)
}

/// Lists what is shown: up to an empty line, where the listing may have one (`may_end`), else all.
fn list_shown<S: Listable, R: Wait, I: Read + Drop, W: Output>(
    alloc: Global,
    waiter: &R,
    listing: S,
    shown: &Shown,
    input: I,
    output: &mut W,
) -> (Result<(), Complaint>, S::Left)
    ensures { ShowsBy (may_end shown.now.choice)
        (S.lists listing shown.now (I.remaining input) result.1) result.0
        (W.contents output.old) (W.contents output.new) }
{
    if may_end(&shown.choice) {
        list_to_end(alloc, waiter, listing, shown, input, output)
    } else {
        listing.list(waiter, shown, input, output)
    }
}

/// How a listing ended, by how its rows did.
fn told_with(done: Result<(), Complaint>, end: RowsEnd) -> Result<(), Complaint>
    ensures { IsToldWith end done result }
{
    match end {
        RowsEnd::Written => done,
        RowsEnd::Unwritten => {
            drop(done);
            Err(Complaint::from(SimFault::Write))
        }
        RowsEnd::NoMemory => {
            drop(done);
            Err(Complaint::from(SimFault::NoMemory))
        }
    }
}

/// What makes the rows that a layout asks for. What is there when they begin is new where `is_new` is true.
fn rows_for(
    rt: &HostRuntime,
    shown: &Shown,
    layout: &Layout,
    is_new: bool,
) -> Result<Rows, AllocError> {
    let grep = match &layout.grep {
        Some(text) => Some(text.clone()?),
        None => None,
    };
    let zone = if layout.is_utc {
        Zone::Utc
    } else {
        local_zone(rt)?
    };
    let began = zone.now(rt);
    let mut rows = Rows::new(rt.alloc(), zone, began, grep);
    if is_new {
        rows.begin();
    }
    if shown
        .choice
        .as_ref()
        .is_some_and(|choice| !choice.has_no_text())
    {
        rows.pass_over();
    }
    Ok(rows)
}

/// Lists what is shown, of which the last rows alone are asked for, laid out for a person.
fn list_last<S: Listable, R: Wait, I: Read + Drop, W: Output>(
    rt: &HostRuntime,
    waiter: &R,
    listing: S,
    shown: &Shown,
    layout: &Layout,
    input: I,
    output: &mut W,
    has_shown: &Cell<bool>,
) -> (Result<(), Complaint>, S::Left)
    ensures { IsLaidOut (rule_from None layout.now) (ShowsBy (may_end shown.now.choice)
        (S.lists listing shown.now (I.remaining input) result.1)) result.0
        (W.contents output.old) (W.contents output.new) }
{
    let look = Look::new(layout, None, screen_of(rt, layout));
    let rows = rows_for(rt, shown, layout, listing.is_new());
    let mut laid = LaidOut::new(rt.alloc(), taken(rt.alloc(), output), look, rows);
    let (done, left) = list_shown(rt.alloc(), waiter, listing, shown, input, &mut laid);
    has_shown.set(laid.has_shown());
    let (ended, out) = laid.end();
    *output = out;
    let told = told_with(done, ended);
    (told, left)
}

/// How rows ended, by whether all that was held back came to them.
fn end_with(is_whole: bool, ended: RowsEnd) -> RowsEnd
    ensures whole { result ≡ RowsEnd.Written → (is_whole ≡ true) × (ended ≡ RowsEnd.Written) }
{
    if is_whole || !matches!(ended, RowsEnd::Written) {
        ended
    } else {
        RowsEnd::Unwritten
    }
}

/// The writer to which `ahead` hands on.
fn rows_of<W: Output>(ahead: Ahead<LaidOut<W>>) -> LaidOut<W>
    ensures { result ≡ ahead.out }
{
    ahead.out
}

/// Hands on what is held back, writes out what is left of the rows, and tells how they ended.
fn end_rows<W: Output>(ahead: Ahead<LaidOut<W>>, has_shown: &Cell<bool>) -> (RowsEnd, W)
    ensures { EndsRows (append_known (laid_contents ahead.out.look.rule ahead.out.written.start
        (given_lines ahead.out.lines.items ahead.out.line.items))
        (drop ahead.taken ahead.held.items)) (result.0 ≡ RowsEnd.Written) (W.contents result.1) }
{
    let mut ahead = ahead;
    let is_whole = ahead.hand_on().is_ok();
    let laid = rows_of(ahead);
    has_shown.set(laid.has_shown());
    let (ended, out) = laid.end();
    (end_with(is_whole, ended), out)
}

/// Lists what is shown, laid out for a person. The rows know what comes in the first bytes before they get these.
fn list_ahead<S: Listable, R: Wait, I: Read + Drop, W: Output>(
    rt: &HostRuntime,
    waiter: &R,
    listing: S,
    shown: &Shown,
    layout: &Layout,
    input: I,
    output: &mut W,
    has_shown: &Cell<bool>,
) -> (Result<(), Complaint>, S::Left)
    requires { layout.now.last ≡ None }
    ensures { IsLaidOut (rule_from None layout.now) (ShowsBy (may_end shown.now.choice)
        (S.lists listing shown.now (I.remaining input) result.1)) result.0
        (W.contents output.old) (W.contents output.new) }
{
    let look = Look::new(layout, None, screen_of(rt, layout));
    let rows = rows_for(rt, shown, layout, listing.is_new());
    let laid = LaidOut::new(rt.alloc(), taken(rt.alloc(), output), look, rows);
    let mut ahead = Ahead::new(rt.alloc(), laid);
    let (done, left) = list_shown(rt.alloc(), waiter, listing, shown, input, &mut ahead);
    let (ended, out) = end_rows(ahead, has_shown);
    *output = out;
    let told = told_with(done, ended);
    (told, left)
}

/// Lists what is shown, laid out for a person.
fn list_laid_out<S: Listable, R: Wait, I: Read + Drop, W: Output>(
    rt: &HostRuntime,
    waiter: &R,
    listing: S,
    shown: &Shown,
    layout: &Layout,
    input: I,
    output: &mut W,
    has_shown: &Cell<bool>,
) -> (Result<(), Complaint>, S::Left)
    ensures { IsLaidOut (rule_from None layout.now) (ShowsBy (may_end shown.now.choice)
        (S.lists listing shown.now (I.remaining input) result.1)) result.0
        (W.contents output.old) (W.contents output.new) }
{
    match layout.last {
        Some(_) => list_last(rt, waiter, listing, shown, layout, input, output, has_shown),
        None => list_ahead(rt, waiter, listing, shown, layout, input, output, has_shown),
    }
}

/// Writes a text, and writes it out.
fn write_text<W: Write>(text: Vec<u8>, output: &mut W) -> Result<(), Complaint>
    ghost start: { Option (List ℕ) }
    requires { start ≡ W.contents output.old }
    ensures text { (written : List ℕ) × (left : List ℕ) × (written ++ left ≡ text.items)
        × (OnOk result (left ≡ []))
        × Appends (W.contents output.old) (W.contents output.new) written }
    ensures err { IfErr result (λ complaint. complaint ≡ complaints.Fault faults.Write None) }
{
    let mut unsent = Unsent {
        bytes: text,
        taken: 0,
    };
    let mut written = Given::new();
    if send(output, &mut unsent, &mut written).is_err() {
        return Err(Complaint::from(SimFault::Write));
    }
    write_out(output)
}

/// Whether a listing and its rows ended well.
fn ended_well(done: &Result<(), Complaint>, ended: RowsEnd) -> bool
    ensures { result ≡ true → (done.now ≡ Ok tt) × (ended ≡ RowsEnd.Written) }
{
    done.is_ok() && matches!(ended, RowsEnd::Written)
}

/// Lists what is shown, which is asked for from this entry on, laid out for a person. Where the listing doesn't end well, or has
/// fewer rows of that entry and those behind it than are asked for, None is answered, and nothing is written.
fn lay_out_from<S: Listable, R: Wait, I: Read + Drop, W: Output>(
    rt: &HostRuntime,
    waiter: &R,
    listing: S,
    shown: &Shown,
    layout: &Layout,
    first: u64,
    input: I,
    output: &mut W,
) -> (Option<Result<(), Complaint>>, S::Left)
    ensures { ShowsFrom first (Some layout.now)
        (S.lists listing shown.now (I.remaining input) result.1) result.0
        (W.contents output.old) (W.contents output.new) }
{
    let look = Look::new(layout, Some(first), screen_of(rt, layout));
    let rows = rows_for(rt, shown, layout, false);
    let mut laid = LaidOut::new(rt.alloc(), Vec::new(rt.alloc()), look, rows);
    let (done, left) = listing.list(waiter, shown, input, &mut laid);
    let (ended, text) = laid.end();
    let is_whole = ended_well(&done, ended);
    drop(done);
    if is_whole {
        (Some(write_text(text, output)), left)
    } else {
        (None, left)
    }
}

/// Shows a listing that is asked for from this entry on, where its last rows are of that entry and those behind it. Where fewer
/// rows of these came than are asked for, or it didn't end well, None is answered, and nothing is written.
pub fn show_from<S: Listable, R: Wait, I: Read + Drop, W: Output>(
    rt: &HostRuntime,
    waiter: &R,
    listing: S,
    shown: &Shown,
    first: u64,
    input: I,
    output: &mut W,
) -> (Option<Result<(), Complaint>>, S::Left)
    ensures { ShowsFrom first shown.now.layout
        (S.lists listing shown.now (I.remaining input) result.1) result.0
        (W.contents output.old) (W.contents output.new) }
{
    match &shown.layout {
        Some(layout) => lay_out_from(rt, waiter, listing, shown, layout, first, input, output),
        None => {
            let (done, left) = listing.list(waiter, shown, input, output);
            (Some(done), left)
        }
    }
}

/// Whether not all is asked for.
fn is_choosing(shown: &Shown) -> bool {
    let is_of_rows = match &shown.layout {
        Some(layout) => {
            layout.since.is_some() || layout.until.is_some() || layout.grep.is_some()
        }
        None => false,
    };
    is_of_rows || shown.choice.as_ref().is_some_and(|choice| !choice.is_all())
}

/// Shows a listing, and notes whether a message is shown. Where standard error is a terminal it says how many entries are opaque.
fn show_counted<S: Listable, R: Wait, I: Read + Drop, W: Output>(
    rt: &HostRuntime,
    waiter: &R,
    listing: S,
    shown: &Shown,
    input: I,
    output: &mut W,
    has_shown: &Cell<bool>,
) -> (Result<(), Complaint>, S::Left)
    ensures { Shows shown.now (S.lists listing shown.now (I.remaining input) result.1) result.0
        (W.contents output.old) (W.contents output.new) }
{
    let is_on = shown.is_plain && rt.stderr().is_terminal();
    let counted = Counted::new(rt, listing, is_on);
    match &shown.layout {
        Some(layout) => {
            let (done, counted) = list_laid_out(
                rt, waiter, counted, shown, layout, input, output, has_shown,
            );
            let CountedLeft {
                left,
                has_message: _,
            } = counted;
            (done, left)
        }
        None => {
            let (done, counted) = list_shown(rt.alloc(), waiter, counted, shown, input, output);
            let CountedLeft { left, has_message } = counted;
            has_shown.set(has_message);
            (done, left)
        }
    }
}

/// Shows a listing of the entries that are chosen. Where no message is shown though some are asked for, standard error says what
/// there is.
pub fn show<S: Listable, R: Wait, I: Read + Drop, W: Output>(
    rt: &HostRuntime,
    waiter: &R,
    listing: S,
    shown: Shown,
    input: I,
    output: &mut W,
) -> (Result<(), Complaint>, S::Left)
    ensures { Shows shown (S.lists listing shown (I.remaining input) result.1) result.0
        (W.contents output.old) (W.contents output.new) }
{
    let has_shown = Cell::new(false);
    let (done, left) = show_counted(rt, waiter, listing, &shown, input, output, &has_shown);
    if done.is_ok() && !has_shown.get() && is_choosing(&shown) {
        S::tell_unshown(rt, &left, &shown);
    }
    (done, left)
}
