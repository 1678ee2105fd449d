//! A script over a store in memory.
ghost use Rattle.std.specs.Prelude.{◌≡◌, ◌<◌, ◌≤◌, IfOk, IfSome, OnErr, Err, length, false};
ghost use Rattle.std.specs.Io.KnownBytes.{Appends};
ghost use Rattle.stores.specs.MemStore.{reads_of};
ghost use Rattle.script_lines.specs.Lines.{IsWithinLimits, IsOfFiles};
ghost use Rattle.wrap_port.specs.WrapSpecs.{wrap_seen};
ghost use Rattle.recovery.specs.Stores.{turns};
ghost use Rattle.script_runner.specs.{LinesRun.Answering, LinesRun.RunsLines, PortOpenings.FitsStore, Texts.line_of};
ghost use Rattle.trace_port.specs.Limits.{greatest_limit};
ghost use Rattle.simulator.specs.Simulated.{Begins, Opens, Crashes, Does, DoesOrFails, Runs, IsRunWhole, Simulates, IsFinished, IsRun, first_of as first_told};
ghost use Rattle.trace_port.specs.declared.create.CreateFault.TheVariants as creating;
ghost use Rattle.script_runner.specs.declared.refusal.Refusal.TheVariants as refusals;
ghost use Rattle.script_lines.specs.declared.line.Line.TheVariants as lines;

use crate::contents::with_bytes;
use crate::store_lines::{list, list_files};
use recovery::wipe;
use script_lines::{Line, Script, Unsynced};
use script_runner::{
    Answer, Answers, AnyOpening, Leave, Origin, Refusal, SimFault, Stop, hold, next_line,
};
use std::alloc::Global;
use std::io::{BufRead, Write};
use stores::{MemStore, Pick};
use trace_port::{CreateFault, begin_create, begin_resume};
use trace_store::{DeviceFault, Store};
use wrap_port::{BadSpec, WrapSpec};

/// Runs a script over a store in memory, at first a blank one of one file. What was answered before a fault has been
/// written. A run that fails of several causes answers the first.
pub fn run_sim<R: BufRead, W: Write>(
    alloc: Global,
    reader: &mut R,
    writer: &mut W,
) -> Result<(), SimFault>
    ensures { IsRun (R.remaining reader.old) (R.remaining reader.new) (W.contents writer.old)
        (W.contents writer.new) result }
{
    let mut text = Vec::new(alloc);
    let mut script = Script::new(alloc, reader, &mut text, false);
    run_script(alloc, &mut script, writer)
}

/// Runs the lines of a script, of which none is read yet, over a blank store of one file.
fn run_script<R: BufRead, W: Write>(
    alloc: Global,
    script: &mut Script<'_, R>,
    writer: &mut W,
) -> Result<(), SimFault>
    requires any { script.old.is_of_desk ≡ false }
    requires first { script.old.number ≡ 0 }
    ensures reader { script.new.reader.ghost_name ≡ script.old.reader.ghost_name }
    ensures run { IsRun (R.remaining script.old.reader.now) (R.remaining script.new.reader.now)
        (W.contents writer.old) (W.contents writer.new) result }
{
    let Ok(mut store) = MemStore::blank(alloc, 1) else {
        return Err(SimFault::NoMemory);
    };
    let mut answers = Answers::new(writer);
    let done = run_lines(alloc, &mut store, script, &mut answers);
    let flushed = answers.finish();
    drop(store);
    first_of(done, flushed)
}

/// The fault of a run, or else that of writing out what it wrote.
fn first_of(done: Result<(), SimFault>, flushed: Result<(), SimFault>) -> Result<(), SimFault>
    ensures { result ≡ first_told done flushed }
{
    match done {
        Ok(()) => flushed,
        Err(fault) => {
            drop(flushed);
            Err(fault)
        }
    }
}

/// Runs the lines that a script has left, up to its end or the first fault. A line that makes a port takes those after it, until
/// that is given up.
pub fn run_lines<R: BufRead, W: Write>(
    alloc: Global,
    store: &mut MemStore,
    script: &mut Script<'_, R>,
    answers: &mut Answers<'_, W>,
) -> Result<(), SimFault>
    ensures simulates { RunsLines R.Read W.Write script.old script.new answers.old answers.new
        (λ over was now. Simulates store.old store.new over was now result) }
{
    for _line in 0..u64::MAX {
        let Some(line) = next_line(script, store.files())? else {
            return Ok(());
        };
        run_whole(alloc, store, line, script, answers)?;
    }
    Err(SimFault::Read)
}

/// Runs a line with the lines that its port takes, and writes how that port was left.
fn run_whole<R: BufRead, W: Write>(
    alloc: Global,
    store: &mut MemStore,
    line: Line,
    script: &mut Script<'_, R>,
    answers: &mut Answers<'_, W>,
) -> Result<(), SimFault>
    requires sound { IsWithinLimits line }
    requires file { IsOfFiles (length (reads_of store.old)) line }
    ensures run { RunsLines R.Read W.Write script.old script.new answers.old answers.new
        (λ over was now. IsRunWhole line store.old store.new over result was now) }
{
    let left = run_line(alloc, &mut *store, &line, script, &mut *answers);
    drop(line);
    finish(store, left, answers)
}

/// Runs a line and, where it makes a port, the lines after it until one gives that up; answers how, None where none does.
fn run_line<R: BufRead, W: Write>(
    alloc: Global,
    store: &mut MemStore,
    line: &Line,
    script: &mut Script<'_, R>,
    answers: &mut Answers<'_, W>,
) -> Result<Option<Leave>, Stop>
    requires sound { IsWithinLimits line.now }
    requires file { IsOfFiles (length (reads_of store.old)) line.now }
    ensures runs { RunsLines R.Read W.Write script.old script.new answers.old answers.new
        (λ over was now. Runs line.now store.old store.new over
        (λ text. Appends was now text) result) }
{
    match open(alloc, &mut *store, line) {
        Ok(Some((opening, origin))) => {
            match hold(alloc, store, opening, origin, script, answers) {
                Ok(leave) => Ok(leave),
                Err(fault) => Err(Stop::Failed(fault)),
            }
        }
        Ok(None) => match run_store_line(alloc, store, line, answers) {
            Ok(()) => Ok(None),
            Err(fault) => Err(Stop::Failed(fault)),
        },
        Err(refusal) => Err(Stop::Refused(refusal)),
    }
}

/// Opens a port as a line says: over a blank store, or one that goes on with the trace that is there. None where it makes none.
fn open(
    alloc: Global,
    store: &mut MemStore,
    line: &Line,
) -> Result<Option<(AnyOpening, Origin)>, Refusal>
    ensures fits { IfOk result (λ found. IfSome found
        (λ r. FitsStore ⟦<MemStore as Store>⟧ r.0 store.new)) }
    ensures opens { Opens line.now store.old store.new result }
{
    match line {
        Line::CreateFile(limit) => match begin_create(alloc, store, *limit) {
            Ok(opening) => Ok(Some((AnyOpening::File(opening), Origin::Created))),
            Err(fault) => Err(Refusal::Create(fault)),
        },
        Line::ResumeFile(limit) => match begin_resume(alloc, store, *limit) {
            Ok(opening) => Ok(Some((AnyOpening::File(opening), Origin::Resumed))),
            Err(fault) => Err(Refusal::Resume(fault)),
        },
        Line::CreateWrap { size, count } => create_wrap(alloc, store, WrapSpec::new(*size, *count)),
        Line::CreateTime { millis, count } => {
            create_wrap(alloc, store, WrapSpec::timed(*millis, *count))
        }
        Line::ResumeWrap => match wrap_port::begin_resume(alloc, store) {
            Ok(opening) => Ok(Some((AnyOpening::Wrap(opening), Origin::Resumed))),
            Err(fault) => Err(Refusal::Resume(fault)),
        },
        _ => Ok(None),
    }
}

/// Opens a wrap port over a blank store, where there is such a wrap.
fn create_wrap(
    alloc: Global,
    store: &mut MemStore,
    spec: Result<WrapSpec, BadSpec>,
) -> Result<Option<(AnyOpening, Origin)>, Refusal>
    ensures fits { IfOk result (λ found. IfSome found
        (λ r. FitsStore ⟦<MemStore as Store>⟧ r.0 store.new)) }
    ensures opens { IfOk spec (λ spec. Begins (length (reads_of store.old) < turns (wrap_seen spec))
        (wrap_seen spec) greatest_limit store.old store.new result) }
    ensures no_wrap { OnErr spec ((store.new ≡ store.old)
        × (result ≡ Err (refusals.Create creating.BadSpec))) }
{
    let Ok(spec) = spec else {
        return Err(Refusal::Create(CreateFault::BadSpec));
    };
    match wrap_port::begin_create(alloc, store, spec) {
        Ok(opening) => Ok(Some((AnyOpening::Wrap(opening), Origin::Created))),
        Err(fault) => Err(Refusal::Create(fault)),
    }
}

/// Runs a line that makes no port.
fn run_store_line<W: Write>(
    alloc: Global,
    store: &mut MemStore,
    line: &Line,
    answers: &mut Answers<'_, W>,
) -> Result<(), SimFault>
    requires sound { IsWithinLimits line.now }
    requires file { IsOfFiles (length (reads_of store.old)) line.now }
    ensures does { Answering W.Write answers.old answers.new
        (λ was now. DoesOrFails line.now store.old store.new result
        (λ text. Appends was now text)) }
{
    match line {
        Line::Store(files) => answers.tell(set_store(alloc, store, *files)),
        Line::Bytes(file, bytes) => answers.tell(set_bytes(alloc, store, *file, bytes)),
        Line::Fuse(calls) => answers.tell(set_fuse(store, *calls)),
        Line::FailOnce(calls) => answers.tell(set_fail_once(store, *calls)),
        Line::Crash(unsynced) => answers.tell(crashed(store, *unsynced)),
        Line::Files => list_files(store, answers),
        Line::List => list(alloc, store, answers),
        Line::Wipe => answers.tell(cleared(store)),
        _ => answers.tell(Answer::OutOfOrder),
    }
}

/// Closes each open file for good.
fn cleared(store: &mut MemStore) -> Answer
    ensures { Does store.old store.new lines.Wipe (line_of result) }
{
    match wipe(store) {
        Ok(()) => Answer::Done,
        Err(DeviceFault) => Answer::Refused(Refusal::Device),
    }
}

/// Replaces the store by a blank one of `files` files.
fn set_store(alloc: Global, store: &mut MemStore, files: u32) -> Answer
    requires { (1 ≤ files) × (files ≤ 1001) }
    ensures { Does store.old store.new (lines.Store files) (line_of result) }
{
    match MemStore::blank(alloc, files) {
        Ok(blank) => {
            *store = blank;
            Answer::Done
        }
        Err(_) => Answer::Refused(Refusal::NoMemory),
    }
}

/// Replaces the store by one with these bytes in this file, and nothing unsynced.
fn set_bytes(alloc: Global, store: &mut MemStore, file: u32, bytes: &Vec<u8>) -> Answer
    requires { file < length (reads_of store.old) }
    ensures { Does store.old store.new (lines.Bytes file bytes.now) (line_of result) }
{
    match with_bytes(alloc, &mut *store, file, bytes) {
        Ok(changed) => {
            *store = changed;
            Answer::Done
        }
        Err(refusal) => Answer::Refused(refusal),
    }
}

/// Makes the store's device calls fail after the next `calls`.
fn set_fuse(store: &mut MemStore, calls: u64) -> Answer
    ensures { Does store.old store.new (lines.Fuse calls) (line_of result) }
{
    store.fuse(calls);
    Answer::Done
}

/// Makes one of the store's device calls fail, the one after the next `calls`.
fn set_fail_once(store: &mut MemStore, calls: u64) -> Answer
    ensures { Does store.old store.new (lines.FailOnce calls) (line_of result) }
{
    store.fail_once(calls);
    Answer::Done
}

/// Writes the answer to how a line's port, which was dropped, was left, or why none was made.
fn finish<W: Write>(
    store: &mut MemStore,
    left: Result<Option<Leave>, Stop>,
    answers: &mut Answers<'_, W>,
) -> Result<(), SimFault>
    ensures over { Answering W.Write answers.old answers.new
        (λ was now. IsFinished store.old store.new (λ text. Appends was now text) left result) }
{
    match left {
        Ok(Some(Leave::Abandoned)) => answers.tell(Answer::Done),
        Ok(Some(Leave::Closed)) => answers.tell(Answer::Closed),
        Ok(Some(Leave::Crashed(unsynced))) => answers.tell(crashed(store, unsynced)),
        Ok(None) => Ok(()),
        Err(Stop::Refused(refusal)) => answers.tell(Answer::Refused(refusal)),
        Err(Stop::Failed(fault)) => Err(fault),
    }
}

/// Leaves one of the images that a crash may leave, with nothing unsynced and no fuse.
fn crashed(store: &mut MemStore, unsynced: Unsynced) -> Answer
    ensures { Crashes unsynced store.old store.new (line_of result) }
{
    match store.crash(Pick::from(unsynced)) {
        Ok(()) => Answer::Done,
        Err(fault) => Answer::Refused(Refusal::Crash(fault)),
    }
}
