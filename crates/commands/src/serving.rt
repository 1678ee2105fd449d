//! What is asked of a stored trace, done and shown.
ghost use Rattle.std.specs.Prelude.{◌≡◌, ℕ, List, [], Option, Some, Ok, true, IfOk, IfErr};
ghost use Rattle.faults.specs.Complaints.{status_told};
ghost use Rattle.stores.specs.Events.{World};
ghost use Rattle.import.specs.Incoming.{outside};
ghost use Rattle.shown_listings.specs.Listings.{Shows, ShowsFrom};
ghost use Rattle.commands.specs.Later.{MayBeginLater};
ghost use Rattle.commands.specs.Serving.{Does, ServesTrace, ShowsTrace, IsShownOf, AreMade, ServesFiles, ListsFiles, FollowsFiles};

use crate::awaiting::await_trace;
use crate::commands::serve_trace;
use crate::files::Files;
use crate::following::serve_following;
use crate::later::{NearEnd, entries_for, last_of, near_end, shown_as_asked, shows_new};
use crate::sites::files_for;
use crate::unshown::tell_unshown;
use command_line::{Asked, Shown, TraceRequest};
use faults::Complaint;
use shown_listings::{Console, Listable, Output, console_for, show, show_from, taken};
use std::io::{self, Read, Write};
use std::mem;
use std::sync::Wait;
use trace_listings::Watched;
use trace_reader::Observed;

/// What is done with the files of a trace.
enum Task<'a> {
    /// What a request asks.
    Asked(TraceRequest<'a>),
    /// The trace is listed, and then what is added to it.
    Followed { is_pretty: bool },
}

/// The files of a trace after what was done with them, and what was observed until then.
#[derive(Drop)]
pub struct Served<'a> {
    pub files: Files<'a>,
    pub observed: Observed,
}

/// What is done with a trace, and its files.
struct TraceListing<'a> {
    task: Task<'a>,
    files: Files<'a>,
    console: Console,
    /// Its end is told to a terminal.
    is_told: bool,
    /// It was waited for: what is there is new.
    is_new: bool,
}

/// Does it, and writes what comes of it.
#[inline(always)]
fn do_with<R: Wait, I: Read + Drop, W: Write>(
    waiter: &R,
    task: Task<'_>,
    shown: &Shown,
    files: &mut Files<'_>,
    input: I,
    watched: &mut Watched<'_, W, Console>,
) -> Result<(), Complaint>
    ensures { Does task.entry shown.now files.old
        (outside (I.remaining input) 0 watched.old.host.now.observed.notes) files.new
        watched.new.host.now.observed.notes result
        (W.contents watched.old.writer.now) (W.contents watched.new.writer.now) }
{
    match task {
        Task::Asked(request) => serve_trace(request, shown, files, input, watched),
        Task::Followed { is_pretty } => serve_following(waiter, files, is_pretty, shown, watched),
    }
}

/// Tells at the end of a listing whether more may come.
fn tell_end(files: &Files<'_>, is_told: bool, done: &Result<(), Complaint>) {
    if is_told && done.is_ok() {
        files.tell_state();
    }
}

/// Does it, and writes to the output, with a console for what it tells meanwhile; hands on what that observed.
fn do_over<R: Wait, I: Read + Drop, W: Output>(
    waiter: &R,
    task: Task<'_>,
    shown: &Shown,
    files: &mut Files<'_>,
    console: Console,
    input: I,
    output: &mut W,
) -> (Result<(), Complaint>, Observed)
    ensures { Does task.entry shown.now files.old
        (outside (I.remaining input) 0 console.observed.notes) files.new result.1.notes result.0
        (W.contents output.old) (W.contents output.new) }
{
    let mut console = console;
    let mut writer = taken(files.alloc(), output);
    let mut watched = Watched::new(&mut writer, &mut console);
    let done = do_with(waiter, task, shown, files, input, &mut watched);
    let host = &mut *watched.host;
    let observed = mem::replace(&mut host.observed, Observed::new());
    *output = taken(files.alloc(), &mut *watched.writer);
    drop(watched);
    drop(writer);
    drop(console);
    (done, observed)
}

impl<'a> Listable for TraceListing<'a> {
    type Left = Served<'a>;

    ghost lists = { λ trace shown had left. Does trace.task shown trace.files (outside had 0 trace.console.observed.notes) left.files left.observed.notes };

    fn list<R: Wait, I: Read + Drop, W: Output>(
        self,
        waiter: &R,
        shown: &Shown,
        input: I,
        output: &mut W,
    ) -> (Result<(), Complaint>, Served<'a>) {
        let TraceListing {
            task,
            mut files,
            console,
            is_told,
            is_new: _,
        } = self;
        let (done, observed) = do_over(waiter, task, shown, &mut files, console, input, output);
        tell_end(&files, is_told, &done);
        (done, Served { files, observed })
    }

    fn is_new(&self) -> bool {
        self.is_new
    }

    fn tell_unshown(rt: &HostRuntime, left: &Served<'a>, shown: &Shown) {
        tell_unshown(rt, &left.files, shown);
    }
}

/// Does with a trace what is asked, and hands on its files, where they could be had.
pub fn serve_files<'a, R: Wait, I: Read + Drop, W: Output>(
    rt: &HostRuntime,
    waiter: &R,
    request: TraceRequest<'a>,
    shown: Shown,
    input: I,
    output: &mut W,
) -> (Result<(), Complaint>, Option<Served<'a>>)
    ghost world: { World }
    ensures { ServesFiles world request.entry shown (I.remaining input) (W.contents output.old)
        (W.contents output.new) result.0 result.1 }
{
    let mut files = match files_for(rt, &request) {
        Ok(files) => files,
        Err(complaint) => return (Err(complaint), None),
    };
    let console = console_for(rt, &request);
    let task = Task::Asked(request);
    let (done, observed) = do_over(waiter, task, &shown, &mut files, console, input, output);
    (done, Some(Served { files, observed }))
}

/// What is asked of a trace, to be shown.
fn listing_of<'a>(
    rt: &HostRuntime,
    request: TraceRequest<'a>,
    files: Files<'a>,
    is_told: bool,
) -> TraceListing<'a>
    ensures task { result.task ≡ Task.Asked request.entry }
    ensures files { result.files ≡ files.entry }
    ensures unobserved { result.console.observed.notes ≡ [] }
{
    let console = console_for(rt, &request);
    TraceListing {
        task: Task::Asked(request),
        files,
        console,
        is_told,
        is_new: false,
    }
}

/// Does with a trace what is asked, and shows all that is listed so.
fn show_all<'a, R: Wait, I: Read + Drop, W: Output>(
    rt: &HostRuntime,
    waiter: &R,
    request: TraceRequest<'a>,
    shown: Shown,
    files: Files<'a>,
    input: I,
    output: &mut W,
) -> (Result<(), Complaint>, Served<'a>)
    ensures { Shows shown (ServesTrace request.entry shown files.entry
        (outside (I.remaining input) 0 []) result.1.files result.1.observed.notes) result.0
        (W.contents output.old) (W.contents output.new) }
{
    let is_list = matches!(request, TraceRequest::List { .. });
    let listing = listing_of(rt, request, files, is_list);
    show(rt, waiter, listing, shown, input, output)
}

/// Shows a listing that begins near the end, where enough rows came from there on; else nothing is written.
fn show_near_end<'a, R: Wait, W: Output>(
    rt: &HostRuntime,
    waiter: &R,
    request: TraceRequest<'a>,
    near: &NearEnd,
    files: Files<'a>,
    output: &mut W,
) -> (Option<Result<(), Complaint>>, Served<'a>)
    ensures { ShowsFrom near.now.first near.now.later.layout (ServesTrace request.entry
        near.now.later files.entry (outside (Some []) 0 []) result.1.files
        result.1.observed.notes) result.0 (W.contents output.old) (W.contents output.new) }
{
    let listing = listing_of(rt, request, files, false);
    show_from(
        rt,
        waiter,
        listing,
        &near.later,
        near.first,
        io::empty(),
        output,
    )
}

/// Shows the last rows of a trace: its listing begins near the end where enough of them come from there on, and else at the
/// beginning.
fn show_last<'a, R: Wait, I: Read + Drop, W: Output>(
    rt: &HostRuntime,
    waiter: &R,
    request: TraceRequest<'a>,
    shown: Shown,
    last: u32,
    files: Files<'a>,
    input: I,
    output: &mut W,
) -> (Result<(), Complaint>, Served<'a>)
    requires { MayBeginLater request shown }
    ensures { ShowsTrace request.entry shown (I.remaining input) files.entry result.1 result.0
        (W.contents output.old) (W.contents output.new) }
{
    let mut files = files;
    let near = match near_end(&mut files, entries_for(last), shown) {
        Ok(near) => near,
        Err(shown) => return show_all(rt, waiter, request, shown, files, input, output),
    };
    let (told, left) = show_near_end(rt, waiter, request, &near, files, output);
    if let Some(done) = told {
        tell_end(&left.files, true, &done);
        return (done, left);
    }
    let Served { mut files, .. } = left;
    files.reopen();
    let shown = shown_as_asked(near.later, near.start);
    show_all(rt, waiter, request, shown, files, input, output)
}

/// Does the same as `serve_files`, and of what is listed so shows the lines that are chosen, as they are or as objects.
pub fn list_files<'a, R: Wait, I: Read + Drop, W: Output>(
    rt: &HostRuntime,
    waiter: &R,
    request: TraceRequest<'a>,
    shown: Shown,
    input: I,
    output: &mut W,
) -> (Result<(), Complaint>, Option<Served<'a>>)
    ghost world: { World }
    ensures { ListsFiles world request.entry shown (I.remaining input) (W.contents output.old)
        (W.contents output.new) result.0 result.1 }
{
    let files = match files_for(rt, &request) {
        Ok(files) => files,
        Err(complaint) => return (Err(complaint), None),
    };
    if let Some(last) = last_of(&request, &shown) {
        let (done, left) = show_last(rt, waiter, request, shown, last, files, input, output);
        return (done, Some(left));
    }
    let (done, left) = show_all(rt, waiter, request, shown, files, input, output);
    (done, Some(left))
}

/// The files of a trace that is to be followed, once it is begun, and whether it was waited for.
fn files_to_follow<'a, R: Wait>(
    rt: &HostRuntime,
    waiter: &R,
    asked: &Asked<'_>,
    request: &TraceRequest<'a>,
) -> Result<(Files<'a>, bool), Complaint>
    ghost world: { World }
    ensures made { IfOk result (λ files. AreMade world request.now files.0) }
    ensures refused { IfErr result (λ complaint. status_told complaint ≡ 1) }
{
    let was_awaited = await_trace(rt, waiter, asked)?;
    let files = files_for(rt, request)?;
    Ok((files, was_awaited))
}

/// Whether rows were shown, and their listing ended well.
fn ended_well(told: Option<Result<(), Complaint>>) -> bool
    ensures { result ≡ true → told ≡ Some (Ok tt) }
{
    let is_well = matches!(told, Some(Ok(())));
    drop(told);
    is_well
}

/// What is shown of a trace that is followed, where that is its last rows and then what is added: from near the end on, where
/// enough of them come from there.
fn last_shown<'a, R: Wait>(
    rt: &HostRuntime,
    waiter: &R,
    request: TraceRequest<'a>,
    last: u32,
    files: Files<'a>,
    shown: Shown,
) -> (Files<'a>, Shown)
    requires { MayBeginLater request shown }
    ensures { IsShownOf request.entry files.entry result.0 shown result.1 }
{
    let mut files = files;
    let near = match near_end(&mut files, entries_for(last), shown) {
        Ok(near) => near,
        Err(shown) => return (files, shown),
    };
    let mut rows = Vec::new(rt.alloc());
    let (told, left) = show_near_end(rt, waiter, request, &near, files, &mut rows);
    drop(rows);
    let Served { mut files, .. } = left;
    files.reopen();
    if ended_well(told) {
        return (files, near.later);
    }
    (files, shown_as_asked(near.later, near.start))
}

/// What is shown of a trace that is followed: from near the end on, where what comes before that isn't shown. All is shown of
/// one that was waited for.
fn shown_of<'a, R: Wait>(
    rt: &HostRuntime,
    waiter: &R,
    request: TraceRequest<'a>,
    files: Files<'a>,
    shown: Shown,
    was_awaited: bool,
) -> (Files<'a>, Shown)
    ensures { IsShownOf request.entry files.entry result.0 shown result.1 }
{
    if was_awaited {
        return (files, shown);
    }
    if let Some(last) = last_of(&request, &shown) {
        return last_shown(rt, waiter, request, last, files, shown);
    }
    if !shows_new(&shown) {
        return (files, shown);
    }
    let mut files = files;
    match near_end(&mut files, entries_for(0), shown) {
        Ok(near) => (files, near.later),
        Err(shown) => (files, shown),
    }
}

/// Lists a trace, and goes on with what is added to it. It may wait for that forever. It hands on the files, where they could be
/// had.
pub fn follow_files<'a, R: Wait, I: Read + Drop, W: Output>(
    rt: &HostRuntime,
    waiter: &R,
    asked: Asked<'a>,
    is_pretty: bool,
    shown: Shown,
    input: I,
    output: &mut W,
) -> (Result<(), Complaint>, Option<Served<'a>>)
    ghost world: { World }
    ensures { FollowsFiles world asked.entry is_pretty shown (W.contents output.old)
        (W.contents output.new) result.0 result.1 }
{
    let request = TraceRequest::List { asked, is_pretty };
    let (files, was_awaited) = match files_to_follow(rt, waiter, &asked, &request) {
        Ok(found) => found,
        Err(complaint) => return (Err(complaint), None),
    };
    let (files, shown) = shown_of(rt, waiter, request, files, shown, was_awaited);
    let listing = TraceListing {
        task: Task::Followed { is_pretty },
        files,
        console: Console::new(*rt, true),
        is_told: false,
        is_new: was_awaited,
    };
    let (done, left) = show(rt, waiter, listing, shown, input, output);
    (done, Some(left))
}
