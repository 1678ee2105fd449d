//! The entries of a trace are looked at, those that are asked for, and what their messages tell is counted.
ghost use Rattle.std.specs.Prelude.{◌≡◌, [], IfErr, IfOk, IsOk, None, OnOk};
ghost use Rattle.std.specs.Io.KnownBytes.{Keeps};
ghost use Rattle.stores.specs.FolderStore.{reads_of};
ghost use Rattle.trace_text.specs.Chooses.{asks_where};
ghost use Rattle.faults.specs.Complaints.{status_told};
ghost use Rattle.commands.specs.{Live.ReadsTrace, Live.ReadsTwice, Naming.IsToldAt, Telling.IsOfWriter, Viewing.IsDrawn, Viewing.IsFold, Viewing.IsTop, Viewing.IsViewed, Viewing.TellsStop, Viewing.ends_failed, Viewing.ends_seen};

use crate::commands::written_out;
use crate::files::Files;
use crate::informing::told;
use crate::live::hand_live;
use crate::stage::Stage;
use command_line::Ranking;
use faults::Complaint;
use script_runner::SimFault;
use std::io::{self, Write};
use trace_listings::Watched;
use trace_reader::Host;
use trace_text::Choice;
use trace_views::{EndsSeen, Folded, Perfetto, Top, View, ViewFault, ViewFeed};

/// What is told where a view takes no more: too many rows with the name of the trace, also where there is no memory for it.
fn stopped(files: &Files<'_>, fault: ViewFault) -> Complaint
    ensures told { TellsStop files.now.place.base.now fault result }
    ensures status { status_told result ≡ 1 }
{
    match fault {
        ViewFault::NoMemory => Complaint::from(SimFault::NoMemory),
        ViewFault::TooMany => match String::from_str(files.alloc(), files.place.base) {
            Ok(name) => Complaint::TooManyRows { name },
            Err(fault) => Complaint::from(fault),
        },
        ViewFault::Write => Complaint::from(SimFault::Write),
    }
}

/// Reads a trace, and hands its entries to a view. Where the view hasn't taken all, what is told of that, by the command of this
/// name.
fn look_at<V: View + Drop, H: Host>(
    files: &mut Files<'_>,
    choice: Option<&Choice>,
    view: V,
    host: &mut H,
    command: &'static str,
) -> Result<V, Complaint>
    ensures viewed { ReadsTrace files.old.store files.new.store result
        (IsViewed (asks_where choice.entry) (V.seen view) V.seen V.failed
        (IsToldAt files.old.place files.new.store)
        files.old.place.base.now (reads_of files.old.store) result) }
    ensures goes_on { IfOk result (λ looked. V.failed looked ≡ None) }
    ensures status { IfErr result (λ complaint. status_told complaint ≡ 1) }
    ensures place { OnOk result (files.new.place ≡ files.old.place) }
{
    let mut feed = ViewFeed::new(files.alloc(), choice, view, host);
    let reading = hand_live(files, &mut feed);
    let view = feed.into_view();
    match (view.fault(), reading.done) {
        (Some(fault), _) => Err(stopped(files, fault)),
        (None, Err(fault)) => Err(told(files, fault, reading.stage(Stage::Viewing(command)))),
        (None, Ok(())) => Ok(view),
    }
}

/// Writes out what was written so.
fn write_out<W: Write>(written: io::Result<()>, out: &mut W) -> Result<(), Complaint>
    ensures well { OnOk result (IsOk written) }
    ensures stays { Keeps (W.contents out.old) (W.contents out.new) }
    ensures failed { IfErr result IsOfWriter }
{
    match written {
        Ok(()) => written_out(out.flush()),
        Err(fault) => written_out(Err(fault)),
    }
}

/// Counts what the messages of a trace tell, and writes the rows that are asked for.
pub fn top<W: Write, H: Host>(
    files: &mut Files<'_>,
    choice: Option<&Choice>,
    ranking: Ranking,
    is_json: bool,
    watched: &mut Watched<'_, W, H>,
) -> Result<(), Complaint>
    ensures ended { ReadsTrace files.old.store files.new.store result
        (IsTop (asks_where choice.entry) ranking is_json
        (IsToldAt files.old.place files.new.store)
        files.old.place.base.now (reads_of files.old.store)
        (W.contents watched.old.writer.now)
        (W.contents watched.new.writer.now) result) }
    ensures status { IfErr result (λ complaint. status_told complaint ≡ 1) }
{
    let (alloc, host) = (files.alloc(), &mut *watched.host);
    let top = look_at(files, choice, Top::new(alloc), host, "top")?;
    match top.write(alloc, ranking, is_json, &mut *watched.writer) {
        Ok(written) => write_out(written, &mut *watched.writer),
        Err(fault) => Err(stopped(files, fault)),
    }
}

/// Reads a trace for the functions that tell their ends.
fn see_ends<H: Host>(
    files: &mut Files<'_>,
    choice: Option<&Choice>,
    host: &mut H,
) -> Result<EndsSeen, Complaint>
    ensures viewed { ReadsTrace files.old.store files.new.store result
        (IsViewed (asks_where choice.entry) [] ends_seen ends_failed
        (IsToldAt files.old.place files.new.store)
        files.old.place.base.now (reads_of files.old.store) result) }
    ensures goes_on { IfOk result (λ seen. seen.fault ≡ None) }
    ensures status { IfErr result (λ complaint. status_told complaint ≡ 1) }
    ensures place { OnOk result (files.new.place ≡ files.old.place) }
{
    let alloc = files.alloc();
    look_at(files, choice, EndsSeen::new(alloc), host, "export")
}

/// Counts the stacks of calls of a trace, and writes a line for each. A first reading finds the functions that tell their ends.
pub fn fold<W: Write, H: Host>(
    files: &mut Files<'_>,
    choice: Option<&Choice>,
    watched: &mut Watched<'_, W, H>,
) -> Result<(), Complaint>
    ensures ended { ReadsTwice files.old.store files.new.store result
        (IsFold (asks_where choice.entry) (IsToldAt files.old.place files.new.store)
        files.old.place.base.now (reads_of files.old.store)
        (W.contents watched.old.writer.now)
        (W.contents watched.new.writer.now) result) }
    ensures status { IfErr result (λ complaint. status_told complaint ≡ 1) }
{
    let (alloc, host) = (files.alloc(), &mut *watched.host);
    let seen = see_ends(files, choice, host)?;
    let folded = look_at(files, choice, Folded::new(alloc, seen), host, "export")?;
    write_out(folded.write(&mut *watched.writer), &mut *watched.writer)
}

/// Writes events for what the entries of a trace tell, after a first reading for the functions that tell their ends. Where no
/// time is told, standard error says how there are some.
pub fn draw<W: Write, H: Host>(
    files: &mut Files<'_>,
    choice: Option<&Choice>,
    watched: &mut Watched<'_, W, H>,
) -> Result<(), Complaint>
    ensures ended { ReadsTwice files.old.store files.new.store result
        (IsDrawn (asks_where choice.entry) (IsToldAt files.old.place files.new.store)
        files.old.place.base.now (reads_of files.old.store)
        (W.contents watched.new.writer.now) result) }
    ensures status { IfErr result (λ complaint. status_told complaint ≡ 1) }
{
    let (alloc, host) = (files.alloc(), &mut *watched.host);
    let seen = see_ends(files, choice, host)?;
    let view = Perfetto::new(alloc, &mut *watched.writer, seen);
    let mut drawn = look_at(files, choice, view, host, "export")?;
    let ended = drawn.end();
    drop(drawn);
    match ended {
        Ok(ending) => {
            files.tell_times(ending.has_times);
            write_out(watched.writer.write_all(&ending.text), &mut *watched.writer)
        }
        Err(fault) => Err(stopped(files, fault)),
    }
}
