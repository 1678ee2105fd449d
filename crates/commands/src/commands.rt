//! What a command line asks for, done: each request by the command of its name.
ghost use Rattle.std.specs.Prelude.{◌≡◌, ◌⊎◌, ℕ, Option, List, Result, Ok, OnOk, OnErr, IsErr, IfErr, IfSome};
ghost use Rattle.std.specs.Io.KnownBytes.{Appends};
ghost use Rattle.trace_store.specs.Moments.{LeavesOnly};
ghost use Rattle.stores.specs.FolderStore.{honest_of, reads_of, images_of, moments_of, clock_of};
ghost use Rattle.trace_text.specs.Chooses.{asks_where};
ghost use Rattle.trace_client.specs.{Output.AppendsPrefix, Streams.IsListed};
ghost use Rattle.foreign_files.specs.Clearing.{IsClearing, HasNoForeign};
ghost use Rattle.trace_listings.specs.{WritesOut.form_of};
ghost use Rattle.trace_reader.specs.{Wiping.IsNotToWipe};
ghost use Rattle.commands.specs.Commands.{clearing_of, wording_of, notation_of, asks_shown, IsStyleOf, EndsStream, IsRead, IsOfMark, Clears, Records, Feeds, Serves};
ghost use Rattle.commands.specs.{Live.ReadsTrace, Files.OnlyLooks, Files.LooksWell, Telling.IsOfWriter, Naming.IsToldAt};
ghost use Rattle.stores.specs.declared.folder_store.FolderStore.{FolderStore};
ghost use Rattle.import.specs.{Incoming.Outside, Incoming.outside, Beginning.Begins};
ghost use Rattle.commands.specs.Openings.{wanted};
ghost use Rattle.trace_lookup.specs.Places.{run_end_of};
ghost use Rattle.script_runner.specs.Texts.{line_of};
ghost use Rattle.script_runner.specs.declared.answer.Answer.TheVariants.{Done};

use crate::files::Files;
use crate::importing::{check_begun, fault_of_import};
use crate::informing::info;
use crate::live::read_live;
use crate::salvaging::salvage;
use crate::stage::Stage;
use crate::viewing::{draw, fold, top};
use command_line::{Rules, Shown, TraceRequest, Wanted};
use faults::{Complaint, fault_of_reading, told};
use import::{Incoming, Source, Stream, begin};
use script_runner::{Answer, Answers, SimFault};
use std::alloc::Global;
use std::io::{self, BufReader, Read, Write};
use trace_client::StreamStyle;
use trace_listings::{OutputForm, Watched, run_stream};
use trace_lookup::RunEnd;
use trace_reader::{Clearing, Host};
use trace_text::{Choice, Notation, Style, Wording};

/// What is read at a time, in bytes.
const BUFFER: usize = 65_536;

/// Lists an entry stream.
pub fn serve_stream<R: Read + Drop, W: Write>(
    alloc: Global,
    style: StreamStyle<'_>,
    input: R,
    output: &mut W,
) -> Result<(), Complaint>
    ensures listed { OnOk result (IfSome (R.remaining input) (λ bytes. (text : List ℕ)
        × IsListed style.entry bytes (Ok tt) text
        × Appends (W.contents output.old) (W.contents output.new) text)) }
    ensures stopped { IfErr result (EndsStream style.entry (R.remaining input)
        (W.contents output.old) (W.contents output.new)) }
{
    let Ok(mut reader) = BufReader::with_capacity(alloc, BUFFER, input) else {
        return Err(Complaint::from(SimFault::NoMemory));
    };
    let done = run_stream(alloc, style, &mut reader, output);
    drop(reader);
    match done {
        Ok(()) => Ok(()),
        Err(fault) => Err(Complaint::of_stream(SimFault::from(fault))),
    }
}

/// Does with a trace what the command line asks. The input is what comes in, and what is watched has what is written.
pub fn serve_trace<R: Read + Drop, W: Write, H: Host>(
    request: TraceRequest<'_>,
    shown: &Shown,
    files: &mut Files<'_>,
    input: R,
    watched: &mut Watched<'_, W, H>,
) -> Result<(), Complaint>
    ensures { Serves request.entry shown.now files.old files.new
        (outside (R.remaining input) 0 (H.observed watched.old.host.now))
        (H.observed watched.new.host.now) (W.contents watched.old.writer.now)
        (W.contents watched.new.writer.now) result }
{
    match request {
        TraceRequest::Record(wanted) => record(files, &wanted, input, watched),
        TraceRequest::Import { wanted, rules } => import(files, &wanted, rules, input, watched),
        TraceRequest::List {
            asked: _,
            is_pretty,
        } => read_trace(files, OutputForm::Lines(style(is_pretty, shown)), watched),
        TraceRequest::Export(_) => read_trace(files, OutputForm::Stream(chosen(shown)), watched),
        TraceRequest::Fold(_) => fold(files, chosen(shown), watched),
        TraceRequest::Draw(_) => draw(files, chosen(shown), watched),
        TraceRequest::Salvage { asked: _, form } => salvage(files, form, shown, watched),
        TraceRequest::Info { asked: _, is_json } => info(files, is_json, watched),
        TraceRequest::Top {
            asked: _,
            ranking,
            is_json,
        } => top(files, chosen(shown), ranking, is_json, watched),
        TraceRequest::Wipe {
            asked: _,
            is_forced,
        } => { wipe(files, clearing(is_forced), watched) }
    }
}

fn wording(is_pretty: bool) -> Wording
    ensures { result ≡ wording_of is_pretty }
{
    if is_pretty {
        Wording::Pretty
    } else {
        Wording::Plain
    }
}

fn notation(is_json: bool) -> Notation
    ensures { result ≡ notation_of is_json }
{
    if is_json {
        Notation::Json
    } else {
        Notation::Text
    }
}

/// The choice of the entries that are asked for, where there is one.
pub fn chosen(shown: &Shown) -> Option<&Choice>
    ensures { asks_where result ≡ asks_shown shown.now }
{
    shown.choice.as_ref()
}

/// The style in which messages are told so, and the entries are listed that are asked for, by lines or by objects.
pub fn style(is_pretty: bool, shown: &Shown) -> Style<'_>
    ensures { IsStyleOf is_pretty shown.now result }
{
    Style {
        wording: wording(is_pretty),
        notation: notation(shown.is_json),
        choice: chosen(shown),
    }
}

fn clearing(is_forced: bool) -> Clearing
    ensures { result ≡ clearing_of is_forced }
{
    if is_forced {
        Clearing::Any
    } else {
        Clearing::Own
    }
}

/// What came of writing out, as it is told.
pub fn written_out(flushed: io::Result<()>) -> Result<(), Complaint>
    ensures well { OnOk flushed (result ≡ Ok tt) }
    ensures failed { IsErr flushed → IsErr result }
    ensures err { IfErr result IsOfWriter }
{
    match flushed {
        Ok(()) => Ok(()),
        Err(_) => Err(Complaint::from(SimFault::Write)),
    }
}

/// What was done when it came that a trace isn't written out so.
fn stage<W: Write, H: Host>(output_form: OutputForm<'_>, watched: &Watched<'_, W, H>) -> Stage {
    match output_form {
        OutputForm::Lines(_) => Stage::Listing {
            entries: watched.entries(),
            shown: watched.shown(),
        },
        OutputForm::Stream(_) => Stage::Exporting(watched.entries()),
    }
}

/// Lists a trace, or writes it as an entry stream.
fn read_trace<W: Write, H: Host>(
    files: &mut Files<'_>,
    output_form: OutputForm<'_>,
    watched: &mut Watched<'_, W, H>,
) -> Result<(), Complaint>
    ensures read { ReadsTrace files.old.store files.new.store result
        (IsRead (form_of output_form.entry) (IsToldAt files.old.place files.new.store)
        (reads_of files.old.store) (W.contents watched.old.writer.now)
        (W.contents watched.new.writer.now) result) }
    ensures place { files.new.place ≡ files.old.place }
{
    let reading = read_live(files, output_form, watched);
    let flushed = watched.flush();
    watched.host.clear();
    match reading.done {
        Ok(()) => written_out(flushed),
        Err(fault) => {
            let stage = reading.stage(stage(output_form, watched));
            Err(files.explained(fault_of_reading(fault), stage))
        }
    }
}

/// Tells that a trace is cleared, once its mark is removed.
fn tell_cleared<W: Write>(removed: Result<(), Complaint>, output: &mut W) -> Result<(), Complaint>
    requires { IfErr removed IsOfMark }
    ensures ok { OnOk result (Appends (W.contents output.old) (W.contents output.new)
        (line_of Done)) }
    ensures cut { OnErr result (AppendsPrefix (W.contents output.old) (W.contents output.new)
        (line_of Done)) }
    ensures stays { IsErr removed → (result ≡ removed) × (output.new ≡ output.old) }
    ensures err { IfErr result (λ complaint. IsOfWriter complaint ⊎ IsOfMark complaint) }
{
    match removed {
        Ok(()) => match Answers::at_once(output).tell(Answer::Done) {
            Ok(()) => Ok(()),
            Err(fault) => Err(Complaint::from(fault)),
        },
        Err(complaint) => Err(complaint),
    }
}

/// Clears a trace, and the mark of a sync that failed.
fn wipe<W: Write, H: Host>(
    files: &mut Files<'_>,
    clearing: Clearing,
    watched: &mut Watched<'_, W, H>,
) -> Result<(), Complaint>
    ensures clears { honest_of files.new.store
        → Clears clearing files.old.place files.old.store files.new.store
        (W.contents watched.old.writer.now) (W.contents watched.new.writer.now) result }
    ensures untouched { honest_of files.new.store → IsNotToWipe clearing (reads_of files.old.store)
        → OnlyLooks files.old.store files.new.store }
    ensures any_moment { honest_of files.new.store
        → LeavesOnly clock_of moments_of files.old.store files.new.store
        (IsClearing (images_of files.old.store)) }
{
    match files.clear(clearing) {
        Ok(()) => tell_cleared(files.remove_mark(), &mut *watched.writer),
        Err(fault) => Err(files.not_cleared(fault)),
    }
}

/// Records what a script says. Where a device call failed, standard error names its file.
fn record<R: Read + Drop, W: Write, H: Host>(
    files: &mut Files<'_>,
    asked: &Wanted<'_>,
    input: R,
    watched: &mut Watched<'_, W, H>,
) -> Result<(), Complaint>
    ensures { Records files.old.place (wanted files.old.place.kind (run_end_of asked.now))
        files.old.store files.new.store (R.remaining input) (W.contents watched.old.writer.now)
        (W.contents watched.new.writer.now) result }
{
    let Ok(mut reader) = BufReader::with_capacity(files.alloc(), BUFFER, input) else {
        return Err(Complaint::from(SimFault::NoMemory));
    };
    match files.open(RunEnd::of(asked)) {
        Ok((opened, origin)) => {
            files.tell_own(asked, origin);
            let done = files.record(opened, origin, &mut reader, &mut *watched.writer);
            files.tell_device();
            told(done)
        }
        Err(fault) => Err(files.explained(fault, Stage::Opening)),
    }
}

/// Records an entry stream, from its first byte on. Where none comes, or a file isn't a trace's, nothing is done; nor where no
/// entry begins it, and no trace is there.
fn import<R: Read + Drop, W: Write, H: Host>(
    files: &mut Files<'_>,
    asked: &Wanted<'_>,
    rules: Rules,
    input: R,
    watched: &mut Watched<'_, W, H>,
) -> Result<(), Complaint>
    ensures { Feeds files.old.place (wanted files.old.place.kind (run_end_of asked.now)) rules
        files.old.store files.new.store
        (outside (R.remaining input) 0 (H.observed watched.old.host.now))
        (H.observed watched.new.host.now) (W.contents watched.old.writer.now)
        (W.contents watched.new.writer.now) result }
{
    let is_there = match files.check_own() {
        Ok(is_there) => is_there,
        Err(fault) => return Err(files.explained(fault, Stage::Opening)),
    };
    let mut stream = Stream::over(input);
    match begin(
        files.alloc(),
        rules.skip,
        rules.longest,
        &mut stream,
        &mut *watched.host,
    ) {
        Ok(Some(mut incoming)) => {
            check_begun(is_there, &incoming, rules.skip)?;
            feed(files, asked, rules, &mut incoming, &mut stream, watched)
        }
        Ok(None) => {
            files.tell_nothing_came(rules.ending);
            Ok(())
        }
        Err(fault) => Err(files.explained(fault_of_import(fault), Stage::Opening)),
    }
}

/// Opens a port for a trace, and puts a stream into it, whose first bytes have come. Where a device call failed that its
/// fault doesn't name, standard error names its file.
fn feed<I: Source, W: Write, H: Host>(
    files: &mut Files<'_>,
    asked: &Wanted<'_>,
    rules: Rules,
    incoming: &mut Incoming,
    stream: &mut I,
    watched: &mut Watched<'_, W, H>,
) -> Result<(), Complaint>
    requires { incoming.old.longest ≡ rules.longest }
    ensures { (first : FolderStore) (saw : Outside) → LooksWell first files.old.store
        → (honest_of files.old.store → HasNoForeign (reads_of first))
        → Begins rules.skip rules.longest saw
        (outside (I.remaining stream.old) (I.reads stream.old) (H.observed watched.old.host.now))
        incoming.old → Feeds files.old.place
        (wanted files.old.place.kind (run_end_of asked.now)) rules first files.new.store saw
        (H.observed watched.new.host.now) (W.contents watched.old.writer.now)
        (W.contents watched.new.writer.now) result }
{
    match files.open(RunEnd::of(asked)) {
        Ok((opened, origin)) => {
            files.tell_own(asked, origin);
            let (writer, host) = (&mut *watched.writer, &mut *watched.host);
            let done = files.import(opened, origin, rules, incoming, stream, writer, host);
            watched.host.clear();
            files.tell_too_long(rules.longest, incoming.too_long());
            files.import_told(done, rules.skip, incoming)
        }
        Err(fault) => Err(files.explained(fault, Stage::Opening)),
    }
}
