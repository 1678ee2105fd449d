//! An import into the real files of a trace, and what it tells.
ghost use Rattle.std.specs.Prelude.{◌≡◌, ℕ, List, OnOk, OnErr, IfErr, false};
ghost use Rattle.std.specs.Io.KnownBytes.{Appends};
ghost use Rattle.trace_store.specs.Device.{device_of};
ghost use Rattle.trace_client.specs.Output.{AppendsPrefix};
ghost use Rattle.script_runner.specs.PortOpenings.{first_told, FitsStore};
ghost use Rattle.script_runner.specs.declared.fault.SimFault.TheVariants as faults;
ghost use Rattle.import.specs.{Incoming.Outside, Incoming.outside, Parts.IsPart, Beginning.HasCome};
ghost use Rattle.commands.specs.Importing.{import_fault, import_done, closed_text, IsNoStream, WasPut, WasFed};

use command_line::Rules;
use faults::{Complaint, fault_in_input};
use import::{Closed, ImportFault, Imported, Incoming, Plan, Source, import_file, import_wrap};
use script_runner::{Answer, Answers, AnyOpening, Origin, Refusal, SimFault};
use std::io::Write;
use stores::FolderStore;
use trace_reader::Host;
use trace_store::Store;

/// What came of an import.
#[derive(Drop)]
pub struct Fed {
    /// How many entries the trace had before it.
    pub before: u64,
    pub done: Result<(), SimFault>,
}

/// The same fault, as a run has it.
pub fn fault_of_import(fault: ImportFault) -> SimFault
    ensures { result ≡ import_fault fault }
{
    match fault {
        ImportFault::Read => SimFault::Read,
        ImportFault::NoMemory => SimFault::NoMemory,
        ImportFault::Truncated { place } => SimFault::Truncated { place },
        ImportFault::BadOp { place } => SimFault::BadOp { place },
        ImportFault::ZeroDrop { place } => SimFault::ZeroDrop { place },
        ImportFault::BadMessage { place } => SimFault::BadMessage { place },
        ImportFault::Refused(refusal) => SimFault::Refused(Refusal::Port(refusal)),
    }
}

/// Ok where a trace is there, or an entry may begin what has come first; else what is told where no trace is made of it, so many
/// bytes of whose input were passed over before.
pub fn check_begun(is_there: bool, incoming: &Incoming, skipped: u64) -> Result<(), Complaint>
    ensures absent { IfErr result (λ _complaint. is_there ≡ false) }
    ensures told { IfErr result (λ complaint. (part : List ℕ) → IsPart incoming.now part
        → IsNoStream skipped incoming.now.longest incoming.now.place part complaint) }
{
    if is_there {
        return Ok(());
    }
    match incoming.check_front() {
        Ok(()) => Ok(()),
        Err(fault) => {
            let told = fault_in_input(fault_of_import(fault), skipped);
            Err(Complaint::of_stream(told))
        }
    }
}

/// How an import ended, as a run has it.
fn run_done(done: Result<(), ImportFault>) -> Result<(), SimFault>
    ensures { result ≡ import_done done }
{
    match done {
        Ok(()) => Ok(()),
        Err(fault) => Err(fault_of_import(fault)),
    }
}

/// Puts a stream into a port over an opening, closes the port and drops it.
fn put_stream<I: Source, H: Host>(
    store: &mut FolderStore,
    opened: AnyOpening,
    rules: Rules,
    incoming: &mut Incoming,
    source: &mut I,
    host: &mut H,
) -> Imported
    requires fits { FitsStore ⟦<FolderStore as Store>⟧ opened store.old }
    requires longest { incoming.old.longest ≡ rules.longest }
    ensures { (was : Outside) (chunk : List ℕ)
        → HasCome was (outside (I.remaining source.old) (I.reads source.old) (H.observed host.old))
        incoming.old chunk → (come : List ℕ)
        × WasPut opened rules store.old store.new was
        (outside (I.remaining source.new) (I.reads source.new) (H.observed host.new)) come
        incoming.new result }
{
    let plan = Plan {
        flushing: rules.flushing,
        ending: rules.ending,
    };
    match opened {
        AnyOpening::File(opening) => import_file(store, opening, plan, incoming, source, host),
        AnyOpening::Wrap(opening) => import_wrap(store, opening, plan, incoming, source, host),
    }
}

/// Tells what became of a trace; nothing where it was left as it is.
fn tell_closed<W: Write>(imported: &Imported, answers: &mut Answers<'_, W>) -> Result<(), SimFault>
    ensures name { answers.new.writer.ghost_name ≡ answers.old.writer.ghost_name }
    ensures text { OnOk result (Appends (W.contents answers.old.writer.now)
        (W.contents answers.new.writer.now) (closed_text imported.now.closed imported.now.total)) }
    ensures cut { OnErr result (AppendsPrefix (W.contents answers.old.writer.now)
        (W.contents answers.new.writer.now) (closed_text imported.now.closed imported.now.total)) }
    ensures fault { IfErr result (λ fault. fault ≡ faults.Write) }
{
    match imported.closed {
        Closed::Sealed => answers.tell(Answer::SealedAt(imported.total)),
        Closed::Kept => answers.tell(Answer::KeptAt(imported.total)),
        Closed::Left => Ok(()),
    }
}

/// Records an entry stream, whose first bytes have come, and tells how the trace was opened and what became of it. A
/// writer that fails ends nothing before the stream's end, and is answered before the stream's fault.
pub fn import<I: Source, W: Write, H: Host>(
    store: &mut FolderStore,
    opened: AnyOpening,
    origin: Origin,
    rules: Rules,
    incoming: &mut Incoming,
    source: &mut I,
    writer: &mut W,
    host: &mut H,
) -> Fed
    requires fits { FitsStore ⟦<FolderStore as Store>⟧ opened store.old }
    requires longest { incoming.old.longest ≡ rules.longest }
    ensures before { result.before ≡ (first_told opened
        (device_of ⟦<FolderStore as Store>⟧ store.old)).total }
    ensures was_fed { (was : Outside) (chunk : List ℕ)
        → HasCome was (outside (I.remaining source.old) (I.reads source.old) (H.observed host.old))
        incoming.old chunk → (come : List ℕ)
        × WasFed opened origin rules store.old store.new was
        (outside (I.remaining source.new) (I.reads source.new) (H.observed host.new)) come
        incoming.new result.done (λ text. Appends (W.contents writer.old)
        (W.contents writer.new) text) }
{
    let before = opened.total();
    let mut answers = Answers::at_once(writer);
    let greeted = answers.tell(Answer::opened(origin, before));
    let imported = put_stream(store, opened, rules, incoming, source, host);
    let told = tell_closed(&imported, &mut answers);
    let done = run_done(imported.done);
    Fed {
        before,
        done: greeted.and(told).and(done),
    }
}
