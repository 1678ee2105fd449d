//! The files of a trace, changed. Nothing here reaches a file but by the store that it has.
ghost use Rattle.std.specs.Prelude.{◌≡◌, ◌≢◌, ℕ, List, ◌+◌, ◌*◌, ◌≤◌, length, Err, IfOk, IfErr, IfSome, OnOk, true, false};
ghost use Rattle.std.specs.Io.KnownBytes.{Appends};
ghost use Rattle.segment.specs.Specification.{Spec};
ghost use Rattle.trace_port.specs.Limits.{greatest_limit};
ghost use Rattle.trace_store.specs.{Disk.Image, Moments.Rose, Moments.LeavesOnly, Device.device_of};
ghost use Rattle.stores.specs.FolderStore.{honest_of, reads_of, images_of, moments_of, clock_of, failures_of};
ghost use Rattle.recovery.specs.Stores.{readings, IsBlank};
ghost use Rattle.foreign_files.specs.{Clearing.AreCleared, Clearing.IsClearing, Clearing.HasNoForeign, Standing.IsStanding};
ghost use Rattle.foreign_files.specs.declared.standing.Standing.TheVariants as standings;
ghost use Rattle.trace_reader.specs.Wiping.{HasForeign, IsWhyNotWiped, IsNotToWipe};
ghost use Rattle.trace_reader.specs.declared.fault.WipeFault.TheVariants as wiping;
ghost use Rattle.script_runner.specs.{Faults.IsFaultOfDevice, Read.first_lines, PortOpenings.first_told, PortOpenings.FitsStore, PortOpenings.GoesOnOrBegins};
ghost use Rattle.faults.specs.Kept.{kept_told, fault_past};
ghost use Rattle.import.specs.{Incoming.Outside, Incoming.outside, Beginning.HasCome};
ghost use Rattle.commands.specs.{Commands.IsExplained, Naming.IsToldAt, Importing.WasFed};
ghost use Rattle.commands.specs.Openings.{wanted, most_to_begin, TellsFault, KeepsTrace, IsWhyNotOpened, OpensOn};
ghost use Rattle.commands.specs.Files.{CallsToEnd, CallsToLook, CallsToKeep, CallsToClear, CallsToTryClearing, OnlyLooks, MayFail, FolderReads, WasRecorded, IsCounted, IsCount};

use crate::counting::{count_kept, is_of_memory};
use crate::files::Files;
use crate::importing::{self, Fed};
use crate::opening::{find_own, open_store};
use crate::reading::apart_for;
use crate::stage::Stage;
use command_line::Rules;
use faults::{Complaint, Kept, fault_in_input};
use import::{Incoming, Source};
use recovery::look_over;
use script_runner::{Answer, Answers, AnyOpening, Origin, SimFault, record_script};
use std::alloc::AllocError;
use std::io::{BufRead, Write};
use stores::FolderStore;
use trace_lookup::RunEnd;
use trace_reader::{Clearing, Host, WipeFault, wipe_trace};
use trace_store::Store;

impl Files<'_> {
    /// Clears it. The mark of a sync that failed stays.
    pub fn clear(&mut self, clearing: Clearing) -> Result<(), WipeFault>
        ensures cleared { honest_of self.new.store
            → OnOk result (AreCleared (reads_of self.old.store) (reads_of self.new.store)) }
        ensures closed { honest_of self.new.store
            → OnOk result ((c : Image) → images_of self.new.store c → IsBlank (readings c)) }
        ensures none_foreign { honest_of self.new.store
            → OnOk result ((c : Image) → images_of self.new.store c → HasNoForeign c) }
        ensures there { honest_of self.new.store
            → OnOk result (IsNotToWipe clearing (reads_of self.old.store) → ⊥) }
        ensures why_not { honest_of self.new.store
            → IfErr result (λ fault. IsWhyNotWiped clearing fault (reads_of self.old.store)) }
        ensures untouched { honest_of self.new.store
            → IsNotToWipe clearing (reads_of self.old.store)
            → OnlyLooks self.old.store self.new.store }
        ensures any_moment { honest_of self.new.store
            → LeavesOnly clock_of moments_of self.old.store self.new.store
            (IsClearing (images_of self.old.store)) }
        ensures failed { result ≡ Err wiping.Device
            → Rose (failures_of self.old.store) (failures_of self.new.store) }
        ensures no_failure { OnOk result (failures_of self.new.store ≡ failures_of self.old.store) }
        ensures at_most { honest_of self.new.store
            → OnOk result (CallsToClear self.old.store self.new.store) }
        ensures most { CallsToTryClearing self.old.store self.new.store }
        ensures refused { IfErr result (λ fault. fault ≢ wiping.Device
            → CallsToLook self.old.store self.new.store) }
        ensures was_honest { honest_of self.new.store → honest_of self.old.store }
        ensures place { self.new.place ≡ self.old.place }
    {
        wipe_trace(&mut self.store, clearing)
    }

    /// Looks whether each of its files is one that a trace may leave, and answers whether one has a byte.
    pub fn check_own(&mut self) -> Result<bool, SimFault>
        ensures absent { honest_of self.new.store → IfOk result (λ is_there. is_there ≡ false
            → IsStanding standings.Absent (reads_of self.old.store)) }
        ensures ours { honest_of self.new.store
            → OnOk result (HasNoForeign (reads_of self.old.store)) }
        ensures why_not { honest_of self.new.store
            → IfErr result (λ fault. (spec : Spec)
            → IsWhyNotOpened spec fault (reads_of self.old.store)) }
        ensures device { FolderReads TellsFault self.old.store self.new.store result
            (clock_of self.new.store ≤ clock_of self.old.store
            + 2 * length (reads_of self.old.store)) }
        ensures place { self.new.place ≡ self.old.place }
    {
        find_own(&mut self.store)
    }

    /// Opens a port for it: goes on with the trace that is there, or begins one.
    pub fn open(&mut self, run_end: RunEnd) -> Result<(AnyOpening, Origin), SimFault>
        ensures suits { IfOk result (λ r. FitsStore ⟦<FolderStore as Store>⟧ r.0 self.new.store) }
        ensures opens { honest_of self.new.store
            → IfOk result (λ r. GoesOnOrBegins (reads_of self.old.store)
            (first_told r.0 (device_of ⟦<FolderStore as Store>⟧ self.new.store))
            (wanted self.old.place.kind run_end) greatest_limit r.1) }
        ensures ours { honest_of self.new.store
            → OnOk result (HasNoForeign (reads_of self.old.store)) }
        ensures why_not { honest_of self.new.store
            → IfErr result (λ fault. IsWhyNotOpened (wanted self.old.place.kind run_end) fault
            (reads_of self.old.store)) }
        ensures untouched { honest_of self.new.store → HasForeign (reads_of self.old.store)
            → OnlyLooks self.old.store self.new.store }
        ensures any_moment { honest_of self.new.store
            → KeepsTrace (device_of ⟦<FolderStore as Store>⟧ self.old.store)
            (device_of ⟦<FolderStore as Store>⟧ self.new.store) (wanted self.old.place.kind run_end) }
        ensures device { OpensOn ⟦<FolderStore as Store>⟧ IsFaultOfDevice self.old.store
            self.new.store result (2 * length (reads_of self.old.store)
            + most_to_begin (reads_of self.old.store)) }
        ensures place { self.new.place ≡ self.old.place }
    {
        open_store(self.alloc(), &mut self.store, self.place.kind, run_end)
    }

    /// Records what a script says.
    pub fn record<R: BufRead, W: Write>(
        &mut self,
        opened: AnyOpening,
        origin: Origin,
        reader: &mut R,
        writer: &mut W,
    ) -> Result<(), SimFault>
        requires { FitsStore ⟦<FolderStore as Store>⟧ opened self.old.store }
        ensures { WasRecorded opened origin self.old.store self.new.store (R.remaining reader.old)
            (R.remaining reader.new) result (W.contents writer.old) (W.contents writer.new) }
    {
        let (alloc, store) = (self.alloc(), &mut self.store);
        let left = record_script(alloc, store, opened, origin, reader, &mut *writer)?;
        match left {
            Some(_) => Answers::at_once(writer).tell(Answer::Done),
            None => Ok(()),
        }
    }

    /// Records an entry stream, whose first bytes have come.
    pub fn import<I: Source, W: Write, H: Host>(
        &mut self,
        opened: AnyOpening,
        origin: Origin,
        rules: Rules,
        incoming: &mut Incoming,
        source: &mut I,
        writer: &mut W,
        host: &mut H,
    ) -> Fed
        requires fits { FitsStore ⟦<FolderStore as Store>⟧ opened self.old.store }
        requires longest { incoming.old.longest ≡ rules.longest }
        ensures before { result.before ≡ (first_told opened
            (device_of ⟦<FolderStore as Store>⟧ self.old.store)).total }
        ensures was_fed { (was : Outside) (chunk : List ℕ)
            → HasCome was (outside (I.remaining source.old) (I.reads source.old)
            (H.observed host.old)) incoming.old chunk → (come : List ℕ)
            × WasFed opened origin rules self.old.store self.new.store was
            (outside (I.remaining source.new) (I.reads source.new) (H.observed host.new)) come
            incoming.new result.done (λ text. Appends (W.contents writer.old)
            (W.contents writer.new) text) }
        ensures place { self.new.place ≡ self.old.place }
    {
        importing::import(
            &mut self.store,
            opened,
            origin,
            rules,
            incoming,
            source,
            writer,
            host,
        )
    }

    /// How much an import kept of its input, so many bytes of which it passed over first, where that is known.
    fn kept(
        &mut self,
        before: u64,
        skipped: u64,
        incoming: &Incoming,
    ) -> Result<Option<Kept>, AllocError>
        ensures only_reads { OnlyLooks self.old.store self.new.store }
        ensures failures { MayFail (failures_of self.old.store) (failures_of self.new.store) }
        ensures at_most { CallsToKeep self.old.store self.new.store }
        ensures counted { honest_of self.new.store
            → IfOk result (IsCount skipped before incoming.now (reads_of self.old.store)
            (Rose (failures_of self.old.store) (failures_of self.new.store))) }
    {
        match look_over(self.alloc(), &mut self.store) {
            Ok(found) => Ok(count_kept(found.total, before, skipped, incoming)),
            Err(fault) if is_of_memory(fault) => Err(AllocError),
            Err(_) => Ok(None),
        }
    }

    /// What is told of an import that ended, with how much it kept where that says how it goes on.
    fn ended(
        &mut self,
        fault: SimFault,
        before: u64,
        skipped: u64,
        incoming: &Incoming,
    ) -> Complaint
        ensures told { IsToldAt self.old.place self.old.store (fault_past skipped fault) result }
        ensures only_reads { OnlyLooks self.old.store self.new.store }
        ensures failures { MayFail (failures_of self.old.store) (failures_of self.new.store) }
        ensures at_most { CallsToEnd self.old.store self.new.store }
        ensures counted { honest_of self.new.store
            → IfSome (kept_told result) (IsCounted skipped before incoming.now
            (reads_of self.old.store)) }
    {
        let apart = apart_for(self.alloc(), &mut self.store, Some(&fault));
        let fault = fault_in_input(fault, skipped);
        let complaint = self.told_at_least(fault, Stage::Importing, apart);
        let kept = if complaint.is_of_going_on() {
            self.kept(before, skipped, incoming).unwrap_or(None)
        } else {
            None
        };
        complaint.with_kept(kept)
    }

    /// What is told of an import, so many bytes of whose input it passed over first. Where a device call failed that this
    /// doesn't name, standard error names its file.
    pub fn import_told(
        &mut self,
        fed: Fed,
        skipped: u64,
        incoming: &Incoming,
    ) -> Result<(), Complaint>
        ensures explained { IsExplained (IsToldAt self.old.place self.old.store) skipped fed.done
            result }
        ensures well { OnOk fed.done (self.new.store ≡ self.old.store) }
        ensures only_reads { OnlyLooks self.old.store self.new.store }
        ensures failures { MayFail (failures_of self.old.store) (failures_of self.new.store) }
        ensures at_most { CallsToEnd self.old.store self.new.store }
        ensures counted { honest_of self.new.store
            → IfErr result (λ complaint. IfSome (kept_told complaint)
            (IsCounted skipped fed.before incoming.now (reads_of self.old.store))) }
    {
        let Fed { before, done } = fed;
        match done {
            Ok(()) => {
                let _none = apart_for(self.alloc(), &mut self.store, None);
                self.tell_device();
                Ok(())
            }
            Err(fault) => {
                let complaint = self.ended(fault, before, skipped, incoming);
                if !complaint.names_file() {
                    self.tell_device();
                }
                Err(complaint)
            }
        }
    }
}
