//! Where entries begin in the input of an import, which is read ahead as far as that needs.
ghost use Rattle.std.specs.Prelude.{◌≡◌, ◌+◌, ◌<◌, ◌≤◌, ◌^◌, ◌++◌, ℕ, List, [], length, take, drop, Some, Ok, IfOk, IsOkAnd, IfErr, OnOk};
ghost use Rattle.std.specs.Fmt.{option_append};
ghost use Rattle.std.specs.Io.{ReadsAtMost, KnownBytes.Consumes, KnownBytes.Keeps, KnownBytes.IsAtEnd, Chain.chain_first, Chain.chain_second, Chain.chain_remaining, Cursor.cursor_inner, Cursor.cursor_remaining};
ghost use Rattle.command_line.specs.declared.request.Ending.TheVariants.{Seal};
ghost use Rattle.faults.specs.Complaints.{status_told};
ghost use Rattle.import.specs.Incoming.{longest_read};
ghost use Rattle.prepared_requests.specs.Ahead.{most, LooksAhead, BeginsImport, IsUnread, passing};

use crate::ahead_scan::{find, find_last};
use command_line::{Ending, Rules};
use faults::Complaint;
use script_runner::SimFault;
use std::alloc::AllocError;
use std::io::{Chain, Cursor, ErrorKind, Read};
use std::thread;
use std::time::Duration;

/// The most bytes that are read ahead.
const MOST: usize = 67_108_864;

/// The most bytes that are read at a time.
const LONGEST_READ: usize = 65_536;

/// Milliseconds between two reads of an input that has nothing to read yet.
const PAUSE: u64 = 10;

/// Why an input can't be read ahead.
#[derive(Clone, Copy)]
enum AheadFault {
    /// It couldn't be read.
    Read,
    /// The allocator refused memory.
    NoMemory,
}

impl From<AllocError> for AheadFault {
    fn from(_fault: AllocError) -> AheadFault {
        AheadFault::NoMemory
    }
}

/// The same fault, as it is told.
fn told(fault: AheadFault) -> Complaint
    ensures { IsUnread result }
{
    match fault {
        AheadFault::Read => Complaint::from(SimFault::Read),
        AheadFault::NoMemory => Complaint::from(SimFault::NoMemory),
    }
}

/// Reads once. What a signal interrupts is tried again at once, and what would have to wait after a pause.
fn read_once<I: Read>(
    rt: &HostRuntime,
    input: &mut I,
    slice: &mut [u8],
) -> Result<usize, AheadFault>
    ensures bound { ReadsAtMost result slice.new }
    ensures bytes { IfOk result (λ n. Consumes (I.remaining input.old) (I.remaining input.new)
        (take n slice.new)) }
    ensures end { IfOk result (λ n. n ≡ 0 → 0 < length slice.old
        → IsAtEnd (I.remaining input.new)) }
{
    for _try in 0..u64::MAX {
        match input.read(slice) {
            Ok(count) => return Ok(count),
            Err(error) => match error.kind() {
                ErrorKind::Interrupted => {}
                ErrorKind::WouldBlock => thread::sleep(rt, Duration::from_millis(PAUSE)),
                _ => return Err(AheadFault::Read),
            },
        }
    }
    Err(AheadFault::Read)
}

/// Reads once, behind some bytes, and answers how many came; 0 at the end.
fn read_behind<I: Read>(
    rt: &HostRuntime,
    input: &mut I,
    bytes: &mut Vec<u8>,
) -> Result<usize, AheadFault>
    ensures came { IfOk result (λ n. (chunk : List ℕ) × (length chunk ≡ n)
        × Consumes (I.remaining input.old) (I.remaining input.new) chunk
        × (bytes.new.items ≡ bytes.old.items ++ chunk)) }
    ensures most { IfOk result (λ n. n ≤ longest_read) }
    ensures end { IfOk result (λ n. n ≡ 0 → IsAtEnd (I.remaining input.new)) }
{
    let mut slice = [0; LONGEST_READ];
    let count = read_once(rt, input, &mut slice)?;
    bytes.extend_from_slice(&slice[..count])?;
    Ok(count)
}

/// The bytes behind the first `count`.
fn behind(bytes: &[u8], count: usize) -> &[u8]
    ensures { result.now ≡ drop count bytes.now }
{
    &bytes[count.min(bytes.len())..]
}

/// Reads a stream ahead until it is known where in it entries begin, past `start` bytes; and answers how many bytes past those
/// that is.
fn look_ahead<I: Read>(
    rt: &HostRuntime,
    start: usize,
    longest: u32,
    input: &mut I,
    bytes: &mut Vec<u8>,
) -> Result<usize, AheadFault>
    requires { bytes.old.items ≡ [] }
    ensures read { OnOk result (Consumes (I.remaining input.old) (I.remaining input.new)
        bytes.new.items) }
    ensures ahead { IfOk result (LooksAhead start longest (I.remaining input.new)
        bytes.new.items) }
{
    let mut passed = 0;
    'reads: while bytes.len() < MOST {
        let found = find(behind(bytes, start), passed, longest);
        if found.is_there {
            return Ok(found.place);
        }
        passed = found.place;
        if read_behind(rt, input, bytes)? == 0 {
            return Ok(find_last(behind(bytes, start), passed, longest));
        }
    }
    Ok(find_last(behind(bytes, start), passed, longest))
}

/// How many bytes more an import passes over than its rules say. What is read ahead for that is put into `bytes`.
fn passed_over<I: Read>(
    rt: &HostRuntime,
    rules: Rules,
    input: &mut I,
    bytes: &mut Vec<u8>,
) -> Result<u64, AheadFault>
    requires { bytes.old.items ≡ [] }
    ensures read { OnOk result (Consumes (I.remaining input.old) (I.remaining input.new)
        bytes.new.items) }
    ensures begins { IfOk result (λ place. BeginsImport rules (I.remaining input.new)
        bytes.new.items (passing place rules)) }
    ensures room { IfOk result (λ place. rules.skip + place < 2 ^ 64) }
    ensures sealed { rules.ending ≡ Seal → (result ≡ Ok 0) × (input.new ≡ input.old) }
{
    match rules.ending {
        Ending::Keep if rules.skip < MOST as u64 => {
            let start = rules.skip as usize;
            let place = look_ahead(rt, start, rules.longest, input, bytes)?;
            Ok(place as u64)
        }
        _ => Ok(0),
    }
}

/// Tells how many bytes an import passes over, where it does.
fn tell_passed(rt: &impl Eprint, count: u64) {
    let _ = match count {
        0 => Ok(()),
        1 => eprintln!(rt; "dbgrec: 1 byte of a message that began before is passed over"),
        _ => eprintln!(rt; "dbgrec: {count} bytes of a message that began before are passed over"),
    };
}

/// Begins an import: where its trace is to be kept open, its input is read ahead until it is known where in it entries begin.
/// The rules pass over what stands before that, and what was read ahead stands before the rest of the input.
pub fn begin_import<I: Read + Drop>(
    rt: &HostRuntime,
    rules: Rules,
    input: I,
) -> Result<(Rules, Chain<Cursor<Vec<u8>>, I>), Complaint>
    ensures bytes { IfOk result (λ r. Keeps (I.remaining input) (chain_remaining
        (cursor_remaining (λ v. Some v.items)) I.remaining r.1)) }
    ensures joined { IfOk result (λ r. chain_remaining (cursor_remaining (λ v. Some v.items))
        I.remaining r.1 ≡ option_append (Some (cursor_inner (chain_first r.1)).items)
        (I.remaining (chain_second r.1))) }
    ensures begins { IfOk result (λ r. BeginsImport rules (I.remaining (chain_second r.1))
        (cursor_inner (chain_first r.1)).items r.0) }
    ensures sealed { rules.ending ≡ Seal → IsOkAnd result (λ r. (r.0 ≡ rules)
        × (chain_second r.1 ≡ input)) }
    ensures unread { IfErr result IsUnread }
    ensures refused { IfErr result (λ complaint. status_told complaint ≡ 1) }
{
    let mut input = input;
    let mut bytes = Vec::new(rt.alloc());
    let place = match passed_over(rt, rules, &mut input, &mut bytes) {
        Ok(place) => place,
        Err(fault) => return Err(told(fault)),
    };
    tell_passed(rt, place);
    let rules = Rules {
        skip: rules.skip + place,
        ..rules
    };
    Ok((rules, Cursor::new(bytes).chain(input)))
}
