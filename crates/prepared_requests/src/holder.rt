//! The processes that had registered names, and what a choice asks for by these.

ghost use Rattle.std.specs.Prelude.{◌≡◌, ◌∷◌, ◌++◌, [], map, string_bytes, IfOk, OnOk, Some};
ghost use Rattle.std.specs.List.{flat_map, list_any};
ghost use Rattle.std.specs.Str.{bytes_eq, Lossy.utf8_lossy};
ghost use Rattle.trace_text.specs.Choosing.{asked_of, asks_of, is_text};
ghost use Rattle.trace_text.specs.MessageFacts.{as_told};
ghost use Rattle.prepared_requests.specs.Names.{Holding, choice_meant, filter_meant, holding_of, holding_told, is_asked, is_name, is_same, meant_by, name_in, names_in, or_itself, process_of, processes_of, with_holding, with_one};

use std::alloc::{AllocError, Global};
use trace_text::{Choice, Filter, MessageFacts};

/// No name has so many bytes.
const LONGEST: usize = 4_096;

/// A process that was registered under a name, by their texts.
#[derive(Drop)]
pub struct Holder {
    name: Vec<u8>,
    process: String,
}

impl Holder {
    /// Whether it is this process, and had this name.
    fn is(&self, name: &[u8], process: &str) -> bool
        ensures { result ≡ is_same (record { name = name.now; process = process.now })
            (holding_of self.now) }
    {
        self.name.as_slice() == name && self.process.as_str() == process
    }
}

/// Whether a text that names processes is a registered name, and not the numbers of a process or of a port.
pub fn is_name(text: &str) -> bool
    ensures { result ≡ is_name text.now }
{
    text.len() < LONGEST
        && text
            .bytes()
            .fold(true, |is, byte| byte == b'\'' || is && byte != b'.')
}

/// Whether `shown` is `asked` between single quotes.
fn is_quoted(asked: &[u8], shown: &[u8]) -> bool
    ensures { result ≡ bytes_eq shown.now (39 ∷ (asked.now ++ 39 ∷ [])) }
{
    let Some((first, rest)) = shown.split_first() else {
        return false;
    };
    let Some((last, middle)) = rest.split_last() else {
        return false;
    };
    *first == b'\'' && (middle == asked && *last == b'\'')
}

/// Whether a name that a listing shows so is the one that is asked for.
fn is_text(asked: &[u8], shown: &[u8]) -> bool
    ensures { result ≡ is_text 39 39 asked.now shown.now }
{
    shown == asked || is_quoted(asked, shown)
}

/// Whether it is any of those that are asked for.
fn is_asked(asked: &[String], name: &[u8]) -> bool
    ensures { result ≡ is_asked (map string_bytes asked.now) name.now }
{
    asked.iter().any(|text| is_text(text.as_bytes(), name))
}

/// Whether a process is known to have had a name.
fn is_known(holders: &[Holder], name: &[u8], process: &str) -> bool
    ensures { result ≡ list_any (is_same (record { name = name.now; process = process.now }))
        (map holding_of holders.now) }
{
    holders.iter().any(|holder| holder.is(name, process))
}

/// Notes that a process had a name.
fn note(
    alloc: Global,
    holders: &mut Vec<Holder>,
    name: &[u8],
    process: &[u8],
) -> Result<(), AllocError>
    ensures { OnOk result (map holding_of holders.new.items
        ≡ with_one (map holding_of holders.old.items)
        (record { name = name.now; process = utf8_lossy process.now })) }
{
    let process = String::from_utf8_lossy(alloc, process)?;
    if is_known(holders, name, process.as_str()) {
        return Ok(());
    }
    let name = Vec::from_slice(alloc, name)?;
    Ok(holders.push(Holder { name, process })?)
}

/// Notes what a message tells of a name that is asked for.
pub fn note_registered(
    alloc: Global,
    asked: &[String],
    holders: &mut Vec<Holder>,
    facts: &MessageFacts<'_>,
) -> Result<(), AllocError>
    ensures { OnOk result (map holding_of holders.new.items
        ≡ with_holding (map holding_of holders.old.items)
        (holding_told (map string_bytes asked.now) (Some (as_told facts.now)))) }
{
    if facts.kind != "register" {
        return Ok(());
    }
    match (facts.name, facts.tracee) {
        (Some(name), Some(process)) if is_asked(asked, name) => note(alloc, holders, name, process),
        _ => Ok(()),
    }
}

/// Adds a text.
fn put(texts: &mut Vec<String>, text: &String) -> Result<(), AllocError>
    ensures { OnOk result (map string_bytes texts.new.items
        ≡ map string_bytes texts.old.items ++ string_bytes text.now ∷ []) }
{
    Ok(texts.push(text.clone()?)?)
}

/// Adds a text that is a name.
fn put_name(names: &mut Vec<String>, text: &String) -> Result<(), AllocError>
    ensures { OnOk result (map string_bytes names.new.items
        ≡ map string_bytes names.old.items ++ name_in (string_bytes text.now)) }
{
    if is_name(text.as_str()) {
        put(names, text)
    } else {
        Ok(())
    }
}

/// Adds those of the texts that are names.
#[tactic(auto, using(crate::proofs::NamesLemmas::one_more))]
fn put_names(names: &mut Vec<String>, texts: &[String]) -> Result<(), AllocError>
    ensures { OnOk result (map string_bytes names.new.items
        ≡ map string_bytes names.old.items ++ flat_map name_in (map string_bytes texts.now)) }
{
    for text in texts {
        put_name(names, text)?;
    }
    Ok(())
}

/// The registered names that a choice has.
pub fn names_in(alloc: Global, choice: &Choice) -> Result<Vec<String>, AllocError>
    ensures { IfOk result (λ names. map string_bytes names.items ≡ names_in (asks_of choice.now)) }
{
    let mut names = Vec::new(alloc);
    put_names(&mut names, &choice.only.pids)?;
    put_names(&mut names, &choice.not.pids)?;
    Ok(names)
}

/// Adds a process that had a name.
fn put_process(processes: &mut Vec<String>, name: &str, holder: &Holder) -> Result<(), AllocError>
    ensures { OnOk result (map string_bytes processes.new.items
        ≡ map string_bytes processes.old.items
        ++ process_of name.now (holding_of holder.now)) }
{
    if is_text(name.as_bytes(), &holder.name) {
        put(processes, &holder.process)
    } else {
        Ok(())
    }
}

/// Adds the processes that had a name.
#[tactic(auto, using(crate::proofs::NamesLemmas::one_more))]
fn put_processes(
    processes: &mut Vec<String>,
    name: &str,
    holders: &[Holder],
) -> Result<(), AllocError>
    ensures { OnOk result (map string_bytes processes.new.items
        ≡ map string_bytes processes.old.items
        ++ processes_of (map holding_of holders.now) name.now) }
{
    for holder in holders {
        put_process(processes, name, holder)?;
    }
    Ok(())
}

/// Adds the processes that had a name, or that name where none had it.
#[tactic(auto, using(crate::proofs::NamesLemmas::nobody, crate::proofs::NamesLemmas::somebody))]
fn put_named(
    processes: &mut Vec<String>,
    name: &String,
    holders: &[Holder],
) -> Result<(), AllocError>
    ensures { OnOk result (map string_bytes processes.new.items
        ≡ map string_bytes processes.old.items ++ or_itself (string_bytes name.now)
        (processes_of (map holding_of holders.now) (string_bytes name.now))) }
{
    let count = processes.len();
    put_processes(processes, name.as_str(), holders)?;
    if processes.len() == count {
        put(processes, name)
    } else {
        Ok(())
    }
}

/// Adds what a text means.
fn put_meant(
    processes: &mut Vec<String>,
    text: &String,
    holders: &[Holder],
) -> Result<(), AllocError>
    ensures { OnOk result (map string_bytes processes.new.items
        ≡ map string_bytes processes.old.items
        ++ meant_by (map holding_of holders.now) (string_bytes text.now)) }
{
    if is_name(text.as_str()) {
        put_named(processes, text, holders)
    } else {
        put(processes, text)
    }
}

/// What texts mean.
#[tactic(auto, using(crate::proofs::NamesLemmas::one_more))]
fn meant_by(alloc: Global, texts: &[String], holders: &[Holder]) -> Result<Vec<String>, AllocError>
    ensures { IfOk result (λ processes. map string_bytes processes.items
        ≡ flat_map (meant_by (map holding_of holders.now)) (map string_bytes texts.now)) }
{
    let mut processes = Vec::new(alloc);
    for text in texts {
        put_meant(&mut processes, text, holders)?;
    }
    Ok(processes)
}

/// Puts what is meant in the place of the processes that are named.
fn name_in_filter(alloc: Global, filter: &mut Filter, holders: &[Holder]) -> Result<(), AllocError>
    ensures { OnOk result (asked_of filter.new
        ≡ filter_meant (map holding_of holders.now) (asked_of filter.old)) }
{
    filter.pids = meant_by(alloc, &filter.pids, holders)?;
    Ok(())
}

/// Puts the processes that had them in the place of the names that a choice has; those that none had stay.
pub fn name_processes(
    alloc: Global,
    choice: &mut Choice,
    holders: &[Holder],
) -> Result<(), AllocError>
    ensures { OnOk result (asks_of choice.new
        ≡ choice_meant (map holding_of holders.now) (asks_of choice.old)) }
{
    name_in_filter(alloc, &mut choice.only, holders)?;
    name_in_filter(alloc, &mut choice.not, holders)
}
