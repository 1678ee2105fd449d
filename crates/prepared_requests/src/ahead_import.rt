//! An import into the files of a trace, whose input is read ahead once these are locked.
ghost use Rattle.stores.specs.Events.{World};
ghost use Rattle.import.specs.Incoming.{outside};
ghost use Rattle.commands.specs.Commands.{Serves};
ghost use Rattle.prepared_requests.specs.AheadImport.{ImportsFiles};

use crate::ahead::begin_import;
use command_line::{Rules, Shown, TraceRequest, Wanted};
use commands::{Files, Served, files_for, serve_trace};
use faults::Complaint;
use shown_listings::{Console, Output, console_for, taken};
use std::io::Read;
use std::mem;
use trace_listings::Watched;
use trace_reader::Observed;

/// Does what a request asks with the files of a trace, and writes to the output, with a console for what it tells meanwhile;
/// hands on what that observed.
fn do_over<I: Read + Drop, W: Output>(
    request: TraceRequest<'_>,
    shown: &Shown,
    files: &mut Files<'_>,
    console: Console,
    input: I,
    output: &mut W,
) -> (Result<(), Complaint>, Observed)
    ensures { Serves request.entry shown.now files.old files.new
        (outside (I.remaining input) 0 console.observed.notes) result.1.notes
        (W.contents output.old) (W.contents output.new) result.0 }
{
    let mut console = console;
    let mut writer = taken(files.alloc(), output);
    let mut watched = Watched::new(&mut writer, &mut console);
    let done = serve_trace(request, shown, files, input, &mut watched);
    let host = &mut *watched.host;
    let observed = mem::replace(&mut host.observed, Observed::new());
    *output = taken(files.alloc(), &mut *watched.writer);
    drop(watched);
    drop(writer);
    drop(console);
    (done, observed)
}

/// Imports into the files of a trace, and hands these on, where they could be had. Where the trace is to be kept open, what
/// stands before the first entry of the input is passed over.
pub fn import_files<'a, I: Read + Drop, W: Output>(
    rt: &HostRuntime,
    wanted: Wanted<'a>,
    rules: Rules,
    shown: &Shown,
    input: I,
    output: &mut W,
) -> (Result<(), Complaint>, Option<Served<'a>>)
    ghost world: { World }
    ensures { ImportsFiles world wanted.entry rules shown.now (I.remaining input)
        (W.contents output.old) (W.contents output.new) result.0 result.1 }
{
    let mut files = match files_for(rt, &TraceRequest::Import { wanted, rules }) {
        Ok(files) => files,
        Err(complaint) => return (Err(complaint), None),
    };
    let (rules, input) = match begin_import(rt, rules, input) {
        Ok(begun) => begun,
        Err(complaint) => {
            let observed = Observed::new();
            return (Err(complaint), Some(Served { files, observed }));
        }
    };
    let request = TraceRequest::Import { wanted, rules };
    let console = console_for(rt, &request);
    let (done, observed) = do_over(request, shown, &mut files, console, input, output);
    (done, Some(Served { files, observed }))
}
