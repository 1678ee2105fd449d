//! What is told beside why a request isn't served.

use command_line::{Asked, Request, TraceRequest};
use faults::Complaint;
use recovery::RecoverFault;
use script_runner::{Refusal, SimFault};
use trace_lookup::Shown;

/// The trace of which a table is asked for.
pub fn table_asked<'a>(request: &Request<'a>) -> Option<Asked<'a>> {
    match request {
        Request::OfTrace {
            request: TraceRequest::Top {
                asked,
                ranking: _,
                is_json: _,
            },
            shown: _,
        } => Some(*asked),
        _ => None,
    }
}

/// Whether a trace is refused, of whose files a salvage writes what they hold.
fn is_salvaged(complaint: &Complaint) -> bool {
    matches!(
        complaint,
        Complaint::Fault {
            fault: SimFault::Refused(Refusal::Recover(
                RecoverFault::Damaged { file: _, place: _ }
                    | RecoverFault::Mixed
                    | RecoverFault::Sequence
            )),
            advice: _
        }
    )
}

/// Says how a table comes of a trace that is refused.
pub fn tell_salvage(rt: &HostRuntime, table: Option<Asked<'_>>, done: &Result<(), Complaint>) {
    let (Some(asked), Err(complaint)) = (table, done) else {
        return;
    };
    if !is_salvaged(complaint) {
        return;
    }
    let name = Shown(asked.base);
    let _ = match asked.suffix {
        None => eprintln!(rt;
            "dbgrec export --salvage {name} | dbgrec top - counts what its files hold"
        ),
        Some(suffix) => {
            let suffix = Shown(suffix);
            eprintln!(rt;
                "dbgrec export --salvage {name} --suffix {suffix} | dbgrec top - counts what its files hold"
            )
        }
    };
}
