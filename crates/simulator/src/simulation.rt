//! A script over a store in memory, as the command line asks for it.
ghost use Rattle.std.specs.Prelude.{ℕ, Option, List, Result};
ghost use Rattle.faults.specs.Complaints.{IsToldAs};
ghost use Rattle.simulator.specs.Simulated.{IsRun};

use crate::sim::run_sim;
use faults::{Complaint, told};
use script_runner::SimFault;
use std::alloc::Global;
use std::io::{BufReader, Read, Write};

/// What is read at a time, in bytes.
const BUFFER: usize = 65_536;

/// Runs a script over a store in memory.
pub fn serve_sim<R: Read + Drop, W: Write>(
    alloc: Global,
    input: R,
    output: &mut W,
) -> Result<(), Complaint>
    ensures { (done : Result Unit SimFault) × (has : Option (List ℕ))
        × IsRun (R.remaining input) has (W.contents output.old) (W.contents output.new) done
        × IsToldAs done result }
{
    let Ok(mut reader) = BufReader::with_capacity(alloc, BUFFER, input) else {
        return told(Err(SimFault::NoMemory));
    };
    let done = run_sim(alloc, &mut reader, output);
    drop(reader);
    told(done)
}
