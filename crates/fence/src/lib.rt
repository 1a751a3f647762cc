// The public operations: run, ask and strip over files. `fence_c` has them for C to call.
#![tactic(auto)]

ghost use Rattle.outcome.specs.Outcome.{RunOutcome, AskOutcome, StripOutcome, reported, told};

use outcome::{Report, Shown};
use request::{Refusal, decode, read};

// Writes the file with a fence on each edge of the chosen cut.
pub fn fence_run(file: &[u8], out: &mut [u8]) -> Report
    ensures { RunOutcome file.now out.old result out.new }
{
    run(file, out).unwrap_or_else(Report::from)
}

// Tells whether an order is held, and shows the first route that does not order its ends where it isn't.
pub fn fence_ask(file: &[u8], order: u64, route: &mut [u16]) -> Shown
    ensures { AskOutcome file.now order route.old result route.new }
{
    ask(file, order, route).unwrap_or_else(Shown::from)
}

// Writes the file with fences taken off until so many nodes are left.
pub fn fence_strip(file: &[u8], count: u64, out: &mut [u8]) -> Report
    ensures { StripOutcome file.now count out.old result out.new }
{
    strip(file, count, out).unwrap_or_else(Report::from)
}

// One for each, as they hand on different things: one function for all would take the step as a closure, and be no shorter.

fn run(file: &[u8], out: &mut [u8]) -> Result<Report, Refusal>
    ensures { RunOutcome file.now out.old (reported result) out.new }
{
    let counts = read(file)?;
    running::run(decode(file, counts), out)
}

fn ask(file: &[u8], order: u64, route: &mut [u16]) -> Result<Shown, Refusal>
    ensures { AskOutcome file.now order route.old (told result) route.new }
{
    let counts = read(file)?;
    asking::ask(&decode(file, counts), order, route)
}

fn strip(file: &[u8], count: u64, out: &mut [u8]) -> Result<Report, Refusal>
    ensures { StripOutcome file.now count out.old (reported result) out.new }
{
    let counts = read(file)?;
    stripping::strip(decode(file, counts), count, out)
}
