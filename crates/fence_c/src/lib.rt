// The public operations for C to call (include/fence.h): each calls the one of `fence` with its name, and promises the same.
#![tactic(auto)]

ghost use Rattle.outcome.specs.Outcome.{RunOutcome, AskOutcome, StripOutcome};

use outcome::{Report, Shown};

// Writes the file with a fence on each edge of the chosen cut.
#[unsafe(no_mangle)]
pub extern "C" fn fence_run(file: &[u8], out: &mut [u8]) -> Report
    ensures { RunOutcome file.now out.old result out.new }
{
    fence::fence_run(file, out)
}

// Tells whether an order is held, and shows the first route that does not order its ends where it isn't.
#[unsafe(no_mangle)]
pub extern "C" fn fence_ask(file: &[u8], order: u64, route: &mut [u16]) -> Shown
    ensures { AskOutcome file.now order route.old result route.new }
{
    fence::fence_ask(file, order, route)
}

// Writes the file with fences taken off until so many nodes are left.
#[unsafe(no_mangle)]
pub extern "C" fn fence_strip(file: &[u8], count: u64, out: &mut [u8]) -> Report
    ensures { StripOutcome file.now count out.old result out.new }
{
    fence::fence_strip(file, count, out)
}
