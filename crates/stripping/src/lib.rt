// Strip over the graph of an accepted file: all is decided before the first byte is written.
#![tactic(auto)]

ghost use Rattle.std.specs.Prelude.{List, ℕ};
ghost use Rattle.outcome.specs.Outcome.{StripOutcome, reported};
ghost use Rattle.request.specs.Value.{Ready, request_in};
ghost use Rattle.request.specs.Proper.{Reads};

use fencing::off::{names_above, take_off};
use graph::Graph;
use outcome::Report;
use request::{Answer, Refusal};
use writing::{size_of, write_request};

// Writes the graph with fences taken off until so many nodes are left.
pub fn strip(g: Graph, count: u64, out: &mut [u8]) -> Result<Report, Refusal>
    requires { Ready g }
    ensures { (s : List ℕ) → Reads s (request_in g) → StripOutcome s count out.old (reported result) out.new }
{
    let nodes = g.nodes.len();
    if (nodes as u64) < count {
        return Err(Answer::NotLoose.at(0));
    }
    // by `as`: an index has 64 bits, and nothing is cut off
    let c = count as usize;
    if names_above(&g.orders, c) {
        return Err(Answer::NotLoose.at(0));
    }
    let left = take_off(g, c);
    if c < left.graph.nodes.len() {
        return Err(Answer::NotLoose.at(0));
    }
    if out.len() < size_of(&left.graph) {
        return Err(Answer::ShortBuffer.at(0));
    }
    let length = write_request(out, &left.graph);
    Ok(Report::done((nodes - c) as u64, left.weight, length as u64))
}
