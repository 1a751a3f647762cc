// Run over the graph of an accepted file: all is decided before the first byte is written.
#![tactic(auto)]

ghost use Rattle.std.specs.Prelude.{List, ℕ};
ghost use Rattle.outcome.specs.Outcome.{RunOutcome, reported};
ghost use Rattle.request.specs.Value.{Ready, request_in};
ghost use Rattle.request.specs.Proper.{Reads};

use fencing::on::{count, put_on};
use graph::Graph;
use outcome::Report;
use request::{Answer, Refusal};
use writing::{size_of, write_request};

// Writes the graph with a fence on each edge of its chosen cut.
pub fn run(g: Graph, out: &mut [u8]) -> Result<Report, Refusal>
    requires { Ready g }
    ensures { (s : List ℕ) → Reads s (request_in g) → RunOutcome s out.old (reported result) out.new }
{
    let cut = cut::chosen_cut(&g);
    let chosen = cut.flags();
    let fences = count(&chosen);
    if Graph::NODES < g.nodes.len() + fences {
        return Err(Answer::NoRoom.at(0));
    }
    if Graph::EDGES < g.edges.len() + fences {
        return Err(Answer::NoRoom.at(0));
    }
    let fenced = put_on(g, &chosen);
    if out.len() < size_of(&fenced) {
        return Err(Answer::ShortBuffer.at(0));
    }
    let length = write_request(out, &fenced);
    Ok(Report::done(fences as u64, u64::from(cut.weight), length as u64))
}
