// Ask over the graph of an accepted file.
#![tactic(auto)]

ghost use Rattle.std.specs.Prelude.{List, ℕ};
ghost use Rattle.outcome.specs.Outcome.{AskOutcome, told};
ghost use Rattle.request.specs.Value.{Ready, request_in};
ghost use Rattle.request.specs.Proper.{Reads};

use graph::Graph;
use outcome::Shown;
use request::{Answer, Refusal};

// Whether an order is held; where it isn't, the nodes of the first route that does not order its ends are left in `route`.
pub fn ask(g: &Graph, order: u64, route: &mut [u16]) -> Result<Shown, Refusal>
    requires { Ready g.now }
    ensures { (s : List ℕ) → Reads s (request_in g.now) → AskOutcome s order route.old (told result) route.new }
{
    // an index has 64 bits, so nothing is cut off
    let Some(asked) = g.orders.get(order as usize) else {
        return Err(Answer::NoSuchOrder.at(0));
    };
    if route.len() < Graph::NODES {
        return Err(Answer::ShortBuffer.at(0));
    }
    let succ = words::succ_of(&g.edges);
    let fits = words::fits_of(&g.nodes, &g.rules);
    let mut lent = [[0u64; sets::WORDS]; Graph::NODES];
    let first = usize::from(asked.first);
    let second = usize::from(asked.second);
    let shown = walk::open_route(&succ, &fits, &mut lent, g.nodes.len(), first, second);
    let nodes = shown.unwrap_or_default();
    let length = nodes.len();
    route[..length].copy_from_slice(&nodes);
    Ok(Shown::done(length as u64))
}
