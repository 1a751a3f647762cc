// The test of a route that is proposed by its edges.
#![tactic(auto)]

ghost use Rattle.std.specs.Prelude.{true, List, ◌≡◌, ℕ, ◌<◌, ◌≤◌, length, get_or};
ghost use Rattle.graph.specs.Limits.{most_nodes};
ghost use Rattle.route.specs.Way.{Net, Remains, starts, ends};
ghost use Rattle.sets.specs.Whole.{rows};
ghost use Rattle.walked.specs.Unordered.{FoundUnordered};

use graph::Edge;
use sets::{has, none, put_in, with};
use step::mark_on;
use words::Sets;

// Whether these edges, one after the other, are those of a route from a to the goal that does not order its ends.
#[tactic(auto, using(route::proofs::Listed::end_within))]
pub fn judged(edges: &[Edge], fits: &Sets, route: &[u16], a: usize, goal: usize) -> bool
    requires net { Net (starts edges.now) (ends edges.now) × (a < most_nodes) × (goal < most_nodes) }
    requires edges_known { (0 < length route.now) × (length route.now ≤ most_nodes) × ((k : ℕ) → k < length route.now → get_or route.now k 0 < length edges.now) }
    ensures { result ≡ true → (left : List ℕ) → ((k : ℕ) → k < length route.now → Remains left (get_or route.now k 0)) → FoundUnordered (starts edges.now) (ends edges.now) (rows fits.now) left a goal route.now }
{
    let mut after = fits[a];
    let mut seen = with(none(), a);
    let mut at = a;
    for e in route {
        let edge = &edges[usize::from(*e)];
        if usize::from(edge.from) != at {
            return false;
        }
        at = usize::from(edge.to);
        if has(&seen, at) {
            return false;
        }
        put_in(&mut seen, at);
        mark_on(fits, &mut after, at);
    }
    at == goal && !has(&after, goal)
}
