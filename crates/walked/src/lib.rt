// The edges of a route that does not order its ends, by the walk.
#![tactic(auto)]

ghost use Rattle.std.specs.Prelude.{replicate, ◌≡◌, ◌+◌, ◌<◌, ◌≤◌, length, ℕ, MatchOption};
ghost use Rattle.graph.specs.Limits.{most_nodes};
ghost use Rattle.route.specs.Way.{Net, EdgeLists, Remains, starts, ends};
ghost use Rattle.sets.specs.Whole.{rows};
ghost use Rattle.walked.specs.Steps.{Leading, Stepped, Named};
ghost use Rattle.walked.specs.Unordered.{Goes, Leads, FoundUnordered};

use graph::{Edge, Graph};
use route::{EdgeRoute, Links};
use sets::{none, put_in};
use walk::open_route;
use words::Sets;

// For each node the set of the nodes that an edge leads to of which something is left. It differs from `words::succ_of` in the test of what is
// left: one function of both would stand in `words`, take the test as a closure, and make each of the two longer.
#[tactic(auto, using(route::proofs::Listed::start_within, route::proofs::Listed::end_within))]
fn left_of(edges: &[Edge], left: &[u16; Graph::EDGES], succ: &mut Sets)
    requires net { Net (starts edges.now) (ends edges.now) }
    requires empty { rows succ.old ≡ replicate most_nodes 0 }
    ensures { Leading (starts edges.now) (ends edges.now) left.now (rows succ.new) }
{
    for (e, edge) in edges.iter().enumerate() {
        if left[e] != 0 {
            let from = usize::from(edge.from);
            let to = usize::from(edge.to);
            put_in(&mut succ[from], to);
        }
    }
}

// The edge from p to q of which something is left.
fn edge_between(
    edges: &[Edge],
    outs: &Links,
    left: &[u16; Graph::EDGES],
    p: usize,
    q: usize,
) -> Option<usize>
    requires { Net (starts edges.now) (ends edges.now) × EdgeLists (starts edges.now) outs.now.entries 0 × (p < most_nodes) }
    ensures { MatchOption result (Leads (starts edges.now) (ends edges.now) (Remains left.now) p q → ⊥) (λ e. Goes (starts edges.now) (ends edges.now) (Remains left.now) e p q) }
{
    outs.at(p, edges)
        .find(|e| 0 < left[*e] && usize::from(edges[*e].to) == q)
}

// The edges of the steps of a route by its nodes are left in `out`.
fn named(
    edges: &[Edge],
    outs: &Links,
    left: &[u16; Graph::EDGES],
    nodes: &[u16],
    out: &mut EdgeRoute,
)
    requires net { Net (starts edges.now) (ends edges.now) × EdgeLists (starts edges.now) outs.now.entries 0 }
    requires steps { (n : ℕ) × (n + 1 ≡ length nodes.now) × (n < most_nodes) × Stepped (starts edges.now) (ends edges.now) left.now nodes.now n }
    ensures { (length out.new.items + 1 ≡ length nodes.now) × Named (starts edges.now) (ends edges.now) left.now nodes.now out.new.items (length out.new.items) }
{
    out.clear();
    for step in nodes.windows(2) {
        let e = edge_between(
            edges,
            outs,
            left,
            usize::from(step[0]),
            usize::from(step[1]),
        );
        // there is such an edge, by the contract
        if let Some(e) = e {
            // by `as`: it is proved to fit, and `try_from` would answer an error that cannot come
            out.push(e as u16);
        }
    }
}

// The edges of a route from a to goal that does not order its ends and on which no edge is gone: an edge with nothing left is. By the walk.
// Its edges are left in `out`, none where there is no such route. The table is lent to the walk, whatever it has.
pub fn walked_route(
    edges: &[Edge],
    outs: &Links,
    fits: &Sets,
    left: &[u16; Graph::EDGES],
    a: usize,
    goal: usize,
    lent: &mut Sets,
    out: &mut EdgeRoute,
)
    requires net { Net (starts edges.now) (ends edges.now) × EdgeLists (starts edges.now) outs.now.entries 0 }
    requires ends { (a < most_nodes) × (goal < most_nodes) }
    ensures { FoundUnordered (starts edges.now) (ends edges.now) (rows fits.now) left.now a goal out.new.items }
{
    // lent and not handed back: that would take its 32 KiB twice
    let mut succ = [none(); Graph::NODES];
    left_of(edges, left, &mut succ);
    match open_route(&succ, fits, lent, Graph::NODES, a, goal) {
        Some(way) => named(edges, outs, left, &way, out),
        None => out.clear(),
    }
}
