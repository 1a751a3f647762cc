// Finds the edges of a route that does not order its ends, of the edges that are left.
#![tactic(auto)]

pub mod pairs;

ghost use Rattle.std.specs.Prelude.{◌≢◌, ◌<◌};
ghost use Rattle.graph.specs.Limits.{most_nodes};
ghost use Rattle.sets.specs.Whole.{rows};
ghost use Rattle.route.specs.Way.{Net, EdgeLists, starts, ends};
ghost use Rattle.walked.specs.Unordered.{FoundUnordered};

use crate::pairs::spread;
use graph::{Edge, Graph};
use judge::judged;
use route::{EdgeRoute, Links};
use words::Sets;

// The edges of a graph, linked by their ends and by their starts, and what some rule fits with each node.
#[derive(Clone, Copy)]
pub struct Linked<'a> {
    pub edges: &'a [Edge],
    pub ins: &'a Links,
    pub outs: &'a Links,
    pub fits: &'a Sets,
    ghost net: { Net (starts edges.now) (ends edges.now) × EdgeLists (ends edges.now) ins.now.entries 0 × EdgeLists (starts edges.now) outs.now.entries 0 },
}

// The edges of a route from a to goal that does not order its ends and on which no edge is gone: an edge with nothing left is. They are
// left in `out`, none where there is no such route. What is lent may have anything.
// A shortest route is sooner found and judged than the pairs are gone through, and mostly it does not order its ends.
pub fn find_route(
    net: &Linked<'_>,
    left: &[u16; Graph::EDGES],
    a: usize,
    goal: usize,
    kept: &mut Sets,
    out: &mut EdgeRoute,
)
    requires { (a < most_nodes) × (goal < most_nodes) × (a ≢ goal) }
    ensures { FoundUnordered (starts net.now.edges.now) (ends net.now.edges.now) (rows net.now.fits.now) left.now a goal out.new.items }
{
    route::find_route(net.edges, net.ins, left, a, goal, out);
    if out.is_empty() {
        return;
    }
    if judged(net.edges, net.fits, out, a, goal) {
        return;
    }
    spread(net.edges, net.outs, net.fits, left, a, goal, kept, out);
}
