// A lower bound on the weight of every cut: routes that must be met, packed with amounts that no edge's weight falls short of.
ghost use Rattle.std.specs.Prelude.{◌≡◌, ◌<◌, ◌≤◌, length};
ghost use Rattle.graph.specs.Limits.{most_edges};
ghost use Rattle.route.specs.Way.{weights};
ghost use Rattle.lightest.specs.Made.{Made, cut_by, edges_of, most_weight};
ghost use Rattle.lightest.specs.Search.{Bounded, Earlier, Fair, Light, Parted, Reduced, TightestOf, Unspent, costs};

use crate::Problem;
use graph::{Edge, Graph};
use route::EdgeRoute;
use sets::{WideSet, has};
use unordered::find_route;
use words::Sets;

// A lower bound: routes that must be met, with amounts. The first of them, what is left of each weight, and the sum of the amounts. The route is
// empty where none was found.
#[derive(Clone, Copy)]
pub struct Packing {
    pub route: EdgeRoute,
    pub left: [u16; Graph::EDGES],
    pub sum: u32,
}

// What an edge weighs: all that reads a weight reads it here. By itself too as that the number is below 2^16 is known of what a call gives, and
// not of a field in a loop over edges.
pub fn weight_of(edge: &Edge) -> u16
    ensures { result ≡ edge.now.weight }
{
    edge.weight
}

// The weights, and 0 for a chosen edge.
fn unspent(edges: &[Edge], chosen: &WideSet) -> [u16; Graph::EDGES]
    requires { length edges.now ≤ most_edges }
    ensures left { (length result ≡ most_edges) × Unspent (weights edges.now) (edges_of chosen.now) result }
    ensures light { Light (weights edges.now) }
{
    let mut left = [0; Graph::EDGES];
    for (e, edge) in edges.iter().enumerate() {
        let weight = weight_of(edge);
        if !has(chosen, e) {
            left[e] = weight;
        }
    }
    left
}

// An edge of the route of which the least is left.
pub fn tightest(route: &[u16], left: &[u16; Graph::EDGES]) -> Option<usize>
    requires { Fair route.now }
    ensures { TightestOf route.now left.now result }
{
    // a loop: with `min_by_key` it stayed unproved that each edge is in bounds
    let mut best = usize::from(*route.first()?);
    for &e in route {
        let e = usize::from(e);
        if left[e] < left[best] {
            best = e;
        }
    }
    Some(best)
}

// What is left when the amount a goes along the route.
fn reduce(route: &[u16], left: &mut [u16; Graph::EDGES], a: u16)
    requires { Fair route.now × (length left.old ≡ most_edges) }
    ensures { Reduced route.now a left.old left.new }
{
    for &e in route {
        let e = usize::from(e);
        left[e] = left[e].saturating_sub(a);
    }
}

// Keeps the way where there is none before it.
fn keep_first(first: &mut EdgeRoute, way: &EdgeRoute)
    ensures { Earlier first.old.items way.now.items first.new.items }
{
    if first.is_empty() {
        *first = *way;
    }
}

// Packs unordered routes of the pairs that the chosen edges miss, each with the most that its edges have left, until they sum to the allowance
// or no route is left. `kept` is lent to the search for a route, whatever it has.
pub fn bound(problem: &Problem<'_>, chosen: &WideSet, allowance: u32, kept: &mut Sets) -> Packing
    requires { Made (costs problem.now) (cut_by (costs problem.now) chosen.now) × (allowance < most_weight) }
    ensures { Bounded (costs problem.now) (Parted problem.now) (cut_by (costs problem.now) chosen.now) result }
{
    let mut packing = Packing {
        route: EdgeRoute::new(),
        left: unspent(problem.net.edges, chosen),
        sum: 0,
    };
    let mut way = EdgeRoute::new();
    for pair in problem.pairs {
        let a = usize::from(pair.first);
        let b = usize::from(pair.second);
        loop {
            find_route(&problem.net, &packing.left, a, b, kept, &mut way);
            let Some(e) = tightest(&way, &packing.left) else {
                break;
            };
            let amount = packing.left[e];
            reduce(&way, &mut packing.left, amount);
            packing.sum += u32::from(amount);
            keep_first(&mut packing.route, &way);
            if allowance <= packing.sum {
                return packing;
            }
        }
    }
    packing
}
