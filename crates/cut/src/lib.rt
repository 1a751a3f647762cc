// The chosen cut of a graph: its open orders, near ones first, handed to the search for the lightest.
#![tactic(auto)]

ghost use Rattle.std.specs.Prelude.{length};
ghost use Rattle.graph.specs.Graph.{Sound, Orderly};
ghost use Rattle.graph.specs.Value.{graph_of, orders_of};
ghost use Rattle.lightest.specs.Apart.{Apart, Posed, firsts, seconds};
ghost use Rattle.lightest.specs.Made.{Made, cut_of, edges_of};
ghost use Rattle.lightest.specs.Sets.{Least};
ghost use Rattle.route.specs.Way.{starts, ends, weights};
ghost use Rattle.sets.specs.Whole.{rows};
ghost use Rattle.cut.specs.Chosen.{Chosen};

use crate::lists::copied;
use graph::{Graph, Order};
use lightest::{Cut, Problem};
use route::Links;
use unordered::Linked;
use words::Sets;

mod lists;
mod near;

// The chosen cut of a graph. One table is lent to the walk first and then to the search, which both write before they read.
pub fn chosen_cut(g: &Graph) -> Cut
    requires { Sound (graph_of g.now) × Orderly (length (graph_of g.now).nodes) (orders_of g.now) }
    ensures { Chosen g.now result }
{
    let fits = words::fits_of(&g.nodes, &g.rules);
    let mut lent = [[0u64; sets::WORDS]; Graph::NODES];
    let open = walk::open_orders(g, &fits, &mut lent);
    let list = copied(&g.edges);
    let edges = list.as_slice();
    let ins = Links::by_ends(edges);
    let outs = Links::by_starts(edges);
    let open_orders = near::gather(&g.orders, &open);
    let pairs = near::near_first(&open_orders, edges, &ins);
    let net = Linked {
        edges,
        ins: &ins,
        outs: &outs,
        fits: &fits,
    };
    search(net, &pairs, &mut lent)
}

// The lightest set of edges that keeps the pairs apart. A function of its own, so that all parts of the problem are lent for one lifetime.
fn search<'a>(net: Linked<'a>, pairs: &'a [Order], lent: &mut Sets) -> Cut
    requires { Posed (starts net.edges.now) (ends net.edges.now) net.ins.now.entries net.outs.now.entries (weights net.edges.now) (firsts pairs.now) (seconds pairs.now) }
    ensures made { Made (weights net.entry.edges.now) (cut_of result) }
    ensures least { Least (weights net.entry.edges.now) (Apart (starts net.entry.edges.now) (ends net.entry.edges.now) (rows net.entry.fits.now) (firsts pairs.now) (seconds pairs.now)) (edges_of result.chosen) }
{
    let problem: Problem<'a> = Problem { net, pairs };
    lightest::best(&problem, lent)
}
