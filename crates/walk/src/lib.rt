// The walk along the routes of a graph, for the first one that does not order its ends.
#![tactic(auto)]

ghost use Rattle.std.specs.Prelude.{◌≡◌, false, ◌<◌, ◌≤◌, IfSome, length};
ghost use Rattle.flags.specs.Flag.{flag};
ghost use Rattle.graph.specs.Graph.{Sound, Orderly};
ghost use Rattle.graph.specs.Limits.{most_nodes};
ghost use Rattle.graph.specs.Value.{graph_of, orders_of, Told};
ghost use Rattle.walk.specs.Asked.{AskedOf, ByTables, shown};
ghost use Rattle.sets.specs.Whole.{whole, rows};
ghost use Rattle.words.specs.Words.{Fitted};
ghost use Rattle.step.specs.Rest.{Rest, GoesOn};
ghost use Rattle.walk.specs.Search.{Decides};

use graph::Graph;
use hope::{Aim, Trail, into_set};
use sets::{has, lowest_from, none, put_in, size, take_out, with};
use short_list::ShortList;
use step::mark_on;
use words::{Sets, succ_of};

// A route by its nodes.
pub type NodeRoute = ShortList<u16, { Graph::NODES }>;

// Visiting v, which is not on the route so far: that one's nodes stand at the start of `nodes`. Whether there is a way on: then the route with
// the first one stands in `nodes`, and `trail` has its nodes. Where there is none the route so far and `trail` are as they were.
#[cycle(trial_visit)]
fn visit(
    aim: &Aim<'_>,
    trail: &mut Trail,
    nodes: &mut [u16; Graph::NODES],
    lent: &mut Sets,
    doubt: bool,
    v: usize,
) -> bool
    requires { (v < most_nodes) × (flag (whole trail.old.visited) v ≡ false) }
    ensures { Decides (Rest (rows aim.now.succ.now) (rows aim.now.fits.now) aim.now.goal) v result (whole trail.old.visited) (whole trail.new.visited) (whole trail.old.after) (whole trail.new.after) nodes.old nodes.new }
{
    put_in(&mut trail.visited, v);
    let n = size(trail.visited);
    // v is below 512, so it fits
    nodes[n - 1] = v as u16;
    if v == aim.goal {
        if !has(&trail.after, v) {
            return true;
        }
        take_out(&mut trail.visited, v);
        return false;
    }
    let before = trail.after;
    mark_on(aim.fits, &mut trail.after, v);
    if trial(aim, trail, nodes, lent, doubt, v) {
        return true;
    }
    take_out(&mut trail.visited, v);
    trail.after = before;
    false
}

// The trial of the edges of v, the last node on the route so far: each in turn, that to the lowest node first. Its answer is as that of `visit`.
// With doubt, once some way has failed, the walk looks ahead before it goes on.
#[cycle(trial_visit)]
fn trial(
    aim: &Aim<'_>,
    trail: &mut Trail,
    nodes: &mut [u16; Graph::NODES],
    lent: &mut Sets,
    doubt: bool,
    v: usize,
) -> bool
    requires { v < most_nodes }
    ensures { Decides (GoesOn (rows aim.now.succ.now) (rows aim.now.fits.now) aim.now.goal) v result (whole trail.old.visited) (whole trail.new.visited) (whole trail.old.after) (whole trail.new.after) nodes.old nodes.new }
{
    if aim.hopeless(trail, lent, doubt, v) {
        return false;
    }
    let mut from = 0;
    let mut wary = doubt;
    while let Some(k) = lowest_from(&aim.succ[v], &trail.visited, from) {
        if visit(aim, trail, nodes, lent, wary, k) {
            return true;
        }
        if aim.lost(trail, lent, wary, v, k) {
            return false;
        }
        from = k + 1;
        wary = true;
    }
    false
}

// Whether the order (a, b) is held in a graph of n nodes with these tables: where it is, there is no route to show, and where not, this is
// the first route that does not order its ends. Of tables that are no graph's it says whether each route over them orders its ends. The third
// table is lent to the tests for a way on, whatever it has.
pub fn open_route(
    succ: &Sets,
    fits: &Sets,
    lent: &mut Sets,
    n: usize,
    a: usize,
    b: usize,
) -> Option<NodeRoute>
    requires { (n ≤ most_nodes) × (a < most_nodes) × (b < most_nodes) }
    ensures asked { AskedOf (rows succ.now) (rows fits.now) a b (shown result) }
    ensures by_tables { ByTables (rows succ.now) (rows fits.now) a b (shown result) }
    ensures some_nodes { IfSome result (λ route. (0 < length route.items) × (length route.items ≤ most_nodes)) }
{
    let into = into_set(fits, n, b);
    let aim = Aim {
        succ,
        fits,
        goal: b,
        into: &into,
    };
    let mut trail = Trail {
        visited: with(none(), a),
        after: fits[a],
    };
    if !aim.hopeful(&trail, lent, a) {
        return None;
    }
    // an array with no length of its own: while the walk goes on the route has as many nodes as `visited`; a is below 512, so it fits
    let mut nodes = [0u16; Graph::NODES];
    nodes[0] = a as u16;
    if !trial(&aim, &mut trail, &mut nodes, lent, false, a) {
        return None;
    }
    let mut route = NodeRoute::from(nodes);
    route.truncate(size(trail.visited));
    Some(route)
}

// For each order whether it is open, by the table of the rules. The other table is lent to the tests for a way on, whatever it has.
pub fn open_orders(g: &Graph, fits: &Sets, lent: &mut Sets) -> [bool; Graph::ORDERS]
    requires sound { Sound (graph_of g.now) × Orderly (length (graph_of g.now).nodes) (orders_of g.now) }
    requires fitted { Fitted g.now (rows fits.now) }
    ensures { Told g.now result }
{
    let n = g.nodes.len();
    let succ = succ_of(&g.edges);
    // flags, as the definition `Told` speaks of flags; those past the list stay false
    let mut open = [false; Graph::ORDERS];
    for (i, order) in g.orders.iter().enumerate() {
        let way = open_route(
            &succ,
            fits,
            lent,
            n,
            usize::from(order.first),
            usize::from(order.second),
        );
        open[i] = way.is_some();
    }
    open
}
