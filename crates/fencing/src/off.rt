// Fences taken off, from the highest node down.
ghost use Rattle.std.specs.Prelude.{◌≡◌, true, false, ◌+◌, ◌-◌, ◌<◌, ◌≤◌, get_or, length};
ghost use Rattle.graph.specs.Graph.{no_edge};
ghost use Rattle.graph.specs.Scan.{FirstIn};
ghost use Rattle.graph.specs.Strip.{AllName, joined};
ghost use Rattle.graph.specs.Value.{graph_of};
ghost use Rattle.fencing.specs.Kept.{Kept};
ghost use Rattle.fencing.specs.Left.{Top, Off};

use graph::{Edge, Graph, Label, Order};

// What is left of a graph, and the weights of the pairs rejoined.
#[derive(Clone, Copy)]
pub struct Left {
    pub graph: Graph,
    pub weight: u64,
}

// The three scans below are one chain each: `position` is what they share.

// The first edge, from lo on, that ends at v.
pub fn next_end(edges: &[Edge], v: usize, lo: usize) -> Option<usize>
    requires { lo ≤ length edges.now }
    ensures { FirstIn (λ j. (get_or edges.now j no_edge).to ≡ v) lo (length edges.now) result }
{
    edges
        .iter()
        .skip(lo)
        .position(|e| usize::from(e.to) == v)
        .map(|after| lo + after)
}

// The first edge that starts at v.
pub fn first_start(edges: &[Edge], v: usize) -> Option<usize>
    ensures { FirstIn (λ j. (get_or edges.now j no_edge).from ≡ v) 0 (length edges.now) result }
{
    edges.iter().position(|e| usize::from(e.from) == v)
}

// The first edge from a to b.
fn first_pair(edges: &[Edge], a: u16, b: u16) -> Option<usize>
    ensures { FirstIn (λ j. ((get_or edges.now j no_edge).from ≡ a) × ((get_or edges.now j no_edge).to ≡ b)) 0 (length edges.now) result }
{
    edges.iter().position(|e| e.from == a && e.to == b)
}

// The edge that ends at the highest node, where that node is loose.
fn loose(g: &Graph) -> Option<usize>
    ensures { Top (graph_of g.now) result }
{
    let edges = g.edges.as_slice();
    let v = g.nodes.len().checked_sub(1)?;
    let m = edges.len().checked_sub(1)?;
    // not by `!=`: with the derived one a goal stayed open
    let Label::Fence = g.nodes[v].label else {
        return None;
    };
    let i = next_end(edges, v, 0)?;
    if i == m {
        return None;
    }
    if next_end(edges, v, i + 1).is_some() {
        return None;
    }
    if first_start(edges, v) != Some(m) {
        return None;
    }
    // by index: the scans give places
    let into = edges[i];
    let out_of = edges[m];
    if into.weight != out_of.weight {
        return None;
    }
    if first_pair(edges, into.from, out_of.to).is_some() {
        return None;
    }
    Some(i)
}

// Takes off the highest node and the last edge: edge i ends where the last one ended. The weight of edge i.
fn rejoin(g: &mut Graph, i: usize) -> u16
    requires { i < length g.old.edges.items - 1 }
    ensures joined { graph_of g.new ≡ joined (graph_of g.old) (length g.old.nodes.items - 1) i (length g.old.edges.items - 1) }
    ensures weight { result ≡ (get_or g.old.edges.items i no_edge).weight }
    ensures kept { Kept g.old g.new }
{
    let last = g.edges[g.edges.len() - 1];
    g.nodes.pop();
    g.edges.pop();
    let into = g.edges[i];
    g.edges.set(
        i,
        Edge {
            to: last.to,
            ..into
        },
    );
    into.weight
}

// Takes fences off until c nodes are left; stops with more where the highest node isn't loose.
pub fn take_off(g: Graph, c: usize) -> Left
    requires { c ≤ length g.nodes.items }
    ensures off { Off (graph_of g) c (length result.graph.nodes.items) result.weight (graph_of result.graph) }
    ensures kept { Kept g result.graph }
    ensures paired { (c ≤ length result.graph.nodes.items)
        × (length result.graph.edges.items + length g.nodes.items ≡ length g.edges.items + length result.graph.nodes.items) }
{
    let mut graph = g;
    let mut weight = 0;
    for _ in c..graph.nodes.len() {
        let Some(i) = loose(&graph) else {
            return Left { graph, weight };
        };
        weight += u64::from(rejoin(&mut graph, i));
    }
    Left { graph, weight }
}

// Whether an order names a node numbered c or more.
pub fn names_above(orders: &[Order], c: usize) -> bool
    ensures { (result ≡ true → ¬ AllName c orders.now) × (result ≡ false → AllName c orders.now) }
{
    orders.iter().any(|o| c <= usize::from(o.first) || c <= usize::from(o.second))
}
