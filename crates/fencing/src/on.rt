// Fences put on the edges of a cut.
ghost use Rattle.std.specs.Prelude.{◌≡◌, true, false, ℕ, ◌+◌, ◌<◌, ◌≤◌, length, get_or};
ghost use Rattle.graph.specs.Limits.{most_nodes, most_edges};
ghost use Rattle.graph.specs.Value.{graph_of, rising};
ghost use Rattle.graph.specs.Written.{fenced, written};
ghost use Rattle.fencing.specs.Kept.{Kept};

use graph::{Edge, Graph, Label, Node};

// Puts a fence on edge i.
fn put_fence(g: &mut Graph, i: usize)
    requires edge { i < length g.old.edges.items }
    requires room { (length g.old.nodes.items < most_nodes) × (length g.old.edges.items < most_edges) }
    ensures fenced { graph_of g.new ≡ fenced (graph_of g.old) i }
    ensures grown { (length g.new.nodes.items ≡ length g.old.nodes.items + 1) × (length g.new.edges.items ≡ length g.old.edges.items + 1) }
    ensures kept { Kept g.old g.new }
{
    // it fits, by `room`
    let fence = g.nodes.len() as u16;
    let cut = g.edges[i];
    g.nodes.push(Node {
        label: Label::Fence,
    });
    g.edges.set(i, Edge { to: fence, ..cut });
    g.edges.push(Edge { from: fence, ..cut });
}

// How many flags are set.
pub fn count(flags: &[bool; Graph::EDGES]) -> usize
    ensures set { result ≡ length (rising 0 flags.now) }
    ensures few { result ≤ most_edges }
{
    flags.iter().filter(|flag| **flag).count()
}

// The graph with a fence on each edge whose flag is set.
pub fn put_on(g: Graph, flags: &[bool; Graph::EDGES]) -> Graph
    requires edges { (e : ℕ) → get_or flags.now e false ≡ true → e < length g.edges.items }
    requires room { (length g.nodes.items + length (rising 0 flags.now) ≤ most_nodes)
        × (length g.edges.items + length (rising 0 flags.now) ≤ most_edges) }
    ensures fenced { graph_of result ≡ written (graph_of g) (rising 0 flags.now) }
    ensures kept { Kept g result }
    ensures grown { (length result.nodes.items ≡ length g.nodes.items + length (rising 0 flags.now))
        × (length result.edges.items ≡ length g.edges.items + length (rising 0 flags.now)) }
{
    let mut result = g;
    for (i, flag) in flags.iter().enumerate() {
        if *flag {
            put_fence(&mut result, i);
        }
    }
    result
}
