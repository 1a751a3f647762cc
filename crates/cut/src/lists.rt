// The edges of a graph, as the search reads them: ends and weights.
ghost use Rattle.std.specs.Prelude.{◌≡◌, ◌≤◌, length};
ghost use Rattle.graph.specs.Limits.{most_edges};

use graph::{Edge, Graph};
use short_list::ShortList;

pub type Edges = ShortList<Edge, { Graph::EDGES }>;

// A list of its own: here the weights are read, and so a mistake in them can be planted here.
pub fn copied(edges: &[Edge]) -> Edges
    requires { length edges.now ≤ most_edges }
    ensures { result.items ≡ edges.now }
{
    let mut list = Edges::new();
    for edge in edges {
        list.push(Edge {
            from: edge.from,
            to: edge.to,
            weight: edge.weight,
        });
    }
    list
}
