// The search over pairs of a node and what is ordered after the first when a route comes there. A pair is left out where an earlier one of its
// node has a set within its own: what goes on from the one goes on from the other, and no way back to the first goes over a node twice.
ghost use Rattle.std.specs.Prelude.{true, None, Some, List, ◌∷◌, [], ◌++◌, ◌↔◌, ◌≢◌, ◌≡◌, ℕ, ◌+◌, ◌<◌, ◌≤◌, length, slice_set, slice_index_or};
ghost use Rattle.graph.specs.Limits.{most_nodes, most_edges};
ghost use Rattle.hope.specs.Hope.{Dominated, most_pairs};
ghost use Rattle.sets.specs.Whole.{whole, rows};
ghost use Rattle.route.specs.Way.{Net, EdgeLists, starts, ends};
ghost use Rattle.walked.specs.Unordered.{FoundUnordered};
ghost use Rattle.unordered.specs.Pairs.{Chained, Trail, nodes};

use arrayvec::ArrayVec;
use graph::{Edge, Graph};
use hope::pairs::PAIRS;
use route::{EdgeRoute, Links};
use sets::{Set, has, within};
use step::marked;
use walked::walked_route;
use words::Sets;

// The edge by which a pair was come to, and the pair from which.
#[derive(Clone, Copy)]
pub struct By {
    pub via: u16,
    pub parent: u16,
}

// A pair's node, how it was come to, where it is not the first, and the pair of its node before it.
#[derive(Clone, Copy, Default)]
pub struct Pair {
    pub node: u16,
    pub by: Option<By>,
    pub prior: Option<u16>,
}

// The pairs in the order in which they were come to, and for each node the last that has it. Where there are more than these the walk is asked
// instead, as `hope` gives up there. Their sets stand beside them, in a table that is lent: 32 KiB that no search has to clear.
#[derive(Drop)]
struct Pairs {
    list: ArrayVec<Pair, PAIRS>,
    last: [Option<u16>; Graph::NODES],
    ghost chained: { Chained list.items last },
}

impl Pairs {
    // The first pair alone.
    fn start(a: usize) -> Self
        requires { a < most_nodes }
        ensures { result.list.items ≡ record { node = a; by = None; prior = None } ∷ [] }
    {
        let mut list = ArrayVec::new();
        list.push(Pair {
            node: a as u16,
            by: None,
            prior: None,
        });
        let mut last = [None; Graph::NODES];
        last[a] = Some(0);
        Pairs { list, last }
    }

    // Adds a pair of this node, come to from pair `parent` by the edge `via`.
    fn add(&mut self, node: usize, via: usize, parent: usize)
        requires room { length self.old.list.items < most_pairs }
        requires known { (node < most_nodes) × (via < most_edges) × (parent < most_pairs) }
        ensures { self.new.list.items ≡ self.old.list.items ++ record { node = node; by = Some (record { via = via; parent = parent }); prior = slice_index_or self.old.last node None } ∷ [] }
    {
        let n = self.list.len();
        // by `as`: these fit, as is required, and a conversion that could fail would need an answer for it
        self.list.push(Pair {
            node: node as u16,
            by: Some(By {
                via: via as u16,
                parent: parent as u16,
            }),
            prior: self.last[node],
        });
        self.last[node] = Some(n as u16);
    }

    // Whether a pair of node y has a set within w. Only the pairs of that node are looked at: they are a chain, from the last down.
    fn known(&self, kept: &Sets, y: usize, w: &Set) -> bool
        requires { y < most_nodes }
        ensures { (result ≡ true) ↔ Dominated (nodes self.now.list.items) (rows kept.now) (length self.now.list.items) y (whole w.now) }
    {
        let list = self.list.as_slice();
        let mut rest = self.last[y];
        while let Some(j) = rest {
            let j = usize::from(j);
            if within(&kept[j], w) {
                return true;
            }
            rest = list[j].prior;
        }
        false
    }

    // Writes the edges by which pair i was come to, and then one more: from the last to the first, and then turned round.
    fn write_way(&self, i: usize, last: usize, out: &mut EdgeRoute)
        requires { (i < length self.now.list.items) × (last < most_edges) × ((es : List ℕ) × Trail self.now.list.items i es × (length es + 1 ≤ most_nodes)) }
        ensures { (es : List ℕ) → Trail self.now.list.items i es → out.new.items ≡ es ++ last ∷ [] }
    {
        let list = self.list.as_slice();
        out.clear();
        out.push(last as u16);
        let mut j = i;
        while let Some(by) = list[j].by {
            out.push(by.via);
            j = usize::from(by.parent);
        }
        out.reverse();
    }
}

// The same as `find_route`, by the pairs. What it reads is handed on one by one: it requires no lists of the edges that end at a node.
// For each pair `kept` has its set; of what it had before nothing is read.
pub fn spread(
    edges: &[Edge],
    outs: &Links,
    fits: &Sets,
    left: &[u16; Graph::EDGES],
    a: usize,
    goal: usize,
    kept: &mut Sets,
    out: &mut EdgeRoute,
)
    requires net { Net (starts edges.now) (ends edges.now) × EdgeLists (starts edges.now) outs.now.entries 0 }
    requires ends { (a < most_nodes) × (goal < most_nodes) × (a ≢ goal) }
    ensures { FoundUnordered (starts edges.now) (ends edges.now) (rows fits.now) left.now a goal out.new.items }
{
    let mut pairs = Pairs::start(a);
    kept[0] = fits[a];
    let mut i = 0;
    // by index: the list grows while it is read
    while i < pairs.list.len() {
        let ordered = kept[i];
        for e in outs.at(usize::from(pairs.list[i].node), edges) {
            if left[e] == 0 {
                continue;
            }
            let y = usize::from(edges[e].to);
            let w = marked(fits, ordered, y);
            if has(&w, goal) {
                continue;
            }
            if y == goal {
                pairs.write_way(i, e, out);
                return;
            }
            if pairs.known(kept, y, &w) {
                continue;
            }
            if pairs.list.is_full() {
                walked_route(edges, outs, fits, left, a, goal, kept, out);
                return;
            }
            kept[pairs.list.len()] = w;
            pairs.add(y, e, i);
        }
        i += 1;
    }
    out.clear();
}
