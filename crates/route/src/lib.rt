// Finds a route with the fewest edges, node by node from its end.
#![tactic(auto)]

ghost use Rattle.std.specs.Prelude.{◌≢◌, ◌≡◌, ℕ, ◌+◌, ◌-◌, ◌<◌, ◌≤◌, length, get_or, MatchOption, false, List, slice_set, cond};
ghost use Rattle.std.specs.Fn.{FnReturnsAt};
ghost use Rattle.std.specs.Iterator.{at_most};
ghost use Rattle.graph.specs.Graph.{no_edge};
ghost use Rattle.graph.specs.Limits.{most_nodes, most_edges};
ghost use Rattle.route.specs.Linked.{Rising};
ghost use Rattle.route.specs.Spread.{miss};
ghost use Rattle.route.specs.Way.{Net, EdgeLists, Found, Sealed, starts, ends};

use graph::{Edge, Graph};
use short_list::ShortList;

// The edges at each node, as lists: an entry for each node has the first of them, and after these an entry for each edge has the next one at
// its node. The number of edges says that there is none. By their ends these are the edges that lead to a node, by their starts those that
// leave it.
#[derive(Clone, Copy)]
pub struct Links {
    // Numbers, and no options: these are read for each edge of each search, and options would take twice the room.
    // Both tables in one array: `EdgeLists` reads them so.
    pub entries: [u16; Graph::NODES + Graph::EDGES],
}

// The edges of a route by their numbers, in order.
pub type EdgeRoute = ShortList<u16, { Graph::NODES }>;

// The edges at one node, from the first on.
#[derive(Drop)]
pub struct AtNode<'a> {
    links: &'a Links,
    count: usize,
    next: usize,
    ghost few: { count ≤ most_edges },
    ghost rising: { Rising links.now.entries count },
}

impl<'a> Iterator for AtNode<'a> {
    type Item = usize;

    ghost next_gives = { λ s r t. (t.links ≡ s.links) × (t.count ≡ s.count) × MatchOption r ((s.count ≤ s.next) × (t.next ≡ s.next)) (λ e. (e ≡ s.next) × (e < s.count) × (t.next ≡ get_or s.links.now.entries (most_nodes + e) 0)) };

    ghost remaining = { λ s. at_most (s.count - s.next) };

    fn next(&mut self) -> Option<usize> {
        let e = self.next;
        if e < self.count {
            self.next = usize::from(self.links.entries[Graph::NODES + e]);
            Some(e)
        } else {
            None
        }
    }
}

impl Links {
    #[tactic(auto, using(crate::proofs::Listed::ends_all, crate::proofs::Listed::end_of))]
    pub fn by_ends(edges: &[Edge]) -> Self
        requires { (length edges.now ≤ most_edges) × ((e : ℕ) → e < length edges.now → get_or (ends edges.now) e 0 < most_nodes) }
        ensures { EdgeLists (ends edges.now) result.entries 0 }
    {
        link(edges, |edge| edge.to)
    }

    #[tactic(auto, using(crate::proofs::Listed::starts_all, crate::proofs::Listed::start_of))]
    pub fn by_starts(edges: &[Edge]) -> Self
        requires { (length edges.now ≤ most_edges) × ((e : ℕ) → e < length edges.now → get_or (starts edges.now) e 0 < most_nodes) }
        ensures { EdgeLists (starts edges.now) result.entries 0 }
    {
        link(edges, |edge| edge.from)
    }

    // Edge e goes before those at v.
    fn put(&mut self, e: usize, v: usize)
        requires { (e < most_edges) × (v < most_nodes) }
        ensures { self.new.entries ≡ slice_set (slice_set self.old.entries (most_nodes + e) (get_or self.old.entries v 0)) v e }
    {
        self.entries[Graph::NODES + e] = self.entries[v];
        // by `as`, here and below: it is proved to fit, and `try_from` would answer an error that cannot come
        self.entries[v] = e as u16;
    }

    // The edges at v, of these.
    pub fn at(&self, v: usize, edges: &[Edge]) -> AtNode<'_>
        requires node { v < most_nodes }
        requires few { length edges.now ≤ most_edges }
        requires rising { Rising self.now.entries (length edges.now) }
        ensures { (result.links.now ≡ self.now) × (result.count ≡ length edges.now) × (result.next ≡ get_or self.now.entries v 0) }
    {
        AtNode {
            links: self,
            count: edges.len(),
            next: usize::from(self.entries[v]),
        }
    }
}

// The lists of the edges by the node that `at` says of each. From the last edge down: each goes before those at the same node.
fn link<F: Fn(&Edge) -> u16>(edges: &[Edge], at: F) -> Links
    requires callable { F.IsAlwaysCallable at }
    requires few { length edges.now ≤ most_edges }
    requires within { (e v : ℕ) → e < length edges.now → FnReturnsAt F.Fn at (get_or edges.now e no_edge) v → v < most_nodes }
    ensures { (nodes : List ℕ) → length nodes ≡ length edges.now → ((e v : ℕ) → e < length edges.now → FnReturnsAt F.Fn at (get_or edges.now e no_edge) v → v ≡ get_or nodes e 0) → EdgeLists nodes result.entries 0 }
{
    let mut l = Links {
        entries: [edges.len() as u16; Graph::NODES + Graph::EDGES],
    };
    for (e, edge) in edges.iter().enumerate().rev() {
        l.put(e, usize::from(at(edge)));
    }
    l
}

// How a node goes on to the goal.
#[derive(Clone, Copy)]
enum Onward {
    // not at all, as far as is known
    Unreached,
    // it is the goal
    Here,
    // by this edge
    By(u16),
}

impl Onward {
    fn is_reached(self) -> bool
        ensures { miss self ≡ cond result 0 1 }
    {
        !matches!(self, Onward::Unreached)
    }
}

// Whether something is left of an edge that ends at the goal.
fn ends_left(edges: &[Edge], ins: &Links, left: &[u16; Graph::EDGES], goal: usize) -> bool
    requires { (length edges.now ≤ most_edges) × (goal < most_nodes) × EdgeLists (ends edges.now) ins.now.entries 0 }
    ensures { result ≡ false → Sealed (ends edges.now) left.now goal }
{
    ins.at(goal, edges).any(|e| 0 < left[e])
}

// A route with the fewest edges from a to goal on which no edge is gone: an edge with nothing left is. Its edges are left in `out`, none where
// there is no route. Nodes are reached backwards, in the order of their distance to the goal, and until the route is written `out` has those
// that are reached. What is lent may have anything.
// The empty list, and no option, says that there is no route: a route has an edge, as a and goal differ. The list is lent, since to give it by
// value costs more.
pub fn find_route(
    edges: &[Edge],
    ins: &Links,
    left: &[u16; Graph::EDGES],
    a: usize,
    goal: usize,
    out: &mut EdgeRoute,
)
    requires net { Net (starts edges.now) (ends edges.now) × EdgeLists (ends edges.now) ins.now.entries 0 }
    requires ends { (a < most_nodes) × (goal < most_nodes) × (a ≢ goal) }
    ensures { Found (starts edges.now) (ends edges.now) left.now a goal out.new.items }
{
    out.clear();
    if !ends_left(edges, ins, left, goal) {
        return;
    }
    let mut on = [Onward::Unreached; Graph::NODES];
    on[goal] = Onward::Here;
    out.push(goal as u16);
    // by index: the queue grows while it is read
    let mut i = 0;
    while i < out.len() && !on[a].is_reached() {
        for e in ins.at(usize::from(out[i]), edges) {
            if left[e] != 0 {
                let v = usize::from(edges[e].from);
                if !on[v].is_reached() {
                    on[v] = Onward::By(e as u16);
                    out.push(edges[e].from);
                }
            }
        }
        i += 1;
    }
    out.clear();
    let mut at = a;
    while let Onward::By(by) = on[at] {
        out.push(by);
        at = usize::from(edges[usize::from(by)].to);
    }
}
