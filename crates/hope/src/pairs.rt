// A sharper test than `hopeful`, and a slower one: all the nodes that a route can still come to, each paired with what is then ordered
// after the first. Routes may be taken for walks here: one that comes back to a node has no less ordered than one that doesn't.
ghost use Rattle.std.specs.Prelude.{◌≡◌, true, false, ◌<◌, length};
ghost use Rattle.graph.specs.Limits.{most_nodes};
ghost use Rattle.sets.specs.Whole.{whole, rows};
ghost use Rattle.hope.specs.Hope.{Dominated};
ghost use Rattle.hope.specs.Ways.{NoWay};

use crate::{Aim, Trail};
use arrayvec::ArrayVec;
use graph::Graph;
use sets::{Set, has, lowest, put_in, with, within};
use step::marked;
use words::Sets;

// How many pairs `some_way` keeps before it gives up and answers true.
pub const PAIRS: usize = Graph::NODES;

// Whether one of the pairs has this node, and a set within w: what goes on from (y, w) then goes on from that pair too.
// By a scan: the list lasts for one call only, and its sets stand in the lent table.
fn known(nodes: &[usize], kept: &Sets, y: usize, w: &Set) -> bool
    ensures { result ≡ true → Dominated nodes.now (rows kept.now) (length nodes.now) y (whole w.now) }
{
    nodes
        .iter()
        .zip(kept)
        .any(|(node, set)| *node == y && within(set, w))
}

impl<'a> Aim<'a> {
    // Whether some way on from v to the goal leaves the ends unordered; where this is false none does. The table is lent for the sets of the
    // pairs, whatever it has.
    fn some_way(&self, trail: &Trail, kept: &mut Sets, v: usize) -> bool
        requires { v < most_nodes }
        ensures { result ≡ false → NoWay self.now trail.now v }
    {
        let mut nodes: ArrayVec<usize, PAIRS> = ArrayVec::new();
        nodes.push(v);
        kept[0] = trail.after;
        let mut i = 0;
        // by index: the list grows while it is read
        while i < nodes.len() {
            let next = &self.succ[nodes[i]];
            let ordered = kept[i];
            let mut tried = trail.visited;
            while let Some(y) = lowest(next, &tried) {
                let w = marked(self.fits, ordered, y);
                if !has(&w, self.goal) {
                    if y == self.goal {
                        return true;
                    }
                    if !known(&nodes, kept, y, &w) {
                        if nodes.is_full() {
                            return true;
                        }
                        kept[nodes.len()] = w;
                        nodes.push(y);
                    }
                }
                put_in(&mut tried, y);
            }
            i += 1;
        }
        false
    }

    // Whether no way on from v is left, asked once the way over k has failed. It is worth a look only where there are other ways: a short one
    // if the walk was not wary and so came here without, and a longer one if `hopeful` doesn't see that failure.
    pub fn lost(&self, trail: &Trail, scratch: &mut Sets, wary: bool, v: usize, k: usize) -> bool
        requires { (v < most_nodes) × (k < most_nodes) }
        ensures { result ≡ true → NoWay self.now trail.now v }
    {
        if !self.branches(&trail.visited, v) {
            return false;
        }
        if !wary && !self.hopeful(trail, scratch, v) {
            return true;
        }
        let longer = Trail {
            visited: with(trail.visited, k),
            after: marked(self.fits, trail.after, k),
        };
        self.hopeful(&longer, scratch, k) && !self.some_way(trail, scratch, v)
    }
}
