// Whether a route may yet go on and leave its ends unordered.
#![tactic(auto)]

pub mod pairs;

ghost use Rattle.std.specs.Prelude.{◌≡◌, true, false, ◌<◌, ◌≤◌};
ghost use Rattle.graph.specs.Limits.{most_nodes};
ghost use Rattle.flags.specs.Flag.{flag};
ghost use Rattle.sets.specs.Whole.{whole, rows};
ghost use Rattle.words.specs.Words.{listed};
ghost use Rattle.hope.specs.Hope.{Into, IntoOf, Lowered, open_steps};

use graph::Graph;
use sets::{Set, both, either, has, lowest, lowest_from, none, put_in, take_out, within, without};
use step::marked;
use words::Sets;

// What a walk looks for: a way to the goal over the steps in `succ`, by the rules in `fits`. Each node in `into` is one that some rule fits
// with the goal.
#[derive(Clone, Copy)]
pub struct Aim<'a> {
    pub succ: &'a Sets,
    pub fits: &'a Sets,
    pub goal: usize,
    pub into: &'a Set,
    ghost in_bounds: { goal < most_nodes },
    ghost fits_goal: { Into (rows fits.now) goal (whole into.now) },
}

// A route so far: the nodes on it, and those that are ordered after its first node if they come next.
#[derive(Clone, Copy)]
pub struct Trail {
    pub visited: Set,
    pub after: Set,
}

// Those of the first n nodes that some rule fits with the goal.
pub fn into_set(fits: &Sets, n: usize, goal: usize) -> Set
    requires { (n ≤ most_nodes) × (goal < most_nodes) }
    ensures { IntoOf (rows fits.now) goal n (whole result) }
{
    let mut into = none();
    for (p, row) in fits[..n].iter().enumerate() {
        if has(row, goal) {
            put_in(&mut into, p);
        }
    }
    into
}

// How many nodes `hopeful` looks at before it gives up and answers true.
const ROUNDS: usize = Graph::NODES * Graph::NODES;

// Brings the rows of the nodes in `next` down to what is in m too. A node that is not in `met` has no row yet, and gets m. The nodes whose
// rows changed.
fn lower(least: &mut Sets, met: &Set, next: &Set, m: Set) -> Set
    ensures { Lowered (rows least.old) (rows least.new) (whole met.now) (whole next.now) (whole m) (whole result) }
{
    let mut done = none();
    let mut fell = none();
    while let Some(y) = lowest(next, &done) {
        if !has(met, y) {
            least[y] = m;
            put_in(&mut fell, y);
        } else if !within(&least[y], &m) {
            least[y] = both(least[y], m);
            put_in(&mut fell, y);
        }
        put_in(&mut done, y);
    }
    fell
}

// Whether a way has come to the goal and leaves it unordered.
fn came_open(least: &Sets, met: &Set, goal: usize) -> bool
    requires { goal < most_nodes }
    ensures { result ≡ false → flag (whole met.now) goal ≡ true → listed (rows least.now) goal goal ≡ true }
{
    has(met, goal) && !has(&least[goal], goal)
}

impl<'a> Aim<'a> {
    ghost use Rattle.hope.specs.Ways.{NoWay};

    // Brings the rows of the nodes that a way may go on to from x down to m, which is ordered after the first on arrival there. The nodes
    // whose rows changed.
    fn lower_on(&self, visited: &Set, least: &mut Sets, met: &Set, m: Set, x: usize) -> Set
        requires { x < most_nodes }
        ensures { Lowered (rows least.old) (rows least.new) (whole met.now) (open_steps (rows self.now.succ.now) (whole self.now.into.now) (whole visited.now) x (whole m)) (whole m) (whole result) }
    {
        let next = without(self.succ[x], either(*visited, both(m, *self.into)));
        lower(least, met, &next, m)
    }

    // Whether a route may yet go on from v to the goal and leave its ends unordered; where this is false none does. For each node in `met`
    // its row of `least` has what is ordered after the first on every way there that goes over no node on the route and none that would then
    // order the goal. The table is lent, whatever it has: a row is written before it is read, so none has to be cleared.
    pub fn hopeful(&self, trail: &Trail, least: &mut Sets, v: usize) -> bool
        requires { v < most_nodes }
        ensures { result ≡ false → NoWay self.now trail.now v }
    {
        if has(&trail.after, self.goal) {
            return false;
        }
        let mut left = self.lower_on(&trail.visited, least, &none(), trail.after, v);
        let mut met = left;
        for _round in 0..ROUNDS {
            if came_open(least, &met, self.goal) {
                return true;
            }
            let Some(x) = lowest(&left, &none()) else {
                return false;
            };
            take_out(&mut left, x);
            let m = marked(self.fits, least[x], x);
            let fell = self.lower_on(&trail.visited, least, &met, m, x);
            met = either(met, fell);
            left = either(left, fell);
        }
        true
    }

    // Whether a route that has come to v has several ways on.
    fn branches(&self, visited: &Set, v: usize) -> bool
        requires { v < most_nodes }
    {
        let next = &self.succ[v];
        lowest(next, visited).is_some_and(|k| lowest_from(next, visited, k + 1).is_some())
    }

    // Whether it is seen at v that no route goes on and leaves its ends unordered. That is looked for only if the walk is wary, once some way
    // has failed; and only where there are several ways on: one is cheaper taken than judged.
    pub fn hopeless(&self, trail: &Trail, least: &mut Sets, wary: bool, v: usize) -> bool
        requires { v < most_nodes }
        ensures { result ≡ true → NoWay self.now trail.now v }
    {
        wary && self.branches(&trail.visited, v) && !self.hopeful(trail, least, v)
    }
}
