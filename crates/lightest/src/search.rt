// The search: some cut quickly, a lightest one by branching on a route, then the list of the chosen one, edge by edge.
ghost use Rattle.std.specs.Prelude.{◌≡◌, ◌+◌, ◌<◌, ◌≤◌, MatchBool, length};
ghost use Rattle.sets.specs.Whole.{whole};
ghost use Rattle.lightest.specs.Made.{Made, cut_at, cut_by, cut_of, edges_of, most_weight};
ghost use Rattle.lightest.specs.Sets.{Least};
ghost use Rattle.lightest.specs.Search.{Fair, Levelled, Marks, Parted, Picked, costs};

use crate::pack::{bound, tightest, weight_of};
use crate::{Cut, Problem, heavier_by};
use graph::Graph;
use sets::{WideSet, has, none, put_in};
use words::Sets;

// Every cut weighs less.
const ABOVE: u32 = Graph::EDGES as u32 * 65535 + 1;

// What a level of the search keeps of a bound: the edges of the route to branch on, none where the chosen ones are a cut, and the sum.
#[derive(Clone, Copy)]
pub struct Level {
    pub route: Option<WideSet>,
    pub sum: u32,
}

// The edges of a route, as a set.
#[tactic(auto, using(crate::proofs::Flags::marks_none, crate::proofs::Flags::marks_more))]
fn edges_of(route: &[u16]) -> WideSet
    requires { Fair route.now }
    ensures { Marks route.now (length route.now) (whole result) }
{
    let mut set = none();
    for &e in route {
        put_in(&mut set, usize::from(e));
    }
    set
}

// What a level keeps of the bound on the chosen edges. It is a function by itself so that the bound's arrays are gone when the search goes deeper.
fn level_of(problem: &Problem<'_>, chosen: &WideSet, allowance: u32, kept: &mut Sets) -> Level
    requires { Made (costs problem.now) (cut_by (costs problem.now) chosen.now) × (allowance < most_weight) }
    ensures { Levelled (costs problem.now) (Parted problem.now) (cut_by (costs problem.now) chosen.now) result }
{
    let packing = bound(problem, chosen, allowance, kept);
    let route = if packing.route.is_empty() {
        None
    } else {
        Some(edges_of(&packing.route))
    };
    Level {
        route,
        sum: packing.sum,
    }
}

// Whether the first of two cuts is lighter: the sign of the difference decides.
fn lighter(weight: u32, other: u32) -> bool
    requires { (weight < most_weight) × (other < most_weight) }
    ensures { MatchBool result (weight < other) (other ≤ weight) }
{
    heavier_by(weight, other) < 0
}

// A lightest cut that has the chosen edges and weighs less than the allowance more than they do: its weight is the answer, and its edges are
// written to `best`. Where there is none, the answer is where the allowance ends, and `best` stays as it was: so the sign of a difference alone
// decides, with no flag or `Option` beside it. The chosen edges are lent, since a cut handed on by value would stand twice on each level's stack:
// in its local and in the call.
fn least(
    problem: &Problem<'_>,
    cut: &Cut,
    allowance: u32,
    kept: &mut Sets,
    best: &mut WideSet,
) -> u32
    requires { Made (costs problem.now) (cut_of cut.now) × (cut.now.weight + allowance < most_weight) }
    ensures picked { Picked (costs problem.now) (Parted problem.now) (cut_of cut.now) (cut.now.weight + allowance) (cut_at best.new result) }
    ensures best_unchanged { result ≡ cut.now.weight + allowance → best.new ≡ best.old }
{
    let mut found = cut.weight + allowance;
    let level = level_of(problem, &cut.chosen, allowance, kept);
    if allowance <= level.sum {
        return found;
    }
    let Some(route) = &level.route else {
        *best = cut.chosen;
        return cut.weight;
    };
    for (e, edge) in problem.net.edges.iter().enumerate() {
        let w = u32::from(weight_of(edge));
        if has(route, e) && cut.weight + w < found {
            let next = cut.with_edge(e, w);
            let more = found - next.weight;
            let c = least(problem, &next, more, kept, best);
            if lighter(c, found) {
                found = c;
                if found == cut.weight + level.sum {
                    return found;
                }
            }
        }
    }
    found
}

// A cut, found quickly: of a route that the edges so far miss it takes the edge of which the whole packing leaves the least. An allowance of 1
// ends a bound with its first route.
fn first_cut(problem: &Problem<'_>, left: &[u16; Graph::EDGES], kept: &mut Sets) -> Cut
    ensures { Made (costs problem.now) (cut_of result) × Parted problem.now (edges_of result.chosen) }
{
    let mut cut = Cut::empty();
    loop {
        let packing = bound(problem, &cut.chosen, 1, kept);
        let Some(e) = tightest(&packing.route, left) else {
            return cut;
        };
        cut = cut.with_edge(e, u32::from(weight_of(&problem.net.edges[e])));
    }
}

// The chosen cut: first some cut, then a lightest one, then its list, edge by edge: an earlier edge is taken where some cut as light goes on
// from it. The table is lent to the search, whatever it has.
pub fn best(problem: &Problem<'_>, kept: &mut Sets) -> Cut
    ensures made { Made (costs problem.now) (cut_of result) }
    ensures least { Least (costs problem.now) (Parted problem.now) (edges_of result.chosen) }
{
    let empty = Cut::empty();
    let packing = bound(problem, &empty.chosen, ABOVE, kept);
    let first = first_cut(problem, &packing.left, kept);
    let mut chosen = first.chosen;
    let weight = least(problem, &empty, first.weight, kept, &mut chosen);
    let slack = weight - packing.sum;
    let mut fixed = empty;
    for (e, edge) in problem.net.edges.iter().enumerate() {
        let w = u32::from(weight_of(edge));
        if has(&chosen, e) {
            fixed = fixed.with_edge(e, w);
        } else if fixed.weight + w <= weight && u32::from(packing.left[e]) <= slack {
            let next = fixed.with_edge(e, w);
            let more = weight + 1 - next.weight;
            let found = least(problem, &next, more, kept, &mut chosen);
            if found <= weight {
                fixed = next;
            }
        }
    }
    Cut { chosen, weight }
}
