// The lightest set of edges that keeps pairs of nodes apart, and of those the one whose rising list of edge numbers comes first.
#![tactic(auto)]

ghost use Rattle.std.specs.Prelude.{◌≡◌, true, false, ◌+◌, ◌<◌, set, replicate, pos, ◌-ℤ◌};
ghost use Rattle.graph.specs.Limits.{most_edges};
ghost use Rattle.route.specs.Way.{starts, ends, weights};
ghost use Rattle.lightest.specs.Apart.{Posed, firsts, seconds};
ghost use Rattle.lightest.specs.Made.{edges_of, most_weight};

use graph::{Graph, Order};
use sets::{WideSet, has, none, put_in};
use std::array;
use unordered::Linked;

mod pack;
pub mod search;

pub use search::best;

// A set of edges and its weight.
#[derive(Clone, Copy)]
pub struct Cut {
    pub chosen: WideSet,
    pub weight: u32,
}

impl Cut {
    #[tactic(auto, using(crate::proofs::Flags::flags_none))]
    pub fn empty() -> Self
        ensures { (result.weight ≡ 0) × (edges_of result.chosen ≡ replicate most_edges false) }
    {
        Cut {
            chosen: none(),
            weight: 0,
        }
    }

    #[tactic(auto, using(crate::proofs::Flags::flags_set))]
    pub fn with_edge(mut self, e: usize, w: u32) -> Self
        requires { (e < most_edges) × (self.weight + w < most_weight) }
        ensures { (edges_of result.chosen ≡ set (edges_of self.chosen) e true) × (result.weight ≡ self.weight + w) }
    {
        put_in(&mut self.chosen, e);
        self.weight += w;
        self
    }

    // A flag for each edge number.
    pub fn flags(self) -> [bool; Graph::EDGES]
        ensures { result ≡ edges_of self.chosen }
    {
        array::from_fn(|e| has(&self.chosen, e))
    }
}

// A graph, and the pairs of nodes that are to be kept apart: the ends of open orders.
#[derive(Clone, Copy)]
pub struct Problem<'a> {
    pub net: Linked<'a>,
    pub pairs: &'a [Order],
    ghost posed: { Posed (starts net.edges.now) (ends net.edges.now) net.ins.now.entries net.outs.now.entries (weights net.edges.now) (firsts pairs.now) (seconds pairs.now) },
}

// How much more the first of two weights is than the second: negative where it is less.
pub fn heavier_by(weight: u32, other: u32) -> i64
    requires { (weight < most_weight) × (other < most_weight) }
    ensures { result ≡ pos weight -ℤ pos other }
{
    i64::from(weight) - i64::from(other)
}
