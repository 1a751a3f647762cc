// A graph of stores, loads and fences, with its rules and its orders.
#![tactic(auto)]

ghost use Rattle.std.specs.Prelude.{◌≡◌, []};
ghost use Rattle.graph.specs.Tests.{want_of, fit_of, ruledb};
ghost use Rattle.graph.specs.Graph.{no_graph};
ghost use Rattle.graph.specs.Value.{graph_of, rules_of, orders_of};

use short_list::ShortList;

// The defaults of these types are blanks: they stand in the unused places of the lists.

// What a node does, and to which address; in a rule's side the number is a variable.
#[derive(Clone, Copy, Default, PartialEq, Eq)]
pub enum Label {
    Store(u8),
    Load(u8),
    #[default]
    Fence,
}

// A rule's side: the wildcard, or a label whose address is a variable.
// No `Option`: the wildcard is a side that stands in the rule, not a side that is missing.
#[derive(Clone, Copy, Default)]
pub enum Side {
    #[default]
    Any,
    Is(Label),
}

#[derive(Clone, Copy, Default)]
pub struct Rule {
    pub left: Side,
    pub right: Side,
}

#[derive(Clone, Copy, Default)]
pub struct Node {
    pub label: Label,
}

#[derive(Clone, Copy, Default)]
pub struct Edge {
    pub from: u16,
    pub to: u16,
    pub weight: u16,
}

#[derive(Clone, Copy, Default)]
pub struct Order {
    pub first: u16,
    pub second: u16,
}

#[derive(Clone, Copy)]
pub struct Graph {
    pub nodes: ShortList<Node, { Graph::NODES }>,
    pub edges: ShortList<Edge, { Graph::EDGES }>,
    pub rules: ShortList<Rule, { Graph::RULES }>,
    pub orders: ShortList<Order, { Graph::ORDERS }>,
}

impl Graph {
    pub const NODES: usize = 512;

    pub const EDGES: usize = 1024;

    pub const RULES: usize = 32;

    pub const ORDERS: usize = 32;

    pub fn empty() -> Self
        ensures { (graph_of result ≡ no_graph) × (rules_of result ≡ []) × (orders_of result ≡ []) }
    {
        Graph {
            nodes: ShortList::new(),
            edges: ShortList::new(),
            rules: ShortList::new(),
            orders: ShortList::new(),
        }
    }
}

// What a side wants of a label: it never matches, it matches freely, or a variable has to have an address.
#[derive(Clone, Copy)]
pub enum Want {
    Never,
    Free,
    Var(u8, u8),
}

impl Side {
    pub fn wants(self, l: Label) -> Want
        ensures { result ≡ want_of self l }
    {
        match (self, l) {
            (Side::Any, _) => Want::Free,
            (Side::Is(Label::Store(x)), Label::Store(a)) => Want::Var(x, a),
            (Side::Is(Label::Load(x)), Label::Load(a)) => Want::Var(x, a),
            (Side::Is(Label::Fence), Label::Fence) => Want::Free,
            _ => Want::Never,
        }
    }
}

impl Rule {
    // Whether the rule fits two labels.
    pub fn fits(self, p: Label, q: Label) -> bool
        ensures { result ≡ fit_of self p q }
    {
        match (self.left.wants(p), self.right.wants(q)) {
            (Want::Never, _) => false,
            (_, Want::Never) => false,
            (Want::Var(x, m), Want::Var(y, n)) => if x == y { m == n } else { true },
            _ => true,
        }
    }
}

// Whether at least one of these rules fits two labels.
pub fn some_fits(rules: &[Rule], p: Label, q: Label) -> bool
    ensures { result ≡ ruledb rules.now p q }
{
    rules.iter().any(|rule| rule.fits(p, q))
}
