// The sets of a graph, that the walk goes by.
#![tactic(auto)]

ghost use Rattle.std.specs.Prelude.{◌≡◌, true, false, ◌↔◌, ℕ, ◌<◌, ◌≤◌, length};
ghost use Rattle.flags.specs.Flag.{flag};
ghost use Rattle.graph.specs.Tests.{want_of};
ghost use Rattle.graph.specs.Limits.{most_nodes, most_edges, most_rules};
ghost use Rattle.graph.specs.Value.{Ends};
ghost use Rattle.sets.specs.Whole.{whole, rows};
ghost use Rattle.words.specs.Words.{listed, Led, label_at, fit_in};
ghost use Rattle.words.specs.Rows.{matchb, nearb, namesb, part, RowOf, Rights};

use graph::{Edge, Graph, Label, Node, Rule, Side, Want};
use sets::{Set, both, either, none, put_in};

// A set for each node.
pub type Sets = [Set; Graph::NODES];

// Whether a side matches a label, whatever its variable stands for.
fn matches(side: Side, l: Label) -> bool
    ensures { result ≡ matchb (want_of side l) }
{
    !matches!(side.wants(l), Want::Never)
}

// Whether two labels have one address.
fn near(l: Label, m: Label) -> bool
    ensures { result ≡ nearb l m }
{
    match (l, m) {
        (Label::Store(a) | Label::Load(a), Label::Store(b) | Label::Load(b)) => a == b,
        _ => false,
    }
}

// Whether a side has the variable x.
fn names(side: Side, x: u8) -> bool
    ensures { result ≡ namesb side x }
{
    match side {
        Side::Is(Label::Store(y) | Label::Load(y)) => x == y,
        _ => false,
    }
}

// The nodes whose label passes a test.
fn labelled<F: Fn(Label) -> bool>(nodes: &[Node], test: F) -> Set
    requires { (length nodes.now ≤ most_nodes) × F.IsAlwaysCallable test }
    ensures among { (q : ℕ) → q < length nodes.now → F.post test (label_at nodes.now q) (flag (whole result) q) }
    ensures past { (q : ℕ) → length nodes.now ≤ q → flag (whole result) q ≡ false }
{
    let mut set = none();
    for (q, node) in nodes.iter().enumerate() {
        if test(node.label) {
            put_in(&mut set, q);
        }
    }
    set
}

// The nodes that a rule fits with one labelled l: `right` has those that its right side matches, `close` those at l's address.
fn fitted(rule: Rule, l: Label, right: Set, close: Set) -> Set
    ensures { (q : ℕ) → flag (whole result) q ≡ part (want_of rule.left l) rule.right (flag (whole right) q) (flag (whole close) q) }
{
    match rule.left.wants(l) {
        Want::Never => none(),
        Want::Var(x, _) if names(rule.right, x) => both(right, close),
        _ => right,
    }
}

// The nodes that some rule fits with one labelled l: `rights` has for each rule the nodes that its right side matches.
fn row_of(rights: &[Set; Graph::RULES], rules: &[Rule], l: Label, close: Set) -> Set
    requires { length rules.now ≤ most_rules }
    ensures { RowOf (rows rights.now) rules.now l (whole close) (length rules.now) (whole result) }
{
    let mut row = none();
    // by index beside the rules: the array is longer than their list
    for (i, rule) in rules.iter().enumerate() {
        // named first: storing this call's result straight back is not covered by the check
        let more = either(row, fitted(*rule, l, rights[i], close));
        row = more;
    }
    row
}

// For each rule the nodes that its right side matches.
fn rights_of(nodes: &[Node], rules: &[Rule]) -> [Set; Graph::RULES]
    requires { (length nodes.now ≤ most_nodes) × (length rules.now ≤ most_rules) }
    ensures { Rights nodes.now rules.now (length rules.now) (rows result) }
{
    let mut rights = [none(); Graph::RULES];
    // by index: the entries past the list stay empty
    for (i, rule) in rules.iter().enumerate() {
        rights[i] = labelled(nodes, |l| matches(rule.right, l));
    }
    rights
}

// For each node those such that one of the rules fits their labels.
pub fn fits_of(nodes: &[Node], rules: &[Rule]) -> Sets
    requires { (length nodes.now ≤ most_nodes) × (length rules.now ≤ most_rules) }
    ensures { (p q : ℕ) → listed (rows result) p q ≡ fit_in nodes.now rules.now p q }
{
    let rights = rights_of(nodes, rules);
    let mut words = [none(); Graph::NODES];
    // by index: the entries past the list stay empty
    for (p, node) in nodes.iter().enumerate() {
        let close = labelled(nodes, |m| near(node.label, m));
        words[p] = row_of(&rights, rules, node.label, close);
    }
    words
}

// For each node the set of the nodes that an edge leads to.
pub fn succ_of(edges: &[Edge]) -> Sets
    requires { (length edges.now ≤ most_edges) × Ends edges.now }
    ensures { (p q : ℕ) → (listed (rows result) p q ≡ true) ↔ Led edges.now (length edges.now) p q }
{
    let mut words = [none(); Graph::NODES];
    for edge in edges {
        let from = usize::from(edge.from);
        let to = usize::from(edge.to);
        put_in(&mut words[from], to);
    }
    words
}
