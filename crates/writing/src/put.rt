// Records put into a buffer: each says which bytes, and where the next goes.
ghost use mathlib.Core.List.{flat_map};
ghost use Rattle.std.specs.Prelude.{◌≡◌, [], ◌∷◌, ◌+◌, ◌*◌, ◌≤◌, ℕ, List, length};
ghost use Rattle.graph.specs.declared.Side.TheVariants.{Is};
ghost use Rattle.request.specs.File.{two, node_bytes, edge_bytes, side_bytes, rule_bytes, order_bytes};
ghost use Rattle.writing.specs.Write.{Written};

use graph::{Edge, Label, Node, Order, Rule, Side};
use request::Kind;

// The bytes, from an offset on.
pub fn put(out: &mut [u8], at: usize, bytes: &[u8]) -> usize
    requires { at + length bytes.now ≤ length out.old }
    ensures end { result ≡ at + length bytes.now }
    ensures written { Written out.old out.new at result bytes.now }
{
    let end = at + bytes.len();
    out[at..end].copy_from_slice(bytes);
    end
}

// A number's two bytes, the low one first.
#[tactic(auto, using(crate::proofs::Writing::low_bytes))]
fn low_first(n: u16) -> [u8; 2]
    ensures { result ≡ two n }
{
    n.to_le_bytes()
}

// What stands in a file as a record.
pub trait AsBytes {
    ghost width: { ℕ };

    ghost bytes: { Self → List ℕ };

    fn put_at(&self, out: &mut [u8], at: usize) -> usize
        requires { at + width ≤ length out.old }
        ensures end { result ≡ at + width }
        ensures written { Written out.old out.new at result (bytes self.now) };
}

// A label's kind, as files number them, and its address.
fn coded(label: Label) -> [u8; 2]
    ensures node { node_bytes label ≡ 78 ∷ 68 ∷ result }
    ensures side { side_bytes (Is label) ≡ result }
{
    match label {
        Label::Store(x) => [Kind::Store.code(), x],
        Label::Load(x) => [Kind::Load.code(), x],
        Label::Fence => [Kind::Fence.code(), 0],
    }
}

// A side's kind and its variable.
fn coded_side(side: Side) -> [u8; 2]
    ensures { side_bytes side ≡ result }
{
    match side {
        Side::Any => [Kind::Any.code(), 0],
        Side::Is(label) => coded(label),
    }
}

impl AsBytes for Node {
    ghost width = { 4 };

    ghost bytes = { λ n. node_bytes n.label };

    fn put_at(&self, out: &mut [u8], at: usize) -> usize {
        let [kind, address] = coded(self.label);
        put(out, at, &[b'N', b'D', kind, address])
    }
}

impl AsBytes for Edge {
    ghost width = { 8 };

    ghost bytes = { edge_bytes };

    fn put_at(&self, out: &mut [u8], at: usize) -> usize {
        let [a, b] = low_first(self.from);
        let [c, d] = low_first(self.to);
        let [e, f] = low_first(self.weight);
        put(out, at, &[b'E', b'D', a, b, c, d, e, f])
    }
}

impl AsBytes for Rule {
    ghost width = { 6 };

    ghost bytes = { rule_bytes };

    fn put_at(&self, out: &mut [u8], at: usize) -> usize {
        let [a, b] = coded_side(self.left);
        let [c, d] = coded_side(self.right);
        put(out, at, &[b'R', b'U', a, b, c, d])
    }
}

impl AsBytes for Order {
    ghost width = { 6 };

    ghost bytes = { order_bytes };

    fn put_at(&self, out: &mut [u8], at: usize) -> usize {
        let [a, b] = low_first(self.first);
        let [c, d] = low_first(self.second);
        put(out, at, &[b'O', b'R', a, b, c, d])
    }
}

// The records one after the other.
pub fn put_all<R: AsBytes>(out: &mut [u8], at: usize, records: &[R]) -> usize
    requires { at + length records.now * R.width ≤ length out.old }
    ensures end { result ≡ at + length records.now * R.width }
    ensures written { Written out.old out.new at result (flat_map R.bytes records.now) }
{
    let mut next = at;
    for record in records {
        next = record.put_at(out, next);
    }
    next
}
