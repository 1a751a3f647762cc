// The records of an accepted file as values.
ghost use Rattle.std.specs.Prelude.{◌≡◌, ℕ, ◌+◌, ◌*◌, ◌≤◌, List, [], length};
ghost use Rattle.request.specs.declared.Mark.{Mark};
ghost use Rattle.request.specs.declared.Mark.TheVariants.{Ed, Nd, Or, Ru};
ghost use Rattle.request.specs.Decode.{label_of, node_in, read_at, rule_in, side_of, table};
ghost use Rattle.request.specs.Layout.{counted, start_of, width};
ghost use Rattle.request.specs.Tables.{KindOf};

use super::Mark;
use super::bad::two_at;
use super::kinds::Kind;
use super::layout::Laid;
use graph::{Edge, Label, Node, Order, Rule, Side};
use short_list::ShortList;

// Any other kind is a fence's: the file is an accepted one.
fn label(kind: Option<Kind>, address: u8) -> Label
    ensures { (byte : ℕ) → KindOf byte kind → result ≡ label_of byte address }
{
    match kind {
        Some(Kind::Store) => Label::Store(address),
        Some(Kind::Load) => Label::Load(address),
        _ => Label::Fence,
    }
}

// Any kind but the wildcard is a label's, likewise.
fn side(kind: Option<Kind>, variable: u8) -> Side
    ensures { (byte : ℕ) → KindOf byte kind → result ≡ side_of byte variable }
{
    match kind {
        Some(Kind::Any) => Side::Any,
        _ => Side::Is(label(kind, variable)),
    }
}

// What a record of a mark is as a value.
pub trait Record: Copy {
    ghost MARK: { Mark };

    const MARK: Mark;

    ghost in_file: { List ℕ → ℕ → Self };

    // The record at an offset.
    fn at(file: &[u8], at: usize) -> Self
        requires { at + width MARK ≤ length file.now }
        ensures { result ≡ in_file file.now at };
}

impl Record for Node {
    ghost MARK = { Nd };

    const MARK: Mark = Mark::Nd;

    ghost in_file = { node_in };

    fn at(file: &[u8], at: usize) -> Node {
        Node {
            label: label(Kind::of(file[at + 2]), file[at + 3]),
        }
    }
}

impl Record for Edge {
    ghost MARK = { Ed };

    const MARK: Mark = Mark::Ed;

    ghost in_file = { read_at Ed };

    fn at(file: &[u8], at: usize) -> Edge {
        Edge {
            from: two_at(file, at + 2),
            to: two_at(file, at + 4),
            weight: two_at(file, at + 6),
        }
    }
}

impl Record for Rule {
    ghost MARK = { Ru };

    const MARK: Mark = Mark::Ru;

    ghost in_file = { rule_in };

    fn at(file: &[u8], at: usize) -> Rule {
        Rule {
            left: side(Kind::of(file[at + 2]), file[at + 3]),
            right: side(Kind::of(file[at + 4]), file[at + 5]),
        }
    }
}

impl Record for Order {
    ghost MARK = { Or };

    const MARK: Mark = Mark::Or;

    ghost in_file = { read_at Or };

    fn at(file: &[u8], at: usize) -> Order {
        Order {
            first: two_at(file, at + 2),
            second: two_at(file, at + 4),
        }
    }
}

impl Laid<'_> {
    // Fills a list with the records of a mark.
    pub fn fill<R: Record, const N: usize>(&self, list: &mut ShortList<R, N>)
        requires { (list.old.items ≡ []) × (counted self.now.counts R.MARK ≤ N) }
        ensures { list.new.items ≡ table R.in_file (width R.MARK) self.now.file.now (start_of self.now.counts R.MARK) (counted self.now.counts R.MARK) }
    {
        // by number: the bytes of record i stand at a computed offset
        for i in 0..self.counts.of(R::MARK) {
            list.push(R::at(self.file, self.at(R::MARK, i)));
        }
    }
}
