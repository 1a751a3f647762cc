// What is wrong with a record.
ghost use Rattle.std.specs.Prelude.{◌≡◌, ℕ, ◌+◌, ◌*◌, ◌<◌, ◌≤◌, leb, length};
ghost use Rattle.request.specs.declared.Mark.TheVariants.{Ed, Or};
ghost use Rattle.request.specs.Layout.{counted, start_of, width};
ghost use Rattle.request.specs.Tables.{KindOf, PairAt, bad_edge, bad_left, bad_node, bad_order, bad_record, bad_right, bad_rule, repeated, same_pair, two_at};

use super::Mark;
use super::kinds::Kind;
use super::layout::Laid;

// The number of two bytes at an offset, the low one first.
pub fn two_at(file: &[u8], at: usize) -> u16
    requires { at + 2 ≤ length file.now }
    ensures { result ≡ two_at file.now at }
{
    u16::from_le_bytes([file[at], file[at + 1]])
}

// The pair of numbers that the record at an offset begins with, as one number: this is compared most often.
fn pair_at(file: &[u8], at: usize) -> u32
    requires { at + 6 ≤ length file.now }
    ensures { PairAt file.now at result }
{
    u32::from_le_bytes([file[at + 2], file[at + 3], file[at + 4], file[at + 5]])
}

// Whether the records at two offsets begin with the same pair of numbers.
#[tactic(auto, using(crate::proofs::Repeated::pairs_told))]
fn same_pair(file: &[u8], p: usize, q: usize) -> bool
    requires { (p + 6 ≤ length file.now) × (q + 6 ≤ length file.now) }
    ensures { result ≡ same_pair file.now p q }
{
    pair_at(file, p) == pair_at(file, q)
}

#[tactic(auto, unfolding(crate::specs::Tables::bad_node))]
fn bad_node(file: &[u8], at: usize) -> bool
    requires { at + 4 ≤ length file.now }
    ensures { result ≡ bad_node file.now at }
{
    match Kind::of(file[at + 2]) {
        Some(Kind::Store | Kind::Load) => false,
        Some(Kind::Fence) => file[at + 3] != 0,
        _ => true,
    }
}

// The left side and the right by themselves, as the definition has them: they differ in which variables are allowed.
#[tactic(auto, unfolding(crate::specs::Tables::bad_left))]
fn bad_left(kind: Option<Kind>, variable: u8) -> bool
    ensures { (byte : ℕ) → KindOf byte kind → result ≡ bad_left byte variable }
{
    match kind {
        Some(Kind::Store | Kind::Load) => variable != 1,
        Some(Kind::Fence | Kind::Any) => variable != 0,
        None => true,
    }
}

#[tactic(auto, unfolding(crate::specs::Tables::bad_right))]
fn bad_right(left: Option<Kind>, kind: Option<Kind>, variable: u8) -> bool
    ensures { (l byte : ℕ) → KindOf l left → KindOf byte kind → result ≡ bad_right l byte variable }
{
    match kind {
        Some(Kind::Store | Kind::Load) => variable != 1
            && !(variable == 2 && left.is_some_and(Kind::has_variable)),
        Some(Kind::Fence | Kind::Any) => variable != 0,
        None => true,
    }
}

#[tactic(auto, unfolding(crate::specs::Tables::bad_rule))]
fn bad_rule(file: &[u8], at: usize) -> bool
    requires { at + 6 ≤ length file.now }
    ensures { result ≡ bad_rule file.now at }
{
    let left = Kind::of(file[at + 2]);
    bad_left(left, file[at + 3]) || bad_right(left, Kind::of(file[at + 4]), file[at + 5])
}

impl Laid<'_> {
    // Whether a number is that of no node.
    fn no_node(&self, n: u16) -> bool
        ensures { result ≡ leb self.now.counts.nodes n }
    {
        self.counts.nodes <= usize::from(n)
    }

    // Whether record i of a mark begins with the pair of an earlier one.
    fn repeats(&self, mark: Mark, i: usize) -> bool
        requires { (6 ≤ width mark) × (i < counted self.now.counts mark) }
        ensures { result ≡ repeated self.now.file.now (start_of self.now.counts mark) (width mark) i }
    {
        let at = self.at(mark, i);
        (0..i).any(|j| same_pair(self.file, self.at(mark, j), at))
    }

    #[tactic(auto, unfolding(crate::specs::Tables::bad_edge))]
    fn bad_edge(&self, i: usize) -> bool
        requires { i < self.now.counts.edges }
        ensures { result ≡ bad_edge self.now.file.now self.now.counts.nodes (start_of self.now.counts Ed) i }
    {
        let at = self.at(Mark::Ed, i);
        self.no_node(two_at(self.file, at + 2))
            || self.no_node(two_at(self.file, at + 4))
            || two_at(self.file, at + 6) == 0
            || self.repeats(Mark::Ed, i)
    }

    #[tactic(auto, unfolding(crate::specs::Tables::bad_order))]
    fn bad_order(&self, i: usize) -> bool
        requires { i < self.now.counts.orders }
        ensures { result ≡ bad_order self.now.file.now self.now.counts.nodes (start_of self.now.counts Or) i }
    {
        let at = self.at(Mark::Or, i);
        let first = two_at(self.file, at + 2);
        let second = two_at(self.file, at + 4);
        self.no_node(first) || self.no_node(second) || first == second || self.repeats(Mark::Or, i)
    }

    // Whether record i of a mark is wrong.
    pub fn bad(&self, mark: Mark, i: usize) -> bool
        requires { i < counted self.now.counts mark }
        ensures { result ≡ bad_record self.now.file.now self.now.counts.nodes mark (start_of self.now.counts mark) i }
    {
        match mark {
            Mark::Nd => bad_node(self.file, self.at(mark, i)),
            Mark::Ed => self.bad_edge(i),
            Mark::Ru => bad_rule(self.file, self.at(mark, i)),
            Mark::Or => self.bad_order(i),
        }
    }
}
