// A set of numbers, as several words: number k is in it where flag k % 64 of word k / 64 is set.
#![tactic(auto)]

ghost use Rattle.std.specs.Prelude.{◌≡◌, true, ◌↔◌, ◌*◌, ◌<◌, ◌≤◌, length, ℕ, slice_index};
ghost use Rattle.std.specs.Int.Count.{ones};
ghost use Rattle.flags.specs.Flag.{flag, put, either, both, less};
ghost use Rattle.sets.specs.Whole.{words, Small, whole, most, Inside, LowestOf, Ahead};

// How many words a set of nodes has.
pub const WORDS: usize = 8;

// How many words a set of edges has.
pub const WIDE: usize = 2 * WORDS;

// A set of numbers below 512.
pub type Set = [u64; WORDS];

// A set of numbers below 1,024.
pub type WideSet = [u64; WIDE];

// The set that has no number.
#[tactic(auto, using(crate::proofs::Rows::none_whole))]
pub fn none<const N: usize>() -> [u64; N]
    ensures { whole result ≡ 0 }
{
    [0; N]
}

// Each word has 64 flags. This does nothing: of an array of N words the check knows it only for those that are read.
fn fit<const N: usize>(s: &[u64; N])
    ensures { (length s.now ≡ N) × Small s.now }
{
    for w in s {
        let _word = *w;
    }
}

// Whether k is in the set s.
#[tactic(auto, using(crate::proofs::Words::whole_at))]
pub fn has<const N: usize>(s: &[u64; N], k: usize) -> bool
    requires { k < N * 64 }
    ensures { result ≡ flag (whole s.now) k }
{
    fit(s);
    flags::has(s[k / 64], k % 64)
}

// Puts k in the set s.
#[tactic(auto, using(crate::proofs::Words::put_whole))]
pub fn put_in<const N: usize>(s: &mut [u64; N], k: usize)
    requires { k < N * 64 }
    ensures { (whole s.new ≡ put (whole s.old) k) × (ones (whole s.new) ≤ N * 64) }
{
    fit(s);
    s[k / 64] = flags::with(s[k / 64], k % 64);
}

// Takes k out of the set s.
#[tactic(auto, using(crate::proofs::Words::out_whole))]
pub fn take_out(s: &mut Set, k: usize)
    requires { k < most }
    ensures { whole s.new ≡ less (whole s.old) (put 0 k) }
{
    s[k / 64] = flags::without(s[k / 64], flags::with(0, k % 64));
}

// The set s with k put in.
pub fn with(mut s: Set, k: usize) -> Set
    requires { k < most }
    ensures { (whole result ≡ put (whole s) k) × (ones (whole result) ≤ most) }
{
    put_in(&mut s, k);
    s
}

// How many numbers are in the set s: the sum over its words.
pub fn size(s: Set) -> usize
    ensures { (result ≡ ones (whole s)) × (result ≤ most) }
{
    let mut n = 0;
    // a loop: of a chain the bound of the sum stayed unproved
    for w in &s {
        n += flags::size(*w);
    }
    n
}

// The words of the two, word by word, by op.
fn by_words<F: Fn(u64, u64) -> u64>(a: &Set, b: &Set, op: F) -> Set
    requires { F.IsAlwaysCallable op }
    ensures { (length result ≡ words) × ((i : ℕ) → i < words → F.post op (slice_index a.now i) (slice_index b.now i) (slice_index result i)) }
{
    let mut made = none();
    // by index into a fixed array: of `from_fn` it stayed unproved that each call is of this op
    for (i, x) in a.iter().enumerate() {
        made[i] = op(*x, b[i]);
    }
    made
}

// The numbers that are in a or in b.
pub fn either(a: Set, b: Set) -> Set
    ensures { whole result ≡ either (whole a) (whole b) }
{
    by_words(&a, &b, flags::either)
}

// The numbers that are in both.
pub fn both(a: Set, b: Set) -> Set
    ensures { whole result ≡ both (whole a) (whole b) }
{
    by_words(&a, &b, flags::both)
}

// The numbers that are in a and not in b.
pub fn without(a: Set, b: Set) -> Set
    ensures { whole result ≡ less (whole a) (whole b) }
{
    by_words(&a, &b, flags::without)
}

// Whether each number of a is in b.
pub fn within(a: &Set, b: &Set) -> bool
    ensures { (result ≡ true) ↔ Inside (whole a.now) (whole b.now) }
{
    lowest(a, b).is_none()
}

// The lowest number that is in a and not in b.
pub fn lowest(a: &Set, b: &Set) -> Option<usize>
    ensures { LowestOf (whole a.now) (whole b.now) result }
{
    lowest_from(a, b, 0)
}

// The lowest number from `from` on that is in a and not in b.
pub fn lowest_from(a: &Set, b: &Set, from: usize) -> Option<usize>
    ensures { Ahead (whole a.now) (whole b.now) from result }
{
    let mut k = from;
    // by number: it begins within a word, and each further turn is the next word
    while k < WORDS * 64 {
        let left = flags::above(flags::without(a[k / 64], b[k / 64]), k % 64);
        if let Some(t) = flags::lowest(left) {
            return Some(k + t);
        }
        k += 64 - k % 64;
    }
    None
}
