// Answer 1: how the records lie in the file, and how many there are of each.
ghost use Rattle.std.specs.Prelude.{◌≡◌, ◌+◌, ◌*◌, ◌<◌, ◌≤◌, get_or, length, Ok, Err, MatchResult};
ghost use Rattle.request.specs.Layout.{count_at, counted, counts_in, end_of, layout_of, record_at, start_of, width};
ghost use Rattle.request.specs.Tables.{two_at};

use super::{Answer, Counts, Mark, Refusal};

// A file whose records end where its EN begins, and how many there are of each mark.
#[derive(Clone, Copy)]
pub struct Laid<'a> {
    pub file: &'a [u8],
    pub counts: Counts,
    ghost ends: { end_of counts + 2 ≡ length file.now },
}

// Whether a whole record with these letters and of this size stands at an offset.
#[tactic(auto, unfolding(crate::specs::Layout::record_at))]
fn has_record(file: &[u8], at: usize, letters: [u8; 2], size: usize) -> bool
    requires { (2 ≤ size) × (size ≤ 8) }
    ensures { result ≡ record_at (get_or letters 0 0) (get_or letters 1 0) size file.now at }
{
    if file.len() < size || file.len() - size < at {
        return false;
    }
    file[at] == letters[0] && file[at + 1] == letters[1]
}

// How many records of a mark stand one after the other from an offset on, and where they end.
fn in_row(file: &[u8], at: usize, mark: Mark) -> (usize, usize)
    requires { at ≤ length file.now }
    ensures count { result.0 ≡ count_at mark file.now at }
    ensures end { result.1 ≡ at + result.0 * width mark }
    ensures within { result.1 ≤ length file.now }
{
    let letters = mark.letters();
    let size = mark.width();
    let mut k = 0;
    let mut p = at;
    // by offset: a chain would compute each offset anew, up to a count that is known at the end only
    while has_record(file, p, letters, size) {
        p += size;
        k += 1;
    }
    (k, p)
}

// The counts of the records that a file begins with, and where they end.
fn count(file: &[u8]) -> (Counts, usize)
    ensures counts { result.0 ≡ counts_in file.now }
    ensures end { (result.1 ≡ end_of result.0) × (result.1 ≤ length file.now) }
{
    let (nodes, edges_at) = in_row(file, 0, Mark::Nd);
    let (edges, rules_at) = in_row(file, edges_at, Mark::Ed);
    let (rules, orders_at) = in_row(file, rules_at, Mark::Ru);
    let (orders, end) = in_row(file, orders_at, Mark::Or);
    let counts = Counts {
        nodes,
        edges,
        rules,
        orders,
    };
    (counts, end)
}

impl<'a> Laid<'a> {
    pub fn of(file: &'a [u8]) -> Result<Laid<'a>, Refusal>
        ensures { MatchResult result (λ l. (l.file.now ≡ file.now) × (layout_of file.now ≡ Ok l.counts)) (λ e. layout_of file.now ≡ Err e) }
    {
        let (counts, end) = count(file);
        if !has_record(file, end, *b"EN", 2) {
            return Err(Answer::Unreadable.at(end));
        }
        if end + 2 != file.len() {
            return Err(Answer::Unreadable.at(end + 2));
        }
        Ok(Laid { file, counts })
    }

    // Where record i of a mark stands.
    pub fn at(&self, mark: Mark, i: usize) -> usize
        requires { i < counted self.now.counts mark }
        ensures offset { result ≡ start_of self.now.counts mark + i * width mark }
        ensures within { result + width mark ≤ length self.now.file.now }
    {
        self.counts.start_of(mark) + i * mark.width()
    }
}
