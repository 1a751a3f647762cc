// Answers 2 to 7: checks over the records, in the order of their answers and places.
ghost use Rattle.std.specs.Prelude.{◌≡◌, ◌+◌, ◌*◌, ◌<◌};
ghost use Rattle.request.specs.declared.Mark.TheVariants.{Ru};
ghost use Rattle.request.specs.Layout.{start_of};
ghost use Rattle.request.specs.Tables.{SureTo, all_checks, answer_to, FirstFailing, checked, code, count_for, fails_at, leads, no_fences, some_leads, start_for};

use super::kinds::Kind;
use super::layout::Laid;
use super::{Answer, Check, Counts, Mark, Refusal};

// By rank. One table, since a later check of one mark may stand behind one of another.
const CHECKS: [Check; 9] = [
    Check::Many(Mark::Nd),
    Check::Many(Mark::Ed),
    Check::Many(Mark::Ru),
    Check::Many(Mark::Or),
    Check::Wrong(Mark::Nd),
    Check::Wrong(Mark::Ed),
    Check::Wrong(Mark::Ru),
    Check::Wrong(Mark::Or),
    Check::Fenceless,
];

impl Check {
    fn answer(self) -> Answer
        ensures { result ≡ answer_to self }
    {
        match self {
            Check::Many(_) => Answer::TooMany,
            Check::Wrong(mark) => mark.wrong(),
            Check::Fenceless => Answer::NoFenceRules,
        }
    }

    // The number of the first record that it looks at. The fence rules are looked for once, at place 0.
    fn start(self, counts: Counts) -> usize
        requires { counts.nodes + counts.edges + counts.rules < 9223372036854775808 }
        ensures { result ≡ start_for counts self }
    {
        match self {
            Check::Many(mark) | Check::Wrong(mark) => counts.number_of(mark),
            Check::Fenceless => 0,
        }
    }

    // How many it looks at.
    fn count(self, counts: Counts) -> usize
        ensures { result ≡ count_for counts self }
    {
        match self {
            Check::Many(mark) | Check::Wrong(mark) => counts.of(mark),
            Check::Fenceless => 1,
        }
    }

    // How many need no look: within a limit none is too many.
    fn sure(self, counts: Counts) -> usize
        ensures { SureTo counts self result }
    {
        match self {
            Check::Many(mark) => counts.of(mark).min(mark.most()),
            _ => 0,
        }
    }
}

impl Laid<'_> {
    // Whether rule i leads from the one kind to the other.
    #[tactic(auto, unfolding(crate::specs::Tables::leads))]
    fn leads(&self, left: Kind, right: Kind, i: usize) -> bool
        requires { i < self.now.counts.rules }
        ensures { result ≡ leads self.now.file.now (code left) (code right) (start_of self.now.counts Ru + i * 6) }
    {
        let at = self.at(Mark::Ru, i);
        self.file[at + 2] == left.code() && self.file[at + 4] == right.code()
    }

    fn has_rule(&self, left: Kind, right: Kind) -> bool
        ensures { result ≡ some_leads self.now.file.now (start_of self.now.counts Ru) self.now.counts.rules (code left) (code right) }
    {
        (0..self.counts.rules).any(|i| self.leads(left, right, i))
    }

    // Whether one of the two fence rules is missing. Their variables are 0, as answer 5 has passed.
    #[tactic(auto, unfolding(crate::specs::Tables::no_fences))]
    fn no_fences(&self) -> bool
        ensures { result ≡ no_fences self.now.file.now (start_of self.now.counts Ru) self.now.counts.rules }
    {
        !self.has_rule(Kind::Any, Kind::Fence) || !self.has_rule(Kind::Fence, Kind::Any)
    }

    fn fails_at(&self, check: Check, i: usize) -> bool
        requires { i < count_for self.now.counts check }
        ensures { result ≡ fails_at self.now.file.now self.now.counts check i }
    {
        match check {
            Check::Many(mark) => mark.most() <= i,
            Check::Wrong(mark) => self.bad(mark, i),
            Check::Fenceless => self.no_fences(),
        }
    }

    // The first place where a check fails.
    fn first_failing(&self, check: Check) -> Option<usize>
        ensures { FirstFailing self.now.file.now self.now.counts check result }
    {
        (check.sure(self.counts)..check.count(self.counts)).find(|i| self.fails_at(check, *i))
    }

    // The counts, or the answer of the first check that fails.
    pub fn check(&self) -> Result<Counts, Refusal>
        ensures { result ≡ checked self.now.file.now self.now.counts all_checks }
    {
        for check in CHECKS {
            if let Some(i) = self.first_failing(check) {
                return Err(check.answer().at(check.start(self.counts) + i));
            }
        }
        Ok(self.counts)
    }
}
