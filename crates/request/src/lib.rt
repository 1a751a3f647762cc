// A request: its file's reading, the answers that refuse it, and its graph by value.
#![tactic(auto)]

mod bad;
mod checks;
mod kinds;
mod layout;
mod table;
mod values;

ghost use Rattle.std.specs.Prelude.{◌≡◌, Ok};
ghost use Rattle.request.specs.Answers.{number};
ghost use Rattle.request.specs.Outcome.{Answered};
ghost use Rattle.request.specs.Value.{Ready, request_in};
ghost use Rattle.request.specs.Proper.{Reads};

use graph::Graph;
pub use kinds::Kind;
use layout::Laid;

// How many records of each mark a file has.
#[derive(Clone, Copy)]
pub struct Counts {
    pub nodes: usize,
    pub edges: usize,
    pub rules: usize,
    pub orders: usize,
}

// The marks of the records, in the order of the file.
#[derive(Clone, Copy)]
pub enum Mark {
    Nd,
    Ed,
    Ru,
    Or,
}

// A check of the records: too many of a mark, a wrong one of it, a fence rule missing.
// An enum and no closures: all checks stand in one table by rank, and the definitions go through the same table.
#[derive(Clone, Copy)]
pub enum Check {
    Many(Mark),
    Wrong(Mark),
    Fenceless,
}

// The refusals of document 01's table, by the numbers that it gives them.
#[derive(Clone, Copy)]
pub enum Answer {
    Unreadable = 1,
    TooMany = 2,
    BadNode = 3,
    BadEdge = 4,
    BadRule = 5,
    BadOrder = 6,
    NoFenceRules = 7,
    NoSuchOrder = 8,
    NoRoom = 9,
    NotLoose = 10,
    ShortBuffer = 11,
}

// An answer that refuses a file, and its place.
#[derive(Clone, Copy)]
pub struct Refusal {
    pub answer: Answer,
    pub place: usize,
}

impl Answer {
    // This answer at a place: 0 where an answer has none.
    pub fn at(self, place: usize) -> Refusal
        ensures { result ≡ record { answer = self; place = place } }
    {
        Refusal {
            answer: self,
            place,
        }
    }
}

impl From<Answer> for u64 {
    ghost from_gives = { λ a n. n ≡ number a };

    fn from(a: Answer) -> u64 {
        a as u64
    }
}

// Reads a file: the counts of a whole one, or the refusal that document 01's table has for it.
pub fn read(file: &[u8]) -> Result<Counts, Refusal>
    ensures { Answered file.now result }
{
    let laid = Laid::of(file)?;
    laid.check()
}

// The graph of an accepted file, by value.
pub fn decode(file: &[u8], counts: Counts) -> Graph
    requires { Answered file.now (Ok counts) }
    ensures { Reads file.now (request_in result) × Ready result }
{
    let laid = Laid { file, counts };
    let mut g = Graph::empty();
    laid.fill(&mut g.nodes);
    laid.fill(&mut g.edges);
    laid.fill(&mut g.rules);
    laid.fill(&mut g.orders);
    g
}
