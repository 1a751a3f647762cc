// The table of marks, and the numbers of their records.
ghost use Rattle.std.specs.Prelude.{◌≡◌, ◌+◌, ◌<◌, [], ◌∷◌};
ghost use Rattle.request.specs.Layout.{counted, end_of, letters, start_of, width};
ghost use Rattle.request.specs.Tables.{most, numbered, wrong_answer};

use super::{Answer, Counts, Mark};
use graph::Graph;

impl Mark {
    pub(crate) fn letters(self) -> [u8; 2]
        ensures { result ≡ (letters self).0 ∷ (letters self).1 ∷ [] }
    {
        match self {
            Mark::Nd => *b"ND",
            Mark::Ed => *b"ED",
            Mark::Ru => *b"RU",
            Mark::Or => *b"OR",
        }
    }

    // How many bytes a record has.
    pub(crate) fn width(self) -> usize
        ensures { result ≡ width self }
    {
        match self {
            Mark::Nd => 4,
            Mark::Ed => 8,
            Mark::Ru => 6,
            Mark::Or => 6,
        }
    }

    // How many records there may be.
    pub(crate) fn most(self) -> usize
        ensures { result ≡ most self }
    {
        match self {
            Mark::Nd => Graph::NODES,
            Mark::Ed => Graph::EDGES,
            Mark::Ru => Graph::RULES,
            Mark::Or => Graph::ORDERS,
        }
    }

    // The answer where a record is wrong.
    pub(crate) fn wrong(self) -> Answer
        ensures { result ≡ wrong_answer self }
    {
        match self {
            Mark::Nd => Answer::BadNode,
            Mark::Ed => Answer::BadEdge,
            Mark::Ru => Answer::BadRule,
            Mark::Or => Answer::BadOrder,
        }
    }
}

impl Counts {
    pub(crate) fn of(self, mark: Mark) -> usize
        ensures { result ≡ counted self mark }
    {
        match mark {
            Mark::Nd => self.nodes,
            Mark::Ed => self.edges,
            Mark::Ru => self.rules,
            Mark::Or => self.orders,
        }
    }

    // The number of a mark's first record, over the whole file. Apart from `start_of`, which counts bytes: one function for both is no plainer.
    pub(crate) fn number_of(self, mark: Mark) -> usize
        requires { self.nodes + self.edges + self.rules < 9223372036854775808 }
        ensures { result ≡ numbered self mark }
    {
        match mark {
            Mark::Nd => 0,
            Mark::Ed => self.nodes,
            Mark::Ru => self.nodes + self.edges,
            Mark::Or => self.nodes + self.edges + self.rules,
        }
    }

    // The offset of a mark's first record.
    pub(crate) fn start_of(self, mark: Mark) -> usize
        requires { end_of self < 9223372036854775808 }
        ensures { result ≡ start_of self mark }
    {
        match mark {
            Mark::Nd => 0,
            Mark::Ed => self.nodes * Mark::Nd.width(),
            Mark::Ru => self.nodes * Mark::Nd.width() + self.edges * Mark::Ed.width(),
            Mark::Or => {
                self.nodes * Mark::Nd.width()
                    + self.edges * Mark::Ed.width()
                    + self.rules * Mark::Ru.width()
            }
        }
    }
}
