// What the public operations return, and a refusal as numbers.
#![tactic(auto)]

ghost use Rattle.std.specs.Prelude.{◌≡◌};
ghost use Rattle.outcome.specs.Outcome.{refusal, unshown};

use request::Refusal;

// Where a number is made of an index, here and in the operations, it is by `as`: both have 64 bits, and there is no `From` between them.

// What run and strip return. This is what C sees, so the answer is a number: 0 is none.
#[repr(C)]
#[derive(Clone, Copy)]
pub struct Report {
    pub answer: u64,
    pub place: u64,
    pub fences: u64,
    pub weight: u64,
    pub length: u64,
}

impl Report {
    // What is returned where the operation is not refused.
    pub fn done(fences: u64, weight: u64, length: u64) -> Report
        ensures { result ≡ record { answer = 0; place = 0; fences = fences; weight = weight; length = length } }
    {
        Report {
            answer: 0,
            place: 0,
            fences,
            weight,
            length,
        }
    }
}

// What ask returns. This is what C sees, so the answer is a number: 0 is none.
#[repr(C)]
#[derive(Clone, Copy)]
pub struct Shown {
    pub answer: u64,
    pub place: u64,
    pub length: u64,
}

impl Shown {
    pub fn done(length: u64) -> Shown
        ensures { result ≡ record { answer = 0; place = 0; length = length } }
    {
        Shown {
            answer: 0,
            place: 0,
            length,
        }
    }
}

impl From<Refusal> for Report {
    ghost from_gives = { λ e r. r ≡ refusal e.answer e.place };

    fn from(e: Refusal) -> Report {
        Report {
            answer: u64::from(e.answer),
            place: e.place as u64,
            fences: 0,
            weight: 0,
            length: 0,
        }
    }
}

impl From<Refusal> for Shown {
    ghost from_gives = { λ e r. r ≡ unshown e.answer e.place };

    fn from(e: Refusal) -> Shown {
        Shown {
            answer: u64::from(e.answer),
            place: e.place as u64,
            length: 0,
        }
    }
}
