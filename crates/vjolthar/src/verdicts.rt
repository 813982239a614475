// The judge's answer as numbers.
ghost use Rattle.std.specs.Prelude.{◌≡◌};
ghost use Rattle.judge.specs.Answers.{verdict_of};
ghost use Rattle.vjolthar.specs.Verdicts.{told_of};

use job::refusals::Refusal;
use judge::Verdict;

// The kinds of a fault, counted from 1 in the order of 01's sentence. They are numbers because C has no other form for them.
const RIGHT: u16 = 0;

const IMPROPER: u16 = 1;

const FORBIDS: u16 = 2;

const SHARES: u16 = 3;

const UNMET: u16 = 4;

// What an answer lacks is 0.
#[derive(Clone, Copy)]
pub struct Told {
    pub refusal: u16,
    pub fault: u16,
    pub first: usize,
    pub second: usize,
}

// A fault's kind and values.
fn at_fault(fault: u16, first: usize, second: usize) -> Told
    ensures { result ≡ record { refusal = 0; fault = fault; first = first; second = second } }
{
    Told {
        refusal: 0,
        fault,
        first,
        second,
    }
}

impl From<Verdict> for Told {
    ghost from_gives = { λ verdict told. told ≡ told_of (verdict_of verdict) };

    fn from(verdict: Verdict) -> Told {
        match verdict {
            Verdict::Unfit => Told {
                refusal: u16::from(Refusal::NumbersUnfit),
                fault: 0,
                first: 0,
                second: 0,
            },
            Verdict::Improper(i) => at_fault(IMPROPER, i, 0),
            Verdict::Forbids(i, j) => at_fault(FORBIDS, i, j),
            Verdict::Shares(i, j) => at_fault(SHARES, i, j),
            Verdict::Unmet(k) => at_fault(UNMET, k, 0),
            Verdict::Right => at_fault(RIGHT, 0, 0),
        }
    }
}
