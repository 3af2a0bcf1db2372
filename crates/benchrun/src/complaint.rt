ghost use Rattle.std.specs.Prelude.{◌≡◌, ◌+◌, ◌-◌, ◌^◌, IfSome, None, min};

use benchline::IllFormed;
use std::fmt;

/// What is to be said of the ill-formed lines of an input.
#[derive(Clone, Copy, PartialEq, Eq, Debug)]
pub struct Complaint {
    /// How many there are.
    pub count: u64,
    /// The number of the first one, from 1.
    pub number: u64,
    /// What is wrong with the first one.
    pub fault: IllFormed,
}

impl Complaint {
    /// What is to be said after one more ill-formed line.
    pub(crate) fn with(before: Option<Complaint>, number: u64, fault: IllFormed) -> Complaint
        ensures first { before ≡ None → result ≡ record { count = 1; number = number; fault = fault } }
        ensures more { IfSome before (λ c. result ≡ record c { count = min (c.count + 1) (2 ^ 64 - 1) }) }
    {
        match before {
            Some(complaint) => Complaint {
                count: complaint.count.saturating_add(1),
                ..complaint
            },
            None => Complaint {
                count: 1,
                number,
                fault,
            },
        }
    }
}

impl fmt::Display for Complaint {
    fn fmt<W: fmt::Write>(&self, f: &mut fmt::Formatter<W>) -> fmt::Result {
        let Complaint {
            count,
            number,
            fault,
        } = *self;
        match count {
            1 => write!(f, "one line was ill-formed, line {number}: {fault}"),
            count => write!(
                f,
                "{count} lines were ill-formed, the first of them line {number}: {fault}"
            ),
        }
    }
}
