ghost use Rattle.std.specs.Prelude.{◌≡◌, take};

use packet::Outcome;

/// The outcomes of a call, in their order.
#[derive(Clone, Copy, PartialEq, Eq, Debug)]
pub enum Outcomes {
    Nothing,
    One(Outcome),
    Two(Outcome, Outcome),
}

/// What a call answers: its outcomes, and how many bytes it wrote at the front of the answer buffer.
#[derive(Clone, Copy, PartialEq, Eq, Debug)]
pub struct Answer {
    pub outcomes: Outcomes,
    pub count: usize,
}

impl Answer {
    /// What the call wrote, at the front of the answer buffer that it was lent.
    pub fn written(self, out: &[u8]) -> &[u8]
        ensures { result.now ≡ take self.count out.now }
    {
        &out[..self.count.min(out.len())]
    }
}
