use codes::Refusal;
use engine::{Answer, Outcomes};

/// How many of the last bytes that a call writes are taken in: the checksum of its last packet is among them.
const LAST: usize = 15;

/// What refusals are told from codes by.
const REFUSED: u32 = 256;

/// A checksum of what calls answer: two engines that do the same work have the same.
#[derive(Clone, Copy)]
pub(crate) struct Checksum(pub u32);

impl Checksum {
    /// This checksum with one more number taken in.
    fn with(self, value: u32) -> Checksum {
        Checksum(self.0.wrapping_mul(31).wrapping_add(value))
    }

    /// Takes in a number.
    fn fold(&mut self, value: u32) {
        *self = self.with(value);
    }

    /// Takes in the code of each outcome.
    fn outcomes(&mut self, outcomes: Outcomes) {
        match outcomes {
            Outcomes::Nothing => {}
            Outcomes::One(outcome) => self.fold(u32::from(u8::from(outcome.code))),
            Outcomes::Two(first, second) => {
                self.fold(u32::from(u8::from(first.code)));
                self.fold(u32::from(u8::from(second.code)));
            }
        }
    }

    /// Takes in an answer: its outcomes, how many bytes were written, and the last of them.
    fn answer(&mut self, answer: Answer, out: &[u8]) {
        let written = answer.written(out);
        self.outcomes(answer.outcomes);
        self.fold(u32::try_from(written.len()).unwrap_or(u32::MAX));
        let last = &written[written.len().saturating_sub(LAST)..];
        *self = last
            .iter()
            .fold(*self, |sum, byte| sum.with(u32::from(*byte)));
    }

    /// Takes in what a call gave.
    #[inline(always)]
    pub fn take(&mut self, given: Result<Answer, Refusal>, out: &[u8]) {
        match given {
            Ok(answer) => self.answer(answer, out),
            Err(refusal) => self.fold(REFUSED + u32::from(u8::from(refusal))),
        }
    }
}
