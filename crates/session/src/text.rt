//! What is printed for a line, as bytes of text. Each function writes behind the text that it is lent, and fails only
//! where there is neither room for all of it nor memory for more; then a part of it may have been written.

ghost use Rattle.std.specs.Prelude.{◌≡◌, ◌+◌, ◌<◌, ◌≤◌, [], ◌∷◌, ◌++◌, length, OnOk, OnErr, vec_capacity, vec_len};
ghost use Rattle.session.specs.Printed.{given_text, printed};
ghost use Rattle.engine.specs.Seen.{listed};
ghost use Rattle.machine.specs.Printed.{answer_text, outcome_text, outcomes_text, refusal_text};

use codes::Refusal;
use digits::write_hex;
use engine::{Answer, Outcomes};
use packet::Outcome;
use std::alloc::AllocError;

/// Writes an outcome: its command's byte and its code's.
fn write_outcome(text: &mut Vec<u8>, outcome: Outcome) -> Result<(), AllocError>
    ensures value { OnOk result (text.new.items ≡ text.old.items ++ outcome_text outcome) }
    ensures room { OnErr result (vec_capacity text.old < vec_len text.old + length (outcome_text outcome)) }
    ensures kept { vec_capacity text.old ≤ vec_capacity text.new }
{
    write_hex(text, &[u8::from(outcome.command), u8::from(outcome.code)])
}

/// Writes outcomes, with a blank between two.
fn write_outcomes(text: &mut Vec<u8>, outcomes: Outcomes) -> Result<(), AllocError>
    ensures value { OnOk result (text.new.items ≡ text.old.items ++ outcomes_text (listed outcomes)) }
    ensures room { OnErr result (vec_capacity text.old < vec_len text.old + length (outcomes_text (listed outcomes))) }
    ensures kept { vec_capacity text.old ≤ vec_capacity text.new }
{
    match outcomes {
        Outcomes::Nothing => Ok(()),
        Outcomes::One(first) => write_outcome(text, first),
        Outcomes::Two(first, second) => {
            write_outcome(text, first)?;
            text.push(b' ')?;
            write_outcome(text, second)
        }
    }
}

/// Writes outcomes, a colon and the bytes that were written.
fn write_answer(text: &mut Vec<u8>, outcomes: Outcomes, written: &[u8]) -> Result<(), AllocError>
    ensures value { OnOk result (text.new.items ≡ text.old.items ++ answer_text (listed outcomes) written.now) }
    ensures room { OnErr result (vec_capacity text.old
        < vec_len text.old + length (answer_text (listed outcomes) written.now)) }
    ensures kept { vec_capacity text.old ≤ vec_capacity text.new }
{
    write_outcomes(text, outcomes)?;
    text.push(b':')?;
    write_hex(text, written)
}

/// Writes an exclamation mark and the number of a refusal, which has one digit.
fn write_refusal(text: &mut Vec<u8>, refusal: Refusal) -> Result<(), AllocError>
    ensures value { OnOk result (text.new.items ≡ text.old.items ++ refusal_text refusal) }
    ensures room { OnErr result (vec_capacity text.old < vec_len text.old + length (refusal_text refusal)) }
    ensures kept { vec_capacity text.old ≤ vec_capacity text.new }
{
    text.extend_from_slice(&[b'!', b'0' + u8::from(refusal)])
}

/// Writes what a call gave, whose answer lies at the front of `out`.
fn write_given(
    text: &mut Vec<u8>,
    given: Result<Answer, Refusal>,
    out: &[u8],
) -> Result<(), AllocError>
    ensures value { OnOk result (text.new.items ≡ text.old.items ++ given_text given out.now) }
    ensures room { OnErr result (vec_capacity text.old < vec_len text.old + length (given_text given out.now)) }
    ensures kept { vec_capacity text.old ≤ vec_capacity text.new }
{
    match given {
        Ok(answer) => write_answer(text, answer.outcomes, answer.written(out)),
        Err(refusal) => write_refusal(text, refusal),
    }
}

/// Writes the printed line: what the call gave, or a question mark where no call was made.
pub(crate) fn write_printed(
    text: &mut Vec<u8>,
    given: Option<Result<Answer, Refusal>>,
    out: &[u8],
) -> Result<(), AllocError>
    ensures value { OnOk result (text.new.items ≡ text.old.items ++ printed given out.now ++ 10 ∷ []) }
    ensures room { OnErr result (vec_capacity text.old < vec_len text.old + length (printed given out.now ++ 10 ∷ [])) }
    ensures kept { vec_capacity text.old ≤ vec_capacity text.new }
{
    match given {
        Some(given) => write_given(text, given, out)?,
        None => text.push(b'?')?,
    }
    text.push(b'\n')?;
    Ok(())
}
