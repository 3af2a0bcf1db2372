ghost use Rattle.std.specs.Prelude.{◌≡◌, ◌≤◌, [], ◌∷◌, ◌++◌, length, drop};
ghost use Rattle.device.specs.View.{data_in, plain, said_in};
ghost use Rattle.device.specs.declared.answers.Data.TheVariants.{Ids, Template};
ghost use Rattle.engine.specs.Wrote.{Wrote, said};

use device::{Answers, Data, Told};
use memory::{LISTED_ID, Memory};
use packet::{Reply, data_place, write_replies, write_reply, write_reply_around};

/// A reply without data.
fn reply(told: Told) -> Reply<'static>
    ensures to { result.to ≡ told.to }
    ensures outcome { result.outcome ≡ told.outcome }
    ensures bare { result.«data».now ≡ [] }
{
    Reply {
        to: told.to,
        outcome: told.outcome,
        data: &[],
    }
}

/// Writes the IDs of at most `most` templates from a place on, and says how many bytes they take.
fn write_ids<S: Memory>(memory: &S, from: usize, most: usize, out: &mut [u8]) -> usize
    requires { length (data_in (S.Memory.held memory.now) (Ids from most)) ≤ length out.old }
    ensures count { result ≡ length (data_in (S.Memory.held memory.now) (Ids from most)) }
    ensures bytes { out.new ≡ data_in (S.Memory.held memory.now) (Ids from most)
        ++ drop result out.old }
{
    let room = most.saturating_mul(LISTED_ID).min(out.len());
    LISTED_ID * memory.ids_into(from, &mut out[..room])
}

/// Writes the template at a place, and says how many bytes it takes.
fn write_template<S: Memory>(memory: &S, place: usize, out: &mut [u8]) -> usize
    requires { length (data_in (S.Memory.held memory.now) (Template place)) ≤ length out.old }
    ensures count { result ≡ length (data_in (S.Memory.held memory.now) (Template place)) }
    ensures bytes { out.new ≡ data_in (S.Memory.held memory.now) (Template place)
        ++ drop result out.old }
{
    memory.copy_at(place, out).unwrap_or(0)
}

/// Writes the data of an outcome, and says how many bytes it takes.
fn write_data<S: Memory>(memory: &S, data: Data, out: &mut [u8]) -> usize
    requires { length (data_in (S.Memory.held memory.now) «data») ≤ length out.old }
    ensures count { result ≡ length (data_in (S.Memory.held memory.now) «data») }
    ensures bytes { out.new ≡ data_in (S.Memory.held memory.now) «data»
        ++ drop result out.old }
{
    match data {
        Data::Ids { from, most } => write_ids(memory, from, most, out),
        Data::Template { place } => write_template(memory, place, out),
    }
}

/// Writes a reply around data of the memory, which goes straight to its place in the buffer. Only LT and RT have
/// such data; out of line, the code for all other outcomes stays short.
#[inline(never)]
fn write_around<S: Memory>(memory: &S, own: u16, out: &mut [u8], told: Told, data: Data) -> usize
    requires { 2048 ≤ length out.old }
    ensures { Wrote own (said told.to told.outcome (data_in (S.Memory.held memory.now) «data») ∷ [])
        out.old out.new result }
{
    match data_place(told.to, told.outcome) {
        Some(at) => {
            let length = write_data(memory, data, &mut out[at..]);
            write_reply_around(out, own, told.to, told.outcome, length).unwrap_or(0)
        }
        None => write_reply_around(out, own, told.to, told.outcome, 0).unwrap_or(0),
    }
}

/// Writes one reply without data.
fn write_one(own: u16, out: &mut [u8], told: Told) -> usize
    requires { 2048 ≤ length out.old }
    ensures { Wrote own (plain told ∷ []) out.old out.new result }
{
    write_reply(out, own, reply(told)).unwrap_or(0)
}

/// Writes two replies without data, the second right behind the first.
fn write_two(own: u16, out: &mut [u8], first: Told, second: Told) -> usize
    requires { 2048 ≤ length out.old }
    ensures { Wrote own (plain first ∷ plain second ∷ []) out.old out.new result }
{
    write_replies(out, own, reply(first), reply(second)).unwrap_or(0)
}

/// Writes what a call answers at the front of `out`, and says how many bytes that are.
#[inline(always)]
pub(crate) fn write_answers<S: Memory>(
    memory: &S,
    own: u16,
    out: &mut [u8],
    answers: Answers,
) -> usize
    requires { 2048 ≤ length out.old }
    ensures { Wrote own (said_in (S.Memory.held memory.now) answers)
        out.old out.new result }
{
    match answers {
        Answers::Nothing => 0,
        Answers::One(told) => write_one(own, out, told),
        Answers::WithData(told, data) => write_around(memory, own, out, told, data),
        Answers::Two(first, second) => write_two(own, out, first, second),
    }
}
