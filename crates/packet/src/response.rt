ghost use Rattle.std.specs.Prelude.{◌≡◌, ◌++◌, length, take, IfSome};
ghost use Rattle.packet.specs.Heads.{seen_head};
ghost use Rattle.packet.specs.Packets.{written, written_count};
ghost use Rattle.packet.specs.Responses.{carries, either_head, outcome_head, read_response, seen_response};
ghost use Rattle.packet.specs.Responses.{reply_bytes, reply_form, sent_bytes};
ghost use Rattle.packet.specs.Trips.{Proper, ReadAs, sent};

use crate::behind::{answers_with_data, split_data};
use crate::form::{Form, Head, NETWORK_START, Packet};
use crate::head::{network_head, standard_head};
use codes::{Code, Coded, Command, Refusal};
use std::fmt;

/// What became of a request.
#[derive(Clone, Copy, PartialEq, Eq, Debug)]
pub struct Outcome {
    pub command: Coded<Command>,
    pub param: u32,
    pub size: u32,
    pub code: Code,
}

/// An outcome, the form of the request that it belongs to, and the data that LT and RT answer.
#[derive(Clone, Copy, PartialEq, Eq)]
pub struct Reply<'a> {
    pub to: Form,
    pub outcome: Outcome,
    pub data: &'a [u8],
}

/// Leaves the data out, so that no log shows a template.
impl fmt::Debug for Reply<'_> {
    fn fmt<W: fmt::Write>(&self, f: &mut fmt::Formatter<W>) -> fmt::Result {
        f.debug_struct("Reply")
            .field("to", &self.to)
            .field("outcome", &self.outcome)
            .finish_non_exhaustive()
    }
}

/// A response, as it was read.
#[derive(Clone, Copy, PartialEq, Eq)]
pub struct Response<'a> {
    pub form: Form,
    pub command: Coded<Command>,
    pub param: u32,
    pub size: u32,
    pub code: Coded<Code>,
    pub data: &'a [u8],
}

/// Leaves the data out, so that no log shows a template.
impl fmt::Debug for Response<'_> {
    fn fmt<W: fmt::Write>(&self, f: &mut fmt::Formatter<W>) -> fmt::Result {
        f.debug_struct("Response")
            .field("form", &self.form)
            .field("command", &self.command)
            .field("param", &self.param)
            .field("size", &self.size)
            .field("code", &self.code)
            .finish_non_exhaustive()
    }
}

/// The form in which the module `own` answers a request of this form; none for a broadcast.
pub(crate) fn reply_form(own: u16, to: Form) -> Option<Form>
    ensures { result ≡ reply_form own to }
{
    match to {
        Form::Standard => Some(Form::Standard),
        Form::Network(0) => None,
        Form::Network(_) => Some(Form::Network(own)),
    }
}

/// Takes a packet of either form apart, and what stands behind it.
fn either_head(bytes: &[u8]) -> Result<(Head, &[u8]), Refusal>
    ensures { seen_head result ≡ either_head bytes.now }
{
    match bytes {
        [] => Err(Refusal::TooShort),
        [NETWORK_START, ..] => network_head(bytes),
        [_, ..] => standard_head(bytes),
    }
}

/// Reads the response at the front of `bytes`, and gives what stands behind it.
pub fn read_response(bytes: &[u8]) -> Result<(Response<'_>, &[u8]), Refusal>
    ensures { seen_response result ≡ read_response bytes.now }
{
    let (head, rest) = either_head(bytes)?;
    let code = Coded::from(head.flag);
    let size = answers_with_data(head.command, code).then_some(head.size);
    let (data, behind) = split_data(size, rest)?;
    let response = Response {
        form: head.form,
        command: head.command,
        param: head.param,
        size: head.size,
        code,
        data,
    };
    Ok((response, behind))
}

/// The head of an outcome in a form.
pub(crate) fn outcome_head(form: Form, outcome: Outcome) -> Head
    ensures { result ≡ outcome_head form outcome }
{
    Head {
        form,
        command: outcome.command,
        param: outcome.param,
        size: outcome.size,
        flag: u8::from(outcome.code),
    }
}

/// Whether an outcome carries data.
pub(crate) fn carries_data(outcome: Outcome) -> bool
    ensures { result ≡ carries outcome }
{
    answers_with_data(outcome.command, Coded::Known(outcome.code))
}

impl<'a> Reply<'a> {
    /// The packet that the module `own` sends; none for a broadcast.
    fn packet(self, own: u16) -> Option<Packet<'a>>
        ensures { sent_bytes result ≡ reply_bytes own self.entry }
    {
        let form = reply_form(own, self.to)?;
        Some(Packet {
            head: outcome_head(form, self.outcome),
            data: carries_data(self.outcome).then_some(self.data),
        })
    }

    /// How many bytes it takes.
    fn length(self, own: u16) -> usize
        ensures { result ≡ length (reply_bytes own self.entry) }
    {
        self.packet(own).map_or(0, |packet| packet.length())
    }
}

/// Writes a reply at the front of `out`, and says how many bytes it takes: none for a broadcast.
/// Where it has no room, nothing is written.
#[inline(always)]
pub fn write_reply(out: &mut [u8], own: u16, reply: Reply<'_>) -> Option<usize>
    ensures count { result ≡ written_count (reply_bytes own reply.entry) out.old }
    ensures bytes { out.new ≡ written (reply_bytes own reply.entry) out.old }
    ensures reads { Proper reply.entry
        → IfSome result (λ n. ReadAs (take n out.new) (sent own reply.entry)) }
{
    let Some(packet) = reply.packet(own) else {
        return Some(0);
    };
    packet.write(out)
}

/// Writes two replies, the second right behind the first, and says how many bytes they take.
/// Where they have no room, nothing is written.
pub fn write_replies(out: &mut [u8], own: u16, first: Reply<'_>, second: Reply<'_>) -> Option<usize>
    ensures count { result ≡ written_count
        (reply_bytes own first.entry ++ reply_bytes own second.entry) out.old }
    ensures bytes { out.new ≡ written
        (reply_bytes own first.entry ++ reply_bytes own second.entry) out.old }
    ensures reads { Proper first.entry → Proper second.entry
        → IfSome result (λ n. ReadAs (take n out.new) (sent own first.entry ++ sent own second.entry)) }
{
    let length = first.length(own);
    if out.len() < length {
        return None;
    }
    // The second is written first: where it has no room, nothing is written. The first has room.
    let behind = write_reply(&mut out[length..], own, second)?;
    Some(write_reply(out, own, first)? + behind)
}
