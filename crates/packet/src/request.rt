ghost use Rattle.std.specs.Prelude.{◌≡◌, ℕ, ◌++◌, take, IfSome, IfOk, Ok};
ghost use Rattle.codes.specs.declared.network.NetworkMode.{NetworkMode};
ghost use Rattle.packet.specs.Data.{asks_with_data, data_bytes, seen_bytes, split_data};
ghost use Rattle.packet.specs.Heads.{head_bytes, read_head, seen_head};
ghost use Rattle.packet.specs.Packets.{written, written_count};
ghost use Rattle.packet.specs.Requests.{is_for, nothing_behind, read_request};
ghost use Rattle.packet.specs.Requests.{request_bytes, request_parts, seen_request};
ghost use Rattle.packet.specs.Trips.{Heard};

use crate::behind::{asks_with_data, split_data};
use crate::form::{Form, Head, Packet};
use crate::head::{network_head, standard_head};
use codes::{Coded, Command, NetworkMode, Refusal};
use std::fmt;

/// A request, as the host sends it.
#[derive(Clone, Copy, PartialEq, Eq)]
pub struct Request<'a> {
    pub form: Form,
    pub command: Coded<Command>,
    pub param: u32,
    pub size: u32,
    pub flag: u8,
    /// What ET, UM and MP carry behind the packet; other commands carry nothing.
    pub data: &'a [u8],
}

/// Leaves the data out, so that no log shows a password or a template.
impl fmt::Debug for Request<'_> {
    fn fmt<W: fmt::Write>(&self, f: &mut fmt::Formatter<W>) -> fmt::Result {
        f.debug_struct("Request")
            .field("form", &self.form)
            .field("command", &self.command)
            .field("param", &self.param)
            .field("size", &self.size)
            .field("flag", &self.flag)
            .finish_non_exhaustive()
    }
}

/// Whether a packet of this form is for the module `own`.
fn is_for(form: Form, own: u16) -> bool
    ensures { result ≡ is_for own form }
{
    match form {
        Form::Standard => true,
        Form::Network(terminal) => terminal == own || terminal == 0,
    }
}

/// The data of a request, which has nothing behind it.
fn request_data(head: Head, rest: &[u8]) -> Result<&[u8], Refusal>
    ensures value { seen_bytes result ≡ nothing_behind
        (split_data (asks_with_data head.command) head.size rest.now) }
    ensures back { IfOk result (λ x. data_bytes (asks_with_data head.command) x.now ≡ rest.now) }
{
    let size = asks_with_data(head.command).then_some(head.size);
    let (data, behind) = split_data(size, rest)?;
    if !behind.is_empty() {
        return Err(Refusal::DataLength);
    }
    Ok(data)
}

/// Takes a packet apart, in the form that is heard.
#[inline(always)]
fn heard_head(mode: NetworkMode, frame: &[u8]) -> Result<(Head, &[u8]), Refusal>
    ensures value { seen_head result ≡ read_head mode frame.now }
    ensures back { IfOk result (λ x. head_bytes x.0 ++ x.1.now ≡ frame.now) }
{
    match mode {
        NetworkMode::Single => standard_head(frame),
        NetworkMode::Network => network_head(frame),
    }
}

/// Reads a frame, as the module `own` hears it.
#[inline(always)]
pub fn read_request(frame: &[u8], mode: NetworkMode, own: u16) -> Result<Request<'_>, Refusal>
    ensures value { seen_request result ≡ read_request mode own frame.now }
    ensures back { IfOk result (λ q. request_bytes (request_parts q) ≡ frame.now) }
{
    let (head, rest) = heard_head(mode, frame)?;
    if !is_for(head.form, own) {
        return Err(Refusal::Terminal);
    }
    let data = request_data(head, rest)?;
    Ok(Request {
        form: head.form,
        command: head.command,
        param: head.param,
        size: head.size,
        flag: head.flag,
        data,
    })
}

/// Writes a request at the front of `out`, and says how many bytes it takes.
/// Where it has no room, nothing is written.
pub fn write_request(out: &mut [u8], request: Request<'_>) -> Option<usize>
    ensures count { result ≡ written_count (request_bytes (request_parts request.entry)) out.old }
    ensures bytes { out.new ≡ written (request_bytes (request_parts request.entry)) out.old }
    ensures reads { (mode : NetworkMode) (own : ℕ) → Heard mode own (request_parts request.entry)
        → IfSome result (λ n. read_request mode own (take n out.new) ≡ Ok (request_parts request.entry)) }
{
    let head = Head {
        form: request.form,
        command: request.command,
        param: request.param,
        size: request.size,
        flag: request.flag,
    };
    let data = asks_with_data(request.command).then_some(request.data);
    Packet { head, data }.write(out)
}
