ghost use Rattle.std.specs.Prelude.{◌≡◌, true};
ghost use Rattle.packet.specs.Around.{data_place, standing};
ghost use Rattle.packet.specs.Packets.{packet_bytes, written, written_count};
ghost use Rattle.packet.specs.Responses.{bytes_in, reply_form};

use crate::form::{END_CODE, Form, Head, Packet};
use crate::response::{Outcome, carries_data, outcome_head, reply_form};
use crate::write::{head_length, write_head};

/// Where the data of a reply to a request of this form stands in the reply; none for a broadcast, and
/// none for an outcome that carries no data. What LT and RT answer is put there before the packet,
/// straight from the memory: no other buffer holds all the IDs that LT answers.
pub fn data_place(to: Form, outcome: Outcome) -> Option<usize>
    ensures { result ≡ data_place to outcome }
{
    if !carries_data(outcome) {
        return None;
    }
    match to {
        Form::Network(0) => None,
        _ => Some(head_length(to)),
    }
}

/// Writes a packet at the front of `out`, and 0x0A behind its data, `length` bytes that stand behind it
/// already. Says how many bytes that are; where they have no room, nothing is written.
#[inline(always)]
fn write_around(out: &mut [u8], head: Head, length: usize) -> Option<usize>
    ensures count { result ≡ written_count
        (packet_bytes head true (standing head.form length out.old)) out.old }
    ensures bytes { out.new ≡ written
        (packet_bytes head true (standing head.form length out.old)) out.old }
{
    let end = head_length(head.form).checked_add(length)?;
    if out.len() <= end {
        return None;
    }
    write_head(out, head);
    out[end] = END_CODE;
    Some(end + 1)
}

/// Writes a reply at the front of `out` around its data, `length` bytes that stand there already, from
/// `data_place` on, and says how many bytes it takes: none for a broadcast. An outcome that carries no
/// data is the packet alone. Where the whole has no room, nothing is written.
#[inline(always)]
pub fn write_reply_around(
    out: &mut [u8],
    own: u16,
    to: Form,
    outcome: Outcome,
    length: usize,
) -> Option<usize>
    ensures count { result ≡ written_count
        (bytes_in (reply_form own to) outcome (standing to length out.old)) out.old }
    ensures bytes { out.new ≡ written
        (bytes_in (reply_form own to) outcome (standing to length out.old)) out.old }
{
    let Some(form) = reply_form(own, to) else {
        return Some(0);
    };
    let head = outcome_head(form, outcome);
    if carries_data(outcome) {
        write_around(out, head, length)
    } else {
        Packet { head, data: None }.write(out)
    }
}
