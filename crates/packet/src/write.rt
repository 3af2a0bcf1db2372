ghost use Rattle.std.specs.Prelude.{◌≡◌, ◌+◌, ◌≤◌, [], ◌∷◌, ◌++◌, length, drop};
ghost use Rattle.packet.specs.Heads.{closed, head_bytes, head_length};
ghost use Rattle.packet.specs.Packets.{bytes_of, written, written_count};

use crate::checksum::checksum;
use crate::form::{END_CODE, Form, Head, NETWORK_START, Packet, STANDARD_START};

/// Writes what the checksum of a packet is over, its start and its fields, then the checksum and the end
/// code at the front of `out`, and says how many bytes that are.
#[inline(always)]
fn write_closed(out: &mut [u8], start: &[u8], fields: &[u8]) -> usize
    requires { length start.now + length fields.now + 2 ≤ length out.old }
    ensures count { result ≡ length start.now + length fields.now + 2 }
    ensures bytes { out.new ≡ closed (start.now ++ fields.now)
        ++ drop (length start.now + length fields.now + 2) out.old }
{
    let front = start.len();
    let n = front + fields.len();
    out[0..front].copy_from_slice(start);
    out[front..n].copy_from_slice(fields);
    out[n] = checksum(&out[0..n]);
    out[n + 1] = END_CODE;
    n + 2
}

/// Writes a packet without data at the front of `out`, and says how long it is.
#[inline(always)]
pub(crate) fn write_head(out: &mut [u8], head: Head) -> usize
    requires { head_length head.form ≤ length out.old }
    ensures count { result ≡ head_length head.form }
    ensures bytes { out.new ≡ head_bytes head
        ++ drop (head_length head.form) out.old }
{
    let fields = head.field_bytes();
    match head.form {
        Form::Standard => write_closed(out, &[STANDARD_START], &fields),
        Form::Network(terminal) => {
            let [t0, t1] = terminal.to_le_bytes();
            write_closed(out, &[NETWORK_START, t0, t1], &fields)
        }
    }
}

/// Writes data and the 0x0A behind it at the front of `out`, and says how many bytes that are.
fn write_data(out: &mut [u8], data: &[u8]) -> usize
    requires { length «data».now + 1 ≤ length out.old }
    ensures count { result ≡ length «data».now + 1 }
    ensures bytes { out.new ≡ («data».now ++ 0x0A ∷ [])
        ++ drop (length «data».now + 1) out.old }
{
    let n = data.len();
    out[0..n].copy_from_slice(data);
    out[n] = END_CODE;
    n + 1
}

/// How long a packet is without data.
pub(crate) fn head_length(form: Form) -> usize
    ensures { result ≡ head_length form }
{
    match form {
        Form::Standard => 13,
        Form::Network(_) => 15,
    }
}

impl Packet<'_> {
    /// How long it is with the data that it carries.
    pub fn length(self) -> usize
        ensures { result ≡ length (bytes_of self.entry) }
    {
        let n = head_length(self.head.form);
        match self.data {
            None => n,
            Some(data) => n + data.len() + 1,
        }
    }

    /// Writes it with the data that it carries at the front of `out`, and says how many bytes it takes.
    /// Where it has no room, nothing is written.
    #[inline(always)]
    pub fn write(self, out: &mut [u8]) -> Option<usize>
        ensures count { result ≡ written_count (bytes_of self.entry) out.old }
        ensures bytes { out.new ≡ written (bytes_of self.entry) out.old }
    {
        if out.len() < self.length() {
            return None;
        }
        let n = write_head(out, self.head);
        let Some(data) = self.data else {
            return Some(n);
        };
        Some(n + write_data(&mut out[n..], data))
    }
}
