//! The rows in a chip's bytes, one at a time.

ghost use Rattle.std.specs.Prelude.{◌≡◌, ◌+◌, ◌*◌, ◌<◌, ◌≤◌, ◌++◌, length, drop};
ghost use Rattle.memory.specs.Held.{ids_after, fitting_ids};
ghost use Rattle.row_memory.specs.Rows.{closed, closed_first, held_in, row_at, row_of, rows_in, written};

use memory::LISTED_ID;

/// The bytes of a row: an ID in two bytes, low byte first, and a template.
pub const ROW: usize = 386;

/// The bytes of an ID.
const ID: usize = 2;

/// The ID of the row at a place.
pub(crate) fn read_id(bytes: &[u8], place: usize) -> u16
    requires { place * 386 + 386 ≤ length bytes.now }
    ensures { result ≡ (held_in (row_at bytes.now place)).id }
{
    let start = place * ROW;
    u16::from_le_bytes([bytes[start], bytes[start + 1]])
}

/// Writes the IDs of the first `count` rows from a place on to the front of `into`, each in four bytes, low byte first:
/// as many as there are and as fit. Says how many. The rows and `into` are slices, so that LLVM takes several rows at a
/// time where they do not overlap.
pub(crate) fn write_ids(bytes: &[u8], count: usize, from: usize, into: &mut [u8]) -> usize
    requires { count * 386 ≤ length bytes.now }
    ensures value { result ≡ length (fitting_ids (rows_in bytes.now count) from into.old) }
    ensures after { into.new ≡ ids_after (rows_in bytes.now count) from into.old }
{
    let number = count.saturating_sub(from).min(into.len() / LISTED_ID);
    for k in 0..number {
        let id = read_id(bytes, from + k);
        let at = LISTED_ID * k;
        into[at..at + LISTED_ID].copy_from_slice(&u32::from(id).to_le_bytes());
    }
    number
}

/// Copies the template of the row at a place to the front of `into`.
pub(crate) fn read_template(bytes: &[u8], place: usize, into: &mut [u8])
    requires place_in_bounds { place * 386 + 386 ≤ length bytes.now }
    requires in_bounds { 384 ≤ length into.old }
    ensures { into.new ≡ (held_in (row_at bytes.now place)).template ++ drop 384 into.old }
{
    let start = place * ROW;
    into[..ROW - ID].copy_from_slice(&bytes[start + ID..start + ROW]);
}

/// Writes the row at a place.
pub(crate) fn write_row(bytes: &mut [u8], place: usize, id: u16, template: &[u8])
    requires place_in_bounds { place * 386 + 386 ≤ length bytes.old }
    requires template_len { length template.now ≡ 384 }
    ensures { bytes.new ≡ written bytes.old place (row_of id template.now) }
{
    let start = place * ROW;
    bytes[start..start + ID].copy_from_slice(&id.to_le_bytes());
    bytes[start + ID..start + ROW].copy_from_slice(template);
}

/// Moves all rows but the first down by one. Only where the rows' start is a pointer of its own does LLVM make one
/// `memmove` of this, with less than half the instructions.
#[inline(never)]
fn close_first(rows: &mut [u8])
    requires { 386 ≤ length rows.old }
    ensures { rows.new ≡ closed_first rows.old }
{
    rows.copy_within(ROW.., 0);
}

/// Moves the rows past a place, up to `count`, down by one.
pub(crate) fn close_row(bytes: &mut [u8], count: usize, place: usize)
    requires place_lt_count { place < count }
    requires count_in_bounds { count * 386 ≤ length bytes.old }
    ensures { bytes.new ≡ closed bytes.old count place }
{
    let start = place * ROW;
    close_first(&mut bytes[start..count * ROW]);
}
