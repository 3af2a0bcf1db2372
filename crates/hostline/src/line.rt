use digits::{Fault, read_hex_into};
use std::alloc::AllocError;
use std::fmt;

/// Why a line is no frame.
#[derive(Clone, Copy, PartialEq, Eq, Debug)]
pub(crate) enum IllFormed {
    /// Nothing stands in it.
    Empty,
    /// What stands at this place, counted from 0, is no digit.
    NoDigit(usize),
    /// There are only digits, and the last one has no partner.
    Odd,
}

impl fmt::Display for IllFormed {
    fn fmt<W: fmt::Write>(&self, f: &mut fmt::Formatter<W>) -> fmt::Result {
        match self {
            IllFormed::Empty => f.write_str("no digits"),
            IllFormed::NoDigit(at) => {
                let column = at.saturating_add(1);
                write!(f, "no digit 0 to 9 or A to F in column {column}")
            }
            IllFormed::Odd => f.write_str("an odd number of digits"),
        }
    }
}

/// Reads the frame of a line into a buffer, in place of what that held, and says why the line is no frame, if it is
/// none. A carriage return at the line's end does not count. An `Err` says that there was no memory for the frame.
pub(crate) fn read_frame(
    line: &[u8],
    frame: &mut Vec<u8>,
) -> Result<Option<IllFormed>, AllocError> {
    let digits = line.strip_suffix(b"\r").unwrap_or(line);
    if digits.is_empty() {
        return Ok(Some(IllFormed::Empty));
    }
    match read_hex_into(digits, frame) {
        Ok(()) => Ok(None),
        Err(Fault::NoDigit(at)) => Ok(Some(IllFormed::NoDigit(at))),
        Err(Fault::Odd) => Ok(Some(IllFormed::Odd)),
        Err(Fault::Memory(error)) => Err(error),
    }
}
