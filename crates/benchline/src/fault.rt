use std::alloc::AllocError;
use std::fmt;

/// Why a line asks nothing. Places are counted from 0.
#[derive(Clone, Copy, PartialEq, Eq, Debug)]
pub enum IllFormed {
    /// Nothing stands in it.
    Empty,
    /// A byte stands at a place where it cannot stand.
    Misplaced { at: usize, byte: u8 },
    /// It ends behind its letter, where a blank has to stand.
    NoBlank,
    /// It has an odd number of digits, so the last one has no partner.
    OddDigits,
    /// F with no digits, and so with no quality.
    NoQuality,
}

/// Why a line was not read.
#[derive(Clone, Copy, PartialEq, Eq, Debug)]
pub enum Unread {
    /// The line is ill-formed.
    Line(IllFormed),
    /// There is no memory for its bytes.
    Memory(AllocError),
}

/// What a byte is called, where it has a name that says more than its number.
fn byte_name(byte: u8) -> Option<&'static str> {
    match byte {
        b'\r' => Some("a carriage return"),
        b'\t' => Some("a tab"),
        b' ' => Some("a blank"),
        b'a'..=b'z' => Some("a lower case letter"),
        _ => None,
    }
}

impl fmt::Display for IllFormed {
    fn fmt<W: fmt::Write>(&self, f: &mut fmt::Formatter<W>) -> fmt::Result {
        match *self {
            IllFormed::Empty => f.write_str("it is empty"),
            IllFormed::Misplaced { at, byte } => {
                let column = at.saturating_add(1);
                match byte_name(byte) {
                    Some(name) => write!(f, "{name} in column {column}"),
                    None => write!(f, "the byte 0x{byte:02X} in column {column}"),
                }
            }
            IllFormed::NoBlank => f.write_str("no blank behind its letter"),
            IllFormed::OddDigits => f.write_str("an odd number of digits"),
            IllFormed::NoQuality => f.write_str("F without a quality"),
        }
    }
}
