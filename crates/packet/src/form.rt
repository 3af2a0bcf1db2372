ghost use Rattle.std.specs.Prelude.{Some};
ghost use Rattle.packet.specs.Forms.{form_text};

use codes::{Coded, Command};
use std::fmt;

/// The first byte of a standard packet.
pub(crate) const STANDARD_START: u8 = 0x40;

/// The first byte of a network packet.
pub(crate) const NETWORK_START: u8 = 0x41;

/// The last byte of a packet, and of the data behind one.
pub(crate) const END_CODE: u8 = 0x0A;

/// The two forms of a packet.
#[derive(Clone, Copy, PartialEq, Eq, Debug)]
pub enum Form {
    /// 13 bytes.
    Standard,
    /// 15 bytes, with a terminal number.
    Network(u16),
}

impl fmt::Display for Form {
    ghost output = { λ form. Some (form_text form) };

    fn fmt<W: fmt::Write>(&self, f: &mut fmt::Formatter<W>) -> fmt::Result {
        match self {
            Form::Standard => write!(f, "standard"),
            Form::Network(0) => write!(f, "network, broadcast"),
            Form::Network(terminal) => write!(f, "network, terminal {terminal}"),
        }
    }
}

/// The fields that requests and responses share.
#[derive(Clone, Copy, PartialEq, Eq, Debug)]
pub(crate) struct Head {
    pub form: Form,
    pub command: Coded<Command>,
    pub param: u32,
    pub size: u32,
    /// The flag of a request, the code of a response.
    pub flag: u8,
}

/// A packet, with the data behind it where it carries any.
#[derive(Clone, Copy, PartialEq, Eq)]
pub(crate) struct Packet<'a> {
    pub head: Head,
    pub data: Option<&'a [u8]>,
}
