ghost use Rattle.std.specs.Prelude.{◌≡◌, ◌+◌, ◌*◌, [], ◌∷◌};
ghost use Rattle.packet.specs.Heads.{field_bytes, fields_at};
ghost use Rattle.packet.specs.Numbers.{bytes16, bytes32};

use crate::form::{Form, Head};
use codes::Coded;

/// The number in two bytes, low byte first.
pub(crate) fn number16(b0: u8, b1: u8) -> u16
    ensures value { result ≡ b0 + b1 * 256 }
    ensures back { bytes16 result ≡ b0 ∷ b1 ∷ [] }
{
    u16::from_le_bytes([b0, b1])
}

/// The number in four bytes, low byte first.
fn number32(b0: u8, b1: u8, b2: u8, b3: u8) -> u32
    ensures value { result ≡ b0 + b1 * 256 + b2 * 65536 + b3 * 16777216 }
    ensures back { bytes32 result ≡ b0 ∷ b1 ∷ b2 ∷ b3 ∷ [] }
{
    u32::from_le_bytes([b0, b1, b2, b3])
}

impl Head {
    /// The head with the fields that stand in a packet from its command on.
    pub fn of(form: Form, fields: [u8; 10]) -> Head
        ensures value { result ≡ fields_at form 0 fields }
        ensures back { field_bytes result.command result.param result.size result.flag ≡ fields }
    {
        let [command, p0, p1, p2, p3, s0, s1, s2, s3, flag] = fields;
        Head {
            form,
            command: Coded::from(command),
            param: number32(p0, p1, p2, p3),
            size: number32(s0, s1, s2, s3),
            flag,
        }
    }

    /// The fields as they stand in a packet from its command on.
    pub fn field_bytes(self) -> [u8; 10]
        ensures { result ≡ field_bytes self.command self.param self.size self.flag }
    {
        let [p0, p1, p2, p3] = self.param.to_le_bytes();
        let [s0, s1, s2, s3] = self.size.to_le_bytes();
        [
            u8::from(self.command),
            p0,
            p1,
            p2,
            p3,
            s0,
            s1,
            s2,
            s3,
            self.flag,
        ]
    }
}
