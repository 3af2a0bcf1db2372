ghost use Rattle.std.specs.Prelude.{◌≡◌, IfOk};
ghost use Rattle.hostline.specs.Heard.{heard};
ghost use Rattle.packet.specs.Requests.{request_bytes, request_parts, seen_request};

use codes::{NetworkMode, Refusal};
use packet::{Request, read_request};

/// Which packets are heard.
#[derive(Clone, Copy, PartialEq, Eq, Debug)]
pub(crate) enum Hearing {
    /// Standard packets.
    Standard,
    /// Network packets to the module of this number, and to every module.
    Network(u16),
}

impl Hearing {
    /// Reads a frame, as it is heard.
    pub fn read(self, frame: &[u8]) -> Result<Request<'_>, Refusal>
        ensures value { seen_request result ≡ heard self frame.now }
        ensures back { IfOk result (λ q. request_bytes (request_parts q) ≡ frame.now) }
    {
        match self {
            Hearing::Standard => read_request(frame, NetworkMode::Single, 0),
            Hearing::Network(own) => read_request(frame, NetworkMode::Network, own),
        }
    }
}
