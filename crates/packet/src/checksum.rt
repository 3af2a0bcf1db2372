ghost use Rattle.std.specs.Prelude.{◌≡◌};
ghost use Rattle.packet.specs.Numbers.{checksum_of};

/// The sum of `bytes` modulo 256.
pub(crate) fn checksum(bytes: &[u8]) -> u8
    ensures { result ≡ checksum_of bytes.now }
{
    bytes.iter().fold(0, |sum: u8, b| sum.wrapping_add(*b))
}
