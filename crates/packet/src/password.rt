ghost use Rattle.std.specs.Prelude.{◌≡◌};
ghost use Rattle.packet.specs.Numbers.{password_sum};

/// The bytes of a password.
pub const PASSWORD_LENGTH: usize = 16;

/// The sum that goes with a password: its sixteen bytes added up.
pub fn password_sum(password: &[u8; PASSWORD_LENGTH]) -> u16
    ensures { result ≡ password_sum password.now }
{
    password.iter().map(|b| u16::from(*b)).sum()
}
