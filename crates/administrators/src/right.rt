ghost use Rattle.std.specs.Prelude.{◌≡◌};
ghost use Rattle.administrators.specs.Rights.{permits};

use machine::Level;

/// What an administrator's level may allow.
#[derive(Clone, Copy, PartialEq, Eq, Debug)]
pub enum Right {
    /// Let others enrol.
    Enroll,
    /// Let others delete.
    Delete,
}

impl Right {
    /// Whether an administrator of the level has the right.
    pub fn comes_with(self, level: Level) -> bool
        ensures { result ≡ permits self level }
    {
        match self {
            Right::Enroll => matches!(level, Level::Enroll | Level::All),
            Right::Delete => matches!(level, Level::Delete | Level::All),
        }
    }
}
