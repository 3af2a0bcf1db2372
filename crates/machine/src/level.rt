ghost use Rattle.std.specs.Prelude.{◌≡◌};
ghost use Rattle.codes.specs.Numbers.{numbered};
ghost use Rattle.machine.specs.AdminLevels.{admin_level_number, admin_levels};

use codes::NoCase;
use rows::Keyed;

/// What an administrator may do.
#[derive(Clone, Copy, PartialEq, Eq, Debug, Default)]
pub enum Level {
    /// Let others enrol. The default stands where a vector of rows has none.
    #[default]
    Enroll = 1,
    /// Let others delete.
    Delete = 2,
    /// Both.
    All = 3,
}

impl From<Level> for u8 {
    ghost from_gives = { λ level number. number ≡ admin_level_number level };

    fn from(level: Level) -> u8 {
        level as u8
    }
}

impl TryFrom<u8> for Level {
    type Error = NoCase;

    ghost try_from_gives = { λ number level. level ≡ numbered admin_level_number admin_levels number };

    fn try_from(byte: u8) -> Result<Level, NoCase> {
        match byte {
            1 => Ok(Level::Enroll),
            2 => Ok(Level::Delete),
            3 => Ok(Level::All),
            _ => Err(NoCase(byte)),
        }
    }
}

/// An administrator: an ID and what it may do.
#[derive(Clone, Copy, PartialEq, Eq, Debug, Default)]
pub struct AdminRow {
    pub id: u16,
    pub level: Level,
}

impl AdminRow {
    /// Gives the administrator another level.
    pub fn set_level(&mut self, level: Level)
        ensures { self.new ≡ record { id = self.old.id; level = level } }
    {
        self.level = level;
    }
}

impl Keyed for AdminRow {
    ghost key_of = { λ r. r.id };

    fn key(&self) -> u16 {
        self.id
    }
}
