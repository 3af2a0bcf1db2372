ghost use Rattle.std.specs.Prelude.{◌≡◌, ◌≤◌, Some};
ghost use Rattle.matcher.specs.Levels.{StricterIsRarer, level_number, levels, strictness_at, strictness_of};
ghost use Rattle.codes.specs.Numbers.{numbered};
ghost use Rattle.matcher.specs.Known.{level-apart};

use crate::strictness::Strictness;
use codes::{NoCase, Numbered};

/// The values of the parameter Security Level, each by its false acceptance rate.
#[derive(Clone, Copy, PartialEq, Eq, Debug)]
pub enum SecurityLevel {
    /// 1 in 10.
    OneIn10 = 0x30,
    /// 1 in 100.
    OneIn100 = 0x31,
    /// 1 in 1,000.
    OneIn1k = 0x32,
    /// 1 in 10,000.
    OneIn10k = 0x33,
    /// 1 in 100,000.
    OneIn100k = 0x34,
    /// 1 in 1,000,000.
    OneIn1M = 0x35,
    /// 1 in 10,000,000.
    OneIn10M = 0x36,
    /// 1 in 100,000,000.
    OneIn100M = 0x37,
    /// 3 in 100.
    ThreeIn100 = 0x40,
    /// 3 in 1,000.
    ThreeIn1k = 0x41,
    /// 3 in 10,000.
    ThreeIn10k = 0x42,
    /// 3 in 100,000.
    ThreeIn100k = 0x43,
    /// 3 in 1,000,000.
    ThreeIn1M = 0x44,
    /// 3 in 10,000,000.
    ThreeIn10M = 0x45,
    /// 3 in 100,000,000.
    ThreeIn100M = 0x46,
}

impl From<SecurityLevel> for u8 {
    ghost from_gives = { λ level number. number ≡ level_number level };

    fn from(level: SecurityLevel) -> u8 {
        level as u8
    }
}

impl TryFrom<u8> for SecurityLevel {
    type Error = NoCase;

    ghost try_from_gives = { λ number level. level ≡ numbered level_number levels number };

    fn try_from(byte: u8) -> Result<SecurityLevel, NoCase> {
        match byte {
            0x30 => Ok(SecurityLevel::OneIn10),
            0x31 => Ok(SecurityLevel::OneIn100),
            0x32 => Ok(SecurityLevel::OneIn1k),
            0x33 => Ok(SecurityLevel::OneIn10k),
            0x34 => Ok(SecurityLevel::OneIn100k),
            0x35 => Ok(SecurityLevel::OneIn1M),
            0x36 => Ok(SecurityLevel::OneIn10M),
            0x37 => Ok(SecurityLevel::OneIn100M),
            0x40 => Ok(SecurityLevel::ThreeIn100),
            0x41 => Ok(SecurityLevel::ThreeIn1k),
            0x42 => Ok(SecurityLevel::ThreeIn10k),
            0x43 => Ok(SecurityLevel::ThreeIn100k),
            0x44 => Ok(SecurityLevel::ThreeIn1M),
            0x45 => Ok(SecurityLevel::ThreeIn10M),
            0x46 => Ok(SecurityLevel::ThreeIn100M),
            _ => Err(NoCase(byte)),
        }
    }
}

impl Numbered for SecurityLevel {
    ghost number_of = { level_number };

    ghost cases = { levels };

    ghost gives = { λ c n is. is };

    ghost found = { λ n r is. is };

    ghost apart = { level-apart };
}

impl SecurityLevel {
    /// How many levels have a greater rate.
    fn rank(self) -> u8
        ensures value { result ≡ strictness_of self }
        ensures bound { result ≤ 14 }
    {
        match self {
            SecurityLevel::OneIn10 => 0,
            SecurityLevel::ThreeIn100 => 1,
            SecurityLevel::OneIn100 => 2,
            SecurityLevel::ThreeIn1k => 3,
            SecurityLevel::OneIn1k => 4,
            SecurityLevel::ThreeIn10k => 5,
            SecurityLevel::OneIn10k => 6,
            SecurityLevel::ThreeIn100k => 7,
            SecurityLevel::OneIn100k => 8,
            SecurityLevel::ThreeIn1M => 9,
            SecurityLevel::OneIn1M => 10,
            SecurityLevel::ThreeIn10M => 11,
            SecurityLevel::OneIn10M => 12,
            SecurityLevel::ThreeIn100M => 13,
            SecurityLevel::OneIn100M => 14,
        }
    }

    /// How strict a match at this level is: the levels are numbered by falling rate, from 0.
    pub fn strictness(self) -> Strictness
        ensures { result.value ≡ strictness_of self }
    {
        Strictness { value: self.rank() }
    }
}

/// The order of the levels, and the strictness of five of them.
pub fn level_order()
    ensures order { StricterIsRarer }
    ensures marked { (strictness_at 0x30 ≡ Some 0) × (strictness_at 0x40 ≡ Some 1) × (strictness_at 0x31 ≡ Some 2)
        × (strictness_at 0x46 ≡ Some 13) × (strictness_at 0x37 ≡ Some 14) }
{}
