use page_memory::PAGE;
use std::fmt;

/// The bytes of a scan: those of a template of a page memory.
pub(crate) const SCAN: usize = PAGE;

/// The bytes of half a scan.
pub(crate) const HALF: usize = SCAN / 2;

/// Ada's ID.
pub(crate) const ADA: u16 = 1;

/// Ben's ID.
pub(crate) const BEN: u16 = 2;

/// An ID that nobody has.
pub(crate) const NOBODY: u16 = 99;

/// Whoever lays a finger on the module.
#[derive(Clone, Copy)]
pub(crate) enum Person {
    Ada = 201,
    Ben = 202,
}

/// A scan made from a number. Equal numbers make equal scans, which is what a byte matcher wants of one finger.
pub(crate) fn scan_of(number: u8) -> [u8; SCAN] {
    [number; SCAN]
}

impl Person {
    /// What the sensor sees of the person's finger.
    pub fn scan(self) -> [u8; SCAN] {
        scan_of(self as u8)
    }

    /// What the sensor sees of a finger that is lifted too soon.
    pub fn half_a_scan(self) -> [u8; HALF] {
        [self as u8; HALF]
    }
}

impl fmt::Display for Person {
    fn fmt<W: fmt::Write>(&self, f: &mut fmt::Formatter<W>) -> fmt::Result {
        match self {
            Person::Ada => write!(f, "Ada"),
            Person::Ben => write!(f, "Ben"),
        }
    }
}
