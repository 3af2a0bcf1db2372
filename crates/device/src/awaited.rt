use machine::Enrollment;
use search::IdRange;
use std::fmt;

/// The bytes of the longest template of any memory.
pub const LONGEST_TEMPLATE: usize = 384;

/// What a request waits for.
#[derive(Clone, Copy, PartialEq, Eq, Debug)]
pub enum Awaited {
    Nothing,
    /// ESA: an administrator.
    GrantToEnroll(Enrollment),
    /// DSA: an administrator.
    GrantToDelete(IdRange),
    /// ES, ESA: the first finger.
    FirstFinger(Enrollment),
    /// ES, ESA: the second finger, while the first scan is kept.
    SecondFinger(Enrollment),
    /// VS: a finger of this ID.
    PersonToVerify(u16),
    /// IS: a finger of an ID in the range.
    PersonToIdentify(IdRange),
    /// DSA: a finger of an ID in the range.
    PersonToDelete(IdRange),
}

/// The scan of a first finger, at the front of the bytes, with its quality.
#[derive(Clone, Copy)]
pub struct FirstScan {
    pub bytes: [u8; LONGEST_TEMPLATE],
    pub quality: u8,
}

/// Leaves the bytes out, so that no log shows a scan.
impl fmt::Debug for FirstScan {
    fn fmt<W: fmt::Write>(&self, f: &mut fmt::Formatter<W>) -> fmt::Result {
        f.debug_struct("FirstScan")
            .field("quality", &self.quality)
            .finish_non_exhaustive()
    }
}
