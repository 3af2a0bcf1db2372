use std::fmt;

/// A scan of a finger, with its quality.
#[derive(Clone, Copy, PartialEq, Eq)]
pub struct Scan<'a> {
    pub bytes: &'a [u8],
    pub quality: u8,
}

/// Leaves the bytes out, so that no log shows a scan.
impl fmt::Debug for Scan<'_> {
    fn fmt<W: fmt::Write>(&self, f: &mut fmt::Formatter<W>) -> fmt::Result {
        f.debug_struct("Scan")
            .field("quality", &self.quality)
            .finish_non_exhaustive()
    }
}

/// What comes to a module: a packet `P`, as it is read so far, a finger's scan `F`, or a second.
#[derive(Clone, Copy, PartialEq, Eq, Debug)]
pub enum Event<P, F> {
    /// A packet has come from the host.
    Packet(P),
    /// A finger has been scanned.
    Finger(F),
    /// A second has passed.
    Second,
}
