ghost use Rattle.std.specs.Prelude.{◌≡◌, ◌≤◌, length, MatchResult, Some};
ghost use Rattle.phases.specs.Scans.{scan_fault};

use crate::scan::Scan;
use codes::Code;
use memory::Memory;
use std::marker::PhantomData;

/// A scan that is as long as a template of the memory `S`, and of sufficient quality.
#[derive(Drop)]
pub(crate) struct GoodScan<'a, S: Memory> {
    pub(crate) bytes: &'a [u8],
    pub(crate) quality: u8,
    of: PhantomData<S>,
    ghost long: { length bytes.now ≡ S.Memory.T },
    ghost clear: { 30 ≤ quality },
    ghost within: { quality ≤ 100 },
}

impl<'a, S: Memory> TryFrom<Scan<'a>> for GoodScan<'a, S> {
    /// Why the scan is no good.
    type Error = Code;

    ghost try_from_gives = { λ scan result. MatchResult result
        (λ good. (good.bytes.now ≡ scan.bytes.now) × (good.quality ≡ scan.quality))
        (λ code. Some code ≡ scan_fault (length scan.bytes.now) S.Memory.T scan.quality) };

    fn try_from(scan: Scan<'a>) -> Result<GoodScan<'a, S>, Code> {
        if scan.bytes.len() != S::T || scan.quality > 100 {
            return Err(Code::ScanFail);
        }
        if scan.quality < 30 {
            return Err(Code::TryAgain);
        }
        Ok(GoodScan {
            bytes: scan.bytes,
            quality: scan.quality,
            of: PhantomData,
        })
    }
}
