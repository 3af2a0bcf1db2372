ghost use Rattle.std.specs.Prelude.{◌≡◌, ◌≤◌, cond, ◌&&◌, length, None, nat_le};
ghost use Rattle.device.specs.View.{view};
ghost use Rattle.machine.specs.Enrollment.{looks_up};
ghost use Rattle.machine.specs.Searches.{agrees, any_agrees, found_by};
ghost use Rattle.search.specs.Sought.{agrees_in};

use crate::keeping::Device;
use codes::EnrollFlag;
use matcher::Matcher;
use memory::Memory;
use search::{Allowed, Search};

impl<M: Matcher, S: Memory> Device<M, S> {
    /// Whether a scan agrees with a stored one, at the security level in force.
    pub fn agrees(&self, stored: &[u8], scan: &[u8]) -> bool
        ensures { result ≡ agrees (view M.Matcher S.Memory self.now) scan.now stored.now }
    {
        let strictness = self.settings.security.strictness();
        self.matcher.agrees(stored, scan, strictness)
    }

    /// A search for a scan, at the security level in force.
    fn search<'a>(&'a self, scan: &'a [u8]) -> Search<'a, M, S>
        ensures asks { agrees_in M.Matcher result ≡ agrees (view M.Matcher S.Memory self.now) scan.now }
        ensures memory { result.memory.now ≡ self.now.memory }
    {
        Search {
            matcher: &self.matcher,
            memory: &self.memory,
            scan,
            strictness: self.settings.security.strictness(),
        }
    }

    /// The oldest template that agrees, of the IDs that are allowed: its ID and its number.
    /// Nothing is found where `work` is too short for a template.
    pub fn find<A: Allowed>(&self, allowed: &A, scan: &[u8], work: &mut [u8]) -> Option<(u16, u32)>
        ensures value { result ≡ cond (nat_le S.Memory.T (length work.old))
            (found_by (view M.Matcher S.Memory self.now) (A.Allowed.allowed allowed.now) scan.now)
            None }
        ensures enough { 384 ≤ length work.old → result ≡ found_by
            (view M.Matcher S.Memory self.now) (A.Allowed.allowed allowed.now) scan.now }
    {
        self.search(scan).oldest(allowed, work)
    }

    /// Whether any held template agrees.
    fn any_agrees(&self, scan: &[u8], work: &mut [u8]) -> bool
        ensures value { result ≡ nat_le S.Memory.T (length work.old)
            && any_agrees (view M.Matcher S.Memory self.now) scan.now }
        ensures enough { 384 ≤ length work.old
            → result ≡ any_agrees (view M.Matcher S.Memory self.now) scan.now }
    {
        self.search(scan).any_agrees(work)
    }

    /// Whether the flag wants a finger that is not held yet, and it is held.
    /// None is held where `work` is too short for a template.
    pub fn is_held(&self, flag: EnrollFlag, scan: &[u8], work: &mut [u8]) -> bool
        ensures value { result ≡ looks_up flag && (nat_le S.Memory.T (length work.old)
            && any_agrees (view M.Matcher S.Memory self.now) scan.now) }
        ensures enough { 384 ≤ length work.old → result ≡ looks_up flag
            && any_agrees (view M.Matcher S.Memory self.now) scan.now }
    {
        flag == EnrollFlag::CheckFinger && self.any_agrees(scan, work)
    }
}
