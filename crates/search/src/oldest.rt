ghost use Rattle.std.specs.Prelude.{◌≡◌, ◌<◌, ◌≤◌, cond, ◌&&◌, length, None, nat_le};
ghost use Rattle.memory.specs.Held.{held_at};
ghost use Rattle.search.specs.Laws.{FindsOldest};
ghost use Rattle.search.specs.Oldest.{any_of, oldest, passes};
ghost use Rattle.search.specs.Sought.{agrees_in, held_in};

use crate::allowed::{Allowed, Everyone};
use crate::ids::{MOST_TEMPLATES, count_in};
use matcher::{Matcher, Strictness};
use memory::Memory;
use std::fmt;

/// A scan that is looked up in a memory, by a matcher at a strictness.
/// Templates are copied into a work buffer, which is the caller's to clear; in one that is too short, nothing agrees.
#[derive(Drop)]
pub struct Search<'a, M, S> {
    pub matcher: &'a M,
    pub memory: &'a S,
    pub scan: &'a [u8],
    pub strictness: Strictness,
}

/// Leaves the scan out, so that no log shows it.
impl<M: fmt::Debug, S: fmt::Debug> fmt::Debug for Search<'_, M, S> {
    fn fmt<W: fmt::Write>(&self, f: &mut fmt::Formatter<W>) -> fmt::Result {
        f.debug_struct("Search")
            .field("matcher", self.matcher)
            .field("memory", self.memory)
            .field("strictness", &self.strictness)
            .finish_non_exhaustive()
    }
}

impl<'a, M: Matcher, S: Memory> Search<'a, M, S> {
    /// Whether the template at `place` agrees; it is copied into `work`.
    fn agrees_at(&self, place: usize, work: &mut [u8]) -> bool
        requires in_bounds { S.Memory.T ≤ length work.old }
        requires place_in_bounds { place < length (held_in S.Memory self.now) }
        ensures { result ≡ agrees_in M.Matcher self.now
            (held_at (held_in S.Memory self.now) place).template }
    {
        let Some(size) = self.memory.copy_at(place, work) else {
            return false;
        };
        self.matcher
            .agrees(&work[0..size], self.scan, self.strictness)
    }

    /// The oldest template that agrees, of an ID that is allowed: its ID, and its number within that ID.
    pub fn oldest<A: Allowed>(&self, allowed: &A, work: &mut [u8]) -> Option<(u16, u32)>
        ensures value { result ≡ cond (nat_le S.Memory.T (length work.old))
            (oldest
            (passes (A.Allowed.allowed allowed.now) (agrees_in M.Matcher self.now))
            (held_in S.Memory self.now))
            None }
        ensures finds { S.Memory.T ≤ length work.old → FindsOldest
            (passes (A.Allowed.allowed allowed.now) (agrees_in M.Matcher self.now))
            (held_in S.Memory self.now) result }
    {
        if work.len() < S::T {
            return None;
        }
        // Which ID to count is known only once a template is found, so the older IDs are kept rather than read again.
        // They lie by place: a push to an ArrayVec made a search by bytes a tenth slower.
        let mut older = [0; MOST_TEMPLATES];
        for place in 0..self.memory.count() {
            let id = self.memory.id_at(place)?;
            if allowed.allows(id) && self.agrees_at(place, work) {
                return Some((id, count_in(&older[..place], id)));
            }
            older[place] = id;
        }
        None
    }

    /// Whether any held template agrees.
    pub fn any_agrees(&self, work: &mut [u8]) -> bool
        ensures { result ≡ nat_le S.Memory.T (length work.old) && any_of
            (λ e. agrees_in M.Matcher self.now e.template)
            (held_in S.Memory self.now) }
    {
        self.oldest(&Everyone, work).is_some()
    }
}
