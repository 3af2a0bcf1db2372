ghost use Rattle.std.specs.Prelude.{◌≡◌};
ghost use Rattle.point_matcher.specs.Points.{needed, point_yes};

use crate::points::Points;
use matcher::{Matcher, Strictness};

/// How many points of a scan have to lie near stored ones, by strictness.
const NEEDED: [usize; 15] = [6, 7, 8, 9, 10, 11, 12, 14, 16, 18, 20, 23, 26, 29, 32];

/// How many points of a scan have to lie near stored ones.
fn needed(strictness: Strictness) -> usize
    ensures { result ≡ needed strictness.value }
{
    NEEDED[usize::from(strictness.value())]
}

/// Says yes if enough points of the scan lie near stored ones; the stricter, the more it takes.
#[derive(Clone, Copy, Debug)]
pub struct PointMatcher;

impl Matcher for PointMatcher {
    ghost yes = { λ _ stored scan strictness. point_yes stored scan strictness };

    fn agrees(&self, stored: &[u8], scan: &[u8], strictness: Strictness) -> bool {
        let (Some(stored), Some(scan)) = (Points::read(stored), Points::read(scan)) else {
            return false;
        };
        stored.near_count(&scan) >= needed(strictness)
    }
}
