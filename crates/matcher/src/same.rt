ghost use Rattle.std.specs.Str.{bytes_eq};

use crate::matching::Matcher;
use crate::strictness::Strictness;

/// Says yes for equal bytes of equal length, however strict.
#[derive(Clone, Copy, Debug)]
pub struct ByteMatcher;

impl Matcher for ByteMatcher {
    ghost yes = { λ _ stored scan _. bytes_eq stored scan };

    fn agrees(&self, stored: &[u8], scan: &[u8], _strictness: Strictness) -> bool {
        stored == scan
    }
}
