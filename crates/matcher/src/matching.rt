ghost use Rattle.std.specs.Prelude.{◌≡◌, ℕ, Bool, List};

use crate::strictness::Strictness;

/// A matcher, by its answers: whether a scan agrees with a stored template, at each strictness.
pub trait Matcher {
    ghost yes: { Self → List ℕ → List ℕ → ℕ → Bool };

    /// Whether the scan agrees with the stored template.
    fn agrees(&self, stored: &[u8], scan: &[u8], strictness: Strictness) -> bool
        ensures { result ≡ yes self.now stored.now scan.now strictness.value };
}
