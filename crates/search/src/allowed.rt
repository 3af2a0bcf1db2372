ghost use Rattle.std.specs.Prelude.{◌≡◌, ℕ, Bool, true};
ghost use Rattle.search.specs.Ids.{within};

/// The IDs that a search may find.
pub trait Allowed {
    ghost allowed: { Self → ℕ → Bool };

    /// Whether the ID may be found.
    fn allows(&self, id: u16) -> bool
        ensures { result ≡ allowed self.now id };
}

/// All IDs.
#[derive(Clone, Copy, PartialEq, Eq, Debug)]
pub struct Everyone;

impl Allowed for Everyone {
    ghost allowed = { λ _ _. true };

    fn allows(&self, _id: u16) -> bool {
        true
    }
}

/// The IDs from the least to the greatest, both counted in; one ID where they are equal.
#[derive(Clone, Copy, PartialEq, Eq, Debug)]
pub struct IdRange {
    pub least: u16,
    pub greatest: u16,
}

impl Allowed for IdRange {
    ghost allowed = { λ s id. within s.least s.greatest id };

    fn allows(&self, id: u16) -> bool {
        self.least <= id && id <= self.greatest
    }
}
