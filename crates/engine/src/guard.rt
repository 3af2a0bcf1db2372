ghost use Rattle.std.specs.Prelude.{◌≡◌, length, replicate};

/// Lent work bytes, which are cleared at its end, whatever way a call takes: templates and scans pass through them.
pub(crate) struct Cleared<'a>(pub(crate) &'a mut [u8]);

impl Drop for Cleared<'_> {
    fn drop(self)
        ensures { self.exit.0.now ≡ replicate (length self.entry.0.now) 0 }
    {
        self.0.fill(0);
        let Cleared(_) = self;
    }
}
