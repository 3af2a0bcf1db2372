ghost use Rattle.device.specs.View.{view};
ghost use Rattle.promises.specs.Runs.{Reached};

use device::Device;
use matcher::Matcher;
use memory::Memory;

// The struct stands alone here: what contracts say of a module names it, and its invariant must not lead back to that.

/// A fingerprint module: a matcher, a memory, and what it keeps itself. It was made, and then came to what it is by
/// calls: no other module can be written.
#[derive(Debug, Drop)]
pub struct Module<M: Matcher, S: Memory> {
    pub(crate) device: Device<M, S>,
    ghost reached: { ∥ Reached (view M.Matcher S.Memory device) ∥₁ },
}
