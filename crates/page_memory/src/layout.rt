ghost use Rattle.page_memory.specs.Pages.{Apart, Inside, Filed};

use crate::directory::{MOST_PAGES, Record};

// The struct stands alone here: what contracts say of a memory names it, and its invariant must not lead back to that.

/// A chip's bytes in pages, and the directory of the templates on them.
#[derive(Drop)]
pub struct PageMemory {
    pub(crate) bytes: Vec<u8>,
    /// The first `count` records are the templates in order; the next ones, up to the capacity, name the free pages.
    pub(crate) directory: [Record; MOST_PAGES],
    pub(crate) count: usize,
    ghost filed: { Filed bytes.items directory count },
    ghost inside: { Inside bytes.items directory },
    ghost apart: { Apart directory },
}
