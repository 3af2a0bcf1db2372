//! What the modules are made of.

ghost use Rattle.std.specs.Prelude.{◌≡◌, IfOk, min};
ghost use Rattle.engine.specs.Seen.{state};
ghost use Rattle.machine.specs.State.{fresh};

use crate::workbench::Workbench;
use matcher::Matcher;
use memory::Memory;
use page_memory::PageMemory;
use row_memory::{MOST_ROWS, RowMemory};
use session::{page_memory, row_memory};
use std::alloc::{AllocError, Global};

/// How many templates a full row memory holds.
pub(crate) const HELD: u16 = MOST_ROWS as u16;

/// A fresh module of number 1 over a page memory of so many pages, and of no more than it can have.
pub(crate) fn over_pages<M: Matcher + Drop>(
    heap: Global,
    matcher: M,
    pages: u16,
) -> Result<Workbench<M, PageMemory>, AllocError>
    ensures { IfOk result (λ bench. state M.Matcher ⟦<PageMemory as Memory>⟧ bench.«module»
        ≡ fresh (M.Matcher.yes matcher) 256 (min 64 pages) 1) }
{
    Ok(Workbench::new(matcher, page_memory(heap, pages)?))
}

/// A fresh module of number 1 over a row memory of as many rows as it can have.
pub(crate) fn over_rows<M: Matcher + Drop>(
    heap: Global,
    matcher: M,
) -> Result<Workbench<M, RowMemory>, AllocError>
    ensures { IfOk result (λ bench. state M.Matcher ⟦<RowMemory as Memory>⟧ bench.«module»
        ≡ fresh (M.Matcher.yes matcher) 384 500 1) }
{
    Ok(Workbench::new(matcher, row_memory(heap, HELD)?))
}
