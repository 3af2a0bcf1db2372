ghost use Rattle.std.specs.Prelude.{◌≡◌, [], IfOk};
ghost use Rattle.benchline.specs.Lines.{seen};
ghost use Rattle.engine.specs.Seen.{call, state};
ghost use Rattle.engine.specs.Shows.{Served};
ghost use Rattle.session.specs.Made.{state_of};
ghost use Rattle.session.specs.Making.{made_of, room_of};
ghost use Rattle.session.specs.Shown.{event_of};

use crate::making::{Making, MatcherKind, MemoryKind};
use benchline::Line;
use codes::Refusal;
use engine::{Answer, Module};
use matcher::{ByteMatcher, Matcher};
use memory::Memory;
use page_memory::{PAGE, PageMemory};
use point_matcher::PointMatcher;
use row_memory::{ROW, RowMemory};
use std::alloc::{AllocError, Global};

/// A module over one of the kinds of memory, with one of the matchers.
#[derive(Drop, Debug)]
pub enum AnyModule {
    BytesOnPages(Module<ByteMatcher, PageMemory>),
    PointsOnPages(Module<PointMatcher, PageMemory>),
    BytesOnRows(Module<ByteMatcher, RowMemory>),
    PointsOnRows(Module<PointMatcher, RowMemory>),
}

/// A page memory of so many pages, and of no more than it can have.
pub fn page_memory(heap: Global, pages: u16) -> Result<PageMemory, AllocError>
    ensures room { IfOk result (λ m. ⟦<PageMemory as Memory>⟧.room m ≡ room_of (MemoryKind.Pages pages)) }
    ensures empty { IfOk result (λ m. ⟦<PageMemory as Memory>⟧.held m ≡ []) }
{
    let bytes = vec![in heap; 0u8; usize::from(pages) * PAGE]?;
    Ok(PageMemory::new(bytes))
}

/// A row memory of so many rows, and of no more than it can have.
pub fn row_memory(heap: Global, rows: u16) -> Result<RowMemory, AllocError>
    ensures room { IfOk result (λ m. ⟦<RowMemory as Memory>⟧.room m ≡ room_of (MemoryKind.Rows rows)) }
    ensures empty { IfOk result (λ m. ⟦<RowMemory as Memory>⟧.held m ≡ []) }
{
    let bytes = vec![in heap; 0u8; usize::from(rows) * ROW]?;
    Ok(RowMemory::new(bytes))
}

impl Making {
    /// Makes the module. An `Err` says that there is no memory for the chip's bytes.
    pub fn make(self, heap: Global) -> Result<AnyModule, AllocError>
        ensures { IfOk result (λ m. state_of m ≡ made_of self) }
    {
        let number = self.number;
        match (self.memory, self.matcher) {
            (MemoryKind::Pages(pages), MatcherKind::Byte) => {
                let memory = page_memory(heap, pages)?;
                Ok(AnyModule::BytesOnPages(Module::new(ByteMatcher, memory, number)))
            }
            (MemoryKind::Pages(pages), MatcherKind::Point) => {
                let memory = page_memory(heap, pages)?;
                Ok(AnyModule::PointsOnPages(Module::new(PointMatcher, memory, number)))
            }
            (MemoryKind::Rows(rows), MatcherKind::Byte) => {
                let memory = row_memory(heap, rows)?;
                Ok(AnyModule::BytesOnRows(Module::new(ByteMatcher, memory, number)))
            }
            (MemoryKind::Rows(rows), MatcherKind::Point) => {
                let memory = row_memory(heap, rows)?;
                Ok(AnyModule::PointsOnRows(Module::new(PointMatcher, memory, number)))
            }
        }
    }
}

/// Makes the call that a line asks for.
fn call<M: Matcher, S: Memory>(
    module: &mut Module<M, S>,
    asked: Line<'_>,
    out: &mut [u8],
    work: &mut [u8],
) -> Result<Answer, Refusal>
    ensures { Served (state M.Matcher S.Memory «module».old)
        (call (event_of (seen asked.entry)) out.old work.old) result
        (state M.Matcher S.Memory «module».new) out.new work.new }
{
    match asked {
        Line::Packet(frame) => module.packet(frame, out, work),
        Line::Finger { quality, scan } => module.finger(scan, quality, out, work),
        Line::Second => module.second(out, work),
    }
}

impl AnyModule {
    /// Makes the call that a line asks for, with these two buffers.
    pub(crate) fn call(
        &mut self,
        asked: Line<'_>,
        out: &mut [u8],
        work: &mut [u8],
    ) -> Result<Answer, Refusal>
        ensures { Served (state_of self.old)
            (call (event_of (seen asked.entry)) out.old work.old) result
            (state_of self.new) out.new work.new }
    {
        match self {
            AnyModule::BytesOnPages(module) => call(module, asked, out, work),
            AnyModule::PointsOnPages(module) => call(module, asked, out, work),
            AnyModule::BytesOnRows(module) => call(module, asked, out, work),
            AnyModule::PointsOnRows(module) => call(module, asked, out, work),
        }
    }
}
