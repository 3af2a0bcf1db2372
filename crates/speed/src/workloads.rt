ghost use Rattle.std.specs.Prelude.{◌≤◌};

use crate::frames::{enroll as enroll_frame, plain, read};
use crate::making::{HELD, over_pages, over_rows};
use crate::templates::strange_scan;
use crate::workbench::Workbench;
use codes::{Command, Parameter};
use matcher::{ByteMatcher, Matcher};
use memory::Memory;
use page_memory::{MOST_PAGES, PAGE};
use point_matcher::PointMatcher;
use row_memory::RowMemory;
use std::alloc::Global;

/// The bytes of the template in a row.
const ROW_TEMPLATE: usize = RowMemory::T;

/// How many pages a module has whose parameters are read.
const FEW_PAGES: u16 = 16;

/// How many pages a page memory has at most.
const PAGES: u16 = MOST_PAGES as u16;

/// The IDs that come and go in a full memory.
const IDS: u16 = 1000;

/// The parameters that a host can read.
const READABLE: [Parameter; 9] = [
    Parameter::Timeout,
    Parameter::EnrollMode,
    Parameter::SecurityLevel,
    Parameter::SendScanSuccess,
    Parameter::NetworkMode,
    Parameter::TemplateSize,
    Parameter::ModuleId,
    Parameter::EnrolledFinger,
    Parameter::AvailableFinger,
];

/// A module over a row memory that is full: each template stands under an ID of its own.
fn full<M: Matcher + Drop>(heap: Global, matcher: M) -> anyhow::Result<Workbench<M, RowMemory>> {
    let mut bench = over_rows(heap, matcher)?;
    for id in 1..=HELD {
        bench.packet(&enroll_frame(heap, id, ROW_TEMPLATE)?);
    }
    Ok(bench)
}

/// The parameters are read, one after the other.
pub(crate) fn frames(heap: Global, count: u32) -> anyhow::Result<u32> {
    let mut bench = over_pages(heap, ByteMatcher, FEW_PAGES)?;
    let mut asked = Vec::new(heap);
    for parameter in READABLE {
        asked.push(read(heap, parameter)?)?;
    }
    for frame in asked.iter().cycle().take(count as usize) {
        bench.packet(frame);
    }
    Ok(bench.sum())
}

/// All that is held is listed.
pub(crate) fn list(heap: Global, count: u32) -> anyhow::Result<u32> {
    let mut bench = full(heap, ByteMatcher)?;
    let frame = plain(heap, Command::ListTemplates, 0, 0)?;
    for _ in 0..count {
        bench.packet(&frame);
    }
    Ok(bench.sum())
}

/// A finger that nobody has enrolled is looked for among all.
fn identify_by<M: Matcher + Drop>(heap: Global, matcher: M, count: u32) -> anyhow::Result<u32> {
    let mut bench = full(heap, matcher)?;
    let frame = plain(heap, Command::Identify, 0, 0)?;
    let scan = strange_scan(heap, ROW_TEMPLATE)?;
    for _ in 0..count {
        bench.packet(&frame);
        bench.finger(&scan);
    }
    Ok(bench.sum())
}

/// A search by points.
pub(crate) fn identify(heap: Global, count: u32) -> anyhow::Result<u32> {
    identify_by(heap, PointMatcher, count)
}

/// A search by bytes: nearly all of it is reading templates.
pub(crate) fn identify_bytes(heap: Global, count: u32) -> anyhow::Result<u32> {
    identify_by(heap, ByteMatcher, count)
}

/// ET for the IDs from 1 to the last, with templates of so many bytes.
fn enrolling(heap: Global, last: u16, size: usize) -> anyhow::Result<Vec<Vec<u8>>>
    requires { size ≤ 384 }
{
    let mut frames = Vec::new(heap);
    for id in 1..=last {
        frames.push(enroll_frame(heap, id, size)?)?;
    }
    Ok(frames)
}

/// A page memory is filled, and emptied at once.
pub(crate) fn enroll(heap: Global, count: u32) -> anyhow::Result<u32> {
    let mut bench = over_pages(heap, ByteMatcher, PAGES)?;
    let frames = enrolling(heap, PAGES, PAGE)?;
    let empty = plain(heap, Command::DeleteAll, 0, 0)?;
    for _ in 0..count {
        for frame in &frames {
            bench.packet(frame);
        }
        bench.packet(&empty);
    }
    Ok(bench.sum())
}

/// The oldest template of a full memory goes, and a new one comes.
pub(crate) fn delete(heap: Global, count: u32) -> anyhow::Result<u32> {
    let mut bench = full(heap, ByteMatcher)?;
    let mut deleting = Vec::new(heap);
    for id in 1..=IDS {
        deleting.push(plain(heap, Command::Delete, id, 0)?)?;
    }
    let enrolling = enrolling(heap, IDS, ROW_TEMPLATE)?;
    let newest = enrolling.iter().cycle().skip(usize::from(HELD));
    let steps = deleting.iter().cycle().zip(newest);
    for (oldest, newest) in steps.take(count as usize) {
        bench.packet(oldest);
        bench.packet(newest);
    }
    Ok(bench.sum())
}
