//! A template memory that keeps its templates as rows in the bytes of a chip.
#![tactic(auto)]

ghost use Rattle.std.specs.Prelude.{◌≡◌, ℕ, ◌≤◌, List, [], length};
ghost use Rattle.row_memory.specs.Rows.{AllSound, capacity_of, rows_in};
ghost use Rattle.std.proofs.Common.{arith, rules};
ghost use Rattle.row_memory.specs.RowsLemmas.{rows_length, all_sound};

use memory::{Memory, NotAdded};
use std::fmt;

mod chip;

pub use chip::ROW;

/// How many rows are used at most, however large the chip is.
pub const MOST_ROWS: usize = 500;

/// A chip whose first `count` rows hold templates, oldest first.
#[derive(Drop)]
pub struct RowMemory {
    bytes: Vec<u8>,
    count: usize,
    ghost fits: { count ≤ capacity_of bytes.items },
    ghost sound: { AllSound bytes.items count },
}

/// Leaves the chip's bytes out, so that no log shows a template.
impl fmt::Debug for RowMemory {
    fn fmt<W: fmt::Write>(&self, f: &mut fmt::Formatter<W>) -> fmt::Result {
        f.debug_struct("RowMemory")
            .field("count", &self.count)
            .finish_non_exhaustive()
    }
}

impl RowMemory {
    /// A chip that holds no template, whatever its bytes are.
    pub fn new(bytes: Vec<u8>) -> RowMemory
        ensures held { rows_in result.bytes.items result.count ≡ [] }
        ensures room { capacity_of result.bytes.items ≡ capacity_of bytes.items }
    {
        RowMemory { bytes, count: 0 }
    }
}

#[tactic(auto, using(crate::specs::RowsLemmas::rows_length))]
impl Memory for RowMemory {
    const T: usize = 384;

    ghost T = { 384 };

    ghost held = { λ s. rows_in s.bytes.items s.count };

    ghost room = { λ s. capacity_of s.bytes.items };

    ghost sized = { Prim.search rules };

    ghost within = { λ s. let n = rows_length s.bytes.items s.count in (omega arith, omega arith) };

    ghost sound = { λ s. all_sound s.bytes.items s.count s.sound };

    fn capacity(&self) -> usize {
        (self.bytes.len() / chip::ROW).min(MOST_ROWS)
    }

    fn count(&self) -> usize {
        self.count
    }

    fn id_at(&self, place: usize) -> Option<u16> {
        (place < self.count).then(|| chip::read_id(&self.bytes, place))
    }

    fn copy_at(&self, place: usize, into: &mut [u8]) -> Option<usize> {
        if place >= self.count || into.len() < Self::T {
            return None;
        }
        chip::read_template(&self.bytes, place, into);
        Some(Self::T)
    }

    fn ids_into(&self, from: usize, into: &mut [u8]) -> usize {
        chip::write_ids(&self.bytes, self.count, from, into)
    }

    fn add(&mut self, id: u16, template: &[u8]) -> Result<(), NotAdded> {
        if id == 0 || template.len() != Self::T {
            return Err(NotAdded::Malformed);
        }
        if self.count >= self.capacity() {
            return Err(NotAdded::Full);
        }
        chip::write_row(&mut self.bytes, self.count, id, template);
        self.count += 1;
        Ok(())
    }

    fn remove(&mut self, place: usize) -> bool {
        if place >= self.count {
            return false;
        }
        chip::close_row(&mut self.bytes, self.count, place);
        self.count -= 1;
        true
    }

    fn clear(&mut self) {
        self.count = 0;
    }
}

/// Worked examples: 386 bytes make one row, and 385 make none.
pub fn marked_rows()
    ensures one { (bytes : List ℕ) → length bytes ≡ 386 → capacity_of bytes ≡ 1 }
    ensures none { (bytes : List ℕ) → length bytes ≡ 385 → capacity_of bytes ≡ 0 }
{}
