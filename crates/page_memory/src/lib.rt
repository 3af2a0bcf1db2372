//! A template memory over the bytes of a chip: each template has a page of its own, which it never leaves.
#![tactic(auto)]

ghost use Rattle.std.specs.Prelude.{◌≡◌, [], length, nat_lt};
ghost use Rattle.memory.specs.Held.{add_after, add_answer, remove_after};
ghost use Rattle.page_memory.specs.Contents.{held_by, pages_of, room_of};
ghost use Rattle.page_memory.specs.Pages.{PagesAdded, capacity_of};
ghost use Rattle.std.specs.List.{remove};
ghost use Rattle.page_memory.specs.Listed.{held-within, held-sound};
ghost use Rattle.std.proofs.Common.{rules, arith};

use crate::chip::{read_page, write_page};
use crate::directory::{Record, all_free};
use memory::{Memory, NotAdded};
use rows::strike;
use std::fmt;

mod chip;
mod directory;
mod layout;

pub use chip::PAGE;
pub use directory::MOST_PAGES;
pub use layout::PageMemory;

/// Leaves the chip's bytes out, so that no log shows a template.
impl fmt::Debug for PageMemory {
    fn fmt<W: fmt::Write>(&self, f: &mut fmt::Formatter<W>) -> fmt::Result {
        f.debug_struct("PageMemory")
            .field("count", &self.count)
            .finish_non_exhaustive()
    }
}

impl PageMemory {
    /// A memory that holds no template yet. What the bytes are does not matter.
    pub fn new(bytes: Vec<u8>) -> PageMemory
        ensures held { held_by result ≡ [] }
        ensures room { room_of result ≡ capacity_of bytes.items }
    {
        PageMemory {
            bytes,
            directory: all_free(),
            count: 0,
        }
    }
}

impl Memory for PageMemory {
    const T: usize = PAGE;

    ghost T = { 256 };

    ghost held = { held_by };

    ghost room = { room_of };

    ghost sized = { Prim.search rules };

    ghost within = { λ m. held-within m };

    ghost sound = { λ m. held-sound m };

    fn capacity(&self) -> usize {
        (self.bytes.len() / PAGE).min(MOST_PAGES)
    }

    fn count(&self) -> usize {
        self.count
    }

    fn id_at(&self, place: usize) -> Option<u16> {
        self.directory[..self.count]
            .get(place)
            .map(|record| record.id)
    }

    fn copy_at(&self, place: usize, into: &mut [u8]) -> Option<usize> {
        if place >= self.count || into.len() < Self::T {
            return None;
        }
        read_page(&self.bytes, usize::from(self.directory[place].page), into);
        Some(Self::T)
    }

    /// The template goes to a free page, and no other template moves.
    fn add(&mut self, id: u16, template: &[u8]) -> Result<(), NotAdded>
        ensures value { result ≡ add_answer 256
            (room_of self.old) (held_by self.old) id template.now }
        ensures after { held_by self.new ≡ add_after 256
            (room_of self.old) (held_by self.old) id template.now }
        ensures room_same { room_of self.new ≡ room_of self.old }
        ensures pages { PagesAdded result
            (room_of self.old) (pages_of self.old) (pages_of self.new) }
    {
        if id == 0 || template.len() != Self::T {
            return Err(NotAdded::Malformed);
        }
        if self.count >= self.capacity() {
            return Err(NotAdded::Full);
        }
        let page = self.directory[self.count].page;
        write_page(&mut self.bytes, usize::from(page), template);
        self.directory[self.count] = Record { id, page };
        self.count += 1;
        Ok(())
    }

    /// The record goes behind those that stay, so that its page is free, and no other template moves.
    fn remove(&mut self, place: usize) -> bool
        ensures value { result ≡ nat_lt place (length (held_by self.old)) }
        ensures after { held_by self.new ≡ remove_after (held_by self.old) place }
        ensures room_same { room_of self.new ≡ room_of self.old }
        ensures pages { pages_of self.new ≡ remove (pages_of self.old) place }
    {
        if place >= self.count {
            return false;
        }
        let page = self.directory[place].page;
        strike(&mut self.directory[0..self.count], page);
        self.count -= 1;
        true
    }

    fn clear(&mut self)
        ensures after { held_by self.new ≡ [] }
        ensures room_same { room_of self.new ≡ room_of self.old }
        ensures pages { pages_of self.new ≡ [] }
    {
        self.count = 0;
    }
}
