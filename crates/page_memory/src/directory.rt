ghost use Rattle.std.specs.Prelude.{◌≡◌, ℕ, ◌<◌, length};
ghost use Rattle.page_memory.specs.Pages.{record_at};

use rows::Keyed;
use std::array;

/// How many pages are used at most, however large the chip is: a directory has a record for each.
pub const MOST_PAGES: usize = 64;

/// A page, and the ID of the template on it. A free page's ID says nothing.
#[derive(Clone, Copy)]
pub(crate) struct Record {
    pub(crate) id: u16,
    pub(crate) page: u16,
}

impl Keyed for Record {
    ghost key_of = { λ r. r.page };

    fn key(&self) -> u16 {
        self.page
    }
}

/// A directory in which each page stands at its own number.
pub(crate) fn all_free() -> [Record; MOST_PAGES]
    ensures long { length result ≡ 64 }
    ensures numbered { (k : ℕ) → k < 64 → (record_at result k).page ≡ k }
{
    array::from_fn(|at| Record {
        id: 0,
        page: at as u16,
    })
}
