ghost use Rattle.std.specs.Prelude.{◌≡◌, true};
ghost use Rattle.administrators.specs.Apart.{apart};

use arrayvec::ArrayVec;
use machine::AdminRow;

// The struct stands alone here: what contracts say of a table names it, and its invariant must not lead back to that.

/// How many administrators there can be.
pub(crate) const ROWS: usize = 16;

/// The administrators, in the order in which they came. No ID has two of them.
#[derive(Debug, Drop)]
pub struct Administrators {
    pub(crate) rows: ArrayVec<AdminRow, ROWS>,
    ghost distinct: { apart rows.items ≡ true },
}
