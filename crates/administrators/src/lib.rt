//! The table of administrators: at most 16 rows, each an ID and what it may do.
#![tactic(auto)]

ghost use Rattle.std.specs.Prelude.{◌≡◌, ◌<◌, true, false, [], length, IfSome};
ghost use Rattle.administrators.specs.Rights.{permits};
ghost use Rattle.administrators.specs.Table.{rows_of};
ghost use Rattle.machine.specs.Administrators.{any_admin, level_of, struck, written};
ghost use Rattle.rows.specs.Rows.{place_of};

use arrayvec::ArrayVec;
use machine::{AdminRow, Level};
use rows::{find, strike};

mod permitted;
mod right;
mod table;

pub use permitted::Permitted;
pub use right::Right;
pub use table::Administrators;

impl Administrators {
    /// A table without rows.
    pub fn new() -> Administrators
        ensures { rows_of result ≡ [] }
    {
        Administrators {
            rows: ArrayVec::new(),
        }
    }

    /// The place of the ID's row.
    fn place_of(&self, id: u16) -> Option<usize>
        ensures value { result ≡ place_of (λ row. row.id) id (rows_of self.now) }
        ensures within { IfSome result (λ at. at < length (rows_of self.now)) }
    {
        find(&self.rows, id)
    }

    /// What the ID may do, if it is an administrator.
    pub fn level_of(&self, id: u16) -> Option<Level>
        ensures { result ≡ level_of id (rows_of self.now) }
    {
        let at = self.place_of(id)?;
        Some(self.rows[at].level)
    }

    /// Whether some administrator has the right: where none has, what asks for one is refused at once.
    pub fn any_may(&self, right: Right) -> bool
        ensures { result ≡ any_admin (permits right) (rows_of self.now) }
    {
        self.rows.iter().any(|row| right.comes_with(row.level))
    }

    /// Gives the ID the level: in its row, or in a new one behind the others. False where there is no row for it.
    pub fn write(&mut self, id: u16, level: Level) -> bool
        ensures value { result ≡ written id level (rows_of self.old) false (λ _. true) }
        ensures after { rows_of self.new ≡ written id level (rows_of self.old) (rows_of self.old) (λ rows. rows) }
    {
        match self.place_of(id) {
            Some(at) => {
                self.rows[at].set_level(level);
                true
            }
            None => self.rows.try_push(AdminRow { id, level }).is_ok(),
        }
    }

    /// Strikes the row of the ID, if there is one.
    pub fn strike(&mut self, id: u16)
        ensures { rows_of self.new ≡ struck id (rows_of self.old) }
    {
        if strike(&mut self.rows, id) {
            self.rows.pop();
        }
    }

    /// Strikes all rows.
    pub fn clear(&mut self)
        ensures { rows_of self.new ≡ [] }
    {
        self.rows.clear();
    }
}
