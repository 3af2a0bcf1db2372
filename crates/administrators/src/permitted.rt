ghost use Rattle.administrators.specs.Rights.{permits};
ghost use Rattle.administrators.specs.Table.{rows_of};
ghost use Rattle.machine.specs.Administrators.{is_admin};

use crate::right::Right;
use crate::table::Administrators;
use search::Allowed;

/// The IDs of the administrators who have a right.
#[derive(Clone, Copy, Debug)]
pub struct Permitted<'a> {
    pub table: &'a Administrators,
    pub right: Right,
}

impl Allowed for Permitted<'_> {
    ghost allowed = { λ s id. is_admin (permits s.right) (rows_of s.table.now) id };

    fn allows(&self, id: u16) -> bool {
        let right = self.right;
        self.table
            .level_of(id)
            .is_some_and(|level| right.comes_with(level))
    }
}
