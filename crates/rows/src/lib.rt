//! Rows of a table, found and struck by a key of two bytes.
#![tactic(auto)]

ghost use Rattle.std.specs.Prelude.{◌≡◌, ℕ, ◌<◌, length, is_some, IfSome};
ghost use Rattle.rows.specs.Rows.{place_of, struck};

/// A row with a key.
pub trait Keyed {
    ghost key_of: { Self → ℕ };

    fn key(&self) -> u16
        ensures { result ≡ key_of self.now };
}

/// The place of the first row that has the key.
pub fn find<R: Keyed>(rows: &[R], key: u16) -> Option<usize>
    ensures value { result ≡ place_of R.Keyed.key_of key rows.now }
    ensures within { IfSome result (λ at. at < length rows.now) }
{
    rows.iter().position(|row| row.key() == key)
}

/// Strikes the first row that has the key: it goes behind the others, which keep their order.
/// Says whether there was one.
pub fn strike<R: Keyed>(rows: &mut [R], key: u16) -> bool
    ensures value { result ≡ is_some (place_of R.Keyed.key_of key rows.old) }
    ensures after { rows.new ≡ struck R.Keyed.key_of key rows.old }
{
    let Some(at) = find(rows, key) else {
        return false;
    };
    rows[at..].rotate_left(1);
    true
}
