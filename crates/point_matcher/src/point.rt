ghost use Rattle.std.specs.Prelude.{◌≡◌, true, false};
ghost use Rattle.point_matcher.specs.Points.{angles_near, near, point_of};

/// A point of a finger: its place, and its angle in parts of a circle of 256.
#[derive(Clone, Copy)]
pub(crate) struct Point {
    pub(crate) across: u8,
    pub(crate) up: u8,
    pub(crate) angle: u8,
}

impl From<[u8; 3]> for Point {
    ghost from_gives = { λ triple point. point ≡ point_of triple };

    fn from([across, up, angle]: [u8; 3]) -> Point {
        Point { across, up, angle }
    }
}

/// Whether the shorter way round the circle is short: a byte wraps where the circle closes.
fn angles_near(a: u8, b: u8) -> bool
    ensures { result ≡ angles_near a b }
{
    a.wrapping_sub(b).min(b.wrapping_sub(a)) <= 8
}

impl Point {
    /// Whether two points may be the same point of a finger.
    pub(crate) fn is_near(self, other: Point) -> bool
        ensures { result ≡ near self other }
    {
        self.across.abs_diff(other.across) <= 6
            && self.up.abs_diff(other.up) <= 6
            && angles_near(self.angle, other.angle)
    }
}

/// Worked examples: the angle 250 is near 2, and not near 3.
pub fn marked_points()
    ensures near { angles_near 250 2 ≡ true }
    ensures apart { angles_near 250 3 ≡ false }
{}
