ghost use Rattle.std.specs.Prelude.{◌≡◌, count_by, is_some, IfSome};
ghost use Rattle.point_matcher.specs.Points.{near_some, points_in, points_of, readable};

use crate::point::Point;

/// The most points that a template may say.
const MOST_POINTS: u8 = 80;

/// The points of a readable template, in order, lent from its bytes: three bytes each.
#[derive(Clone, Copy)]
pub(crate) struct Points<'a> {
    triples: &'a [[u8; 3]],
}

impl<'a> Points<'a> {
    /// The points that the bytes hold, if they hold as many as they say. Bytes behind the points are ignored.
    pub(crate) fn read(bytes: &'a [u8]) -> Option<Points<'a>>
        ensures readable { is_some result ≡ readable bytes.now }
        ensures points { IfSome result (λ points. points_in points ≡ points_of bytes.now) }
    {
        let (&count, rest) = bytes.split_first()?;
        if count > MOST_POINTS {
            return None;
        }
        let triples = rest.as_chunks().0.get(..usize::from(count))?;
        Some(Points { triples })
    }

    /// Whether some point is near: the first one found is enough.
    fn is_near_some(&self, point: Point) -> bool
        ensures { result ≡ near_some (points_in self.now) point }
    {
        self.triples
            .iter()
            .map(|&triple| Point::from(triple))
            .any(|own| own.is_near(point))
    }

    /// How many points of the scan lie near some of these. Each counts once, however many of these are near.
    pub(crate) fn near_count(&self, scan: &Points) -> usize
        ensures { result ≡ count_by (near_some (points_in self.now)) (points_in scan.now) }
    {
        scan.triples
            .iter()
            .map(|&triple| Point::from(triple))
            .filter(|&point| self.is_near_some(point))
            .count()
    }
}
