//! The point matcher: a scan agrees with a stored template if enough of its points lie near stored ones.
#![tactic(auto)]

mod matching;
mod point;
mod points;

pub use matching::PointMatcher;
pub use point::marked_points;
