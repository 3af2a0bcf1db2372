//! Searches over any memory and any matcher.
#![tactic(auto)]

mod allowed;
mod ids;
mod oldest;

pub use allowed::{Allowed, Everyone, IdRange};
pub use ids::{count_of, lowest_free_id, place_of};
pub use oldest::Search;
