//! Matchers, by what they mean, and how strict they are asked to be.
#![tactic(auto)]

mod level;
mod matching;
mod same;
mod strictness;

pub use level::{SecurityLevel, level_order};
pub use matching::Matcher;
pub use same::ByteMatcher;
pub use strictness::Strictness;
