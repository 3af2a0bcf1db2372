//! A run of the bench: what its words choose, and line after line from its input to its output.
#![tactic(auto)]

mod complaint;
mod options;
mod replaying;
mod serving;
#[cfg(test)]
mod tests;

pub use complaint::Complaint;
pub use options::read_making;
pub use replaying::{Replayed, replay};
pub use serving::serve;
