//! How a program talks to whoever started it: line by line, and at its end by its status.
#![tactic(auto)]

mod ending;
mod talking;

pub use ending::{Stop, exit_code};
pub use talking::next_line;
