//! What a call makes of a module, by what is awaited when it comes.
#![tactic(auto)]

mod deciding;
mod enrolling;
mod good;
mod grants;
mod persons;
mod scan;
mod telling;

pub use deciding::decide;
pub use scan::{Event, Scan};
