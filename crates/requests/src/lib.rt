//! What an idle module makes of a request, command by command.
#![tactic(auto)]

mod administrating;
mod answer;
mod enrolling;
mod fields;
mod parameters;
mod passwords;
mod reading;
mod starting;

pub use starting::start;
