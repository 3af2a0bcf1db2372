//! The command engine of a fingerprint module, over any matcher and any template memory.
#![tactic(auto)]

mod answer;
mod calls;
mod guard;
mod hearing;
mod inner;
mod writing;

pub use answer::{Answer, Outcomes};
pub use calls::{LEAST_ANSWER_BUFFER, LEAST_WORK_BUFFER};
pub use inner::Module;
