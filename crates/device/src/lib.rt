//! What a module keeps, and how what it holds changes.
#![tactic(auto)]

mod agreeing;
mod answers;
mod awaited;
mod keeping;
mod templates;

pub use answers::{Answers, Data, Told};
pub use awaited::{Awaited, FirstScan, LONGEST_TEMPLATE};
pub use keeping::Device;
pub use templates::{delete_all_of, enroll_one, enroll_two};
