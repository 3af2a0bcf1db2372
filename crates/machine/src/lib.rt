//! The machine: what a module is, and what each call makes of it. Its definitions stand in `specs/`.
#![tactic(auto)]

mod enrollment;
mod level;
mod settings;
mod tried;

pub use enrollment::{Enroller, Enrollment};
pub use level::{AdminRow, Level};
pub use settings::{EnrollMode, Setting, Settings, Switch};
pub use tried::recorded_runs;
