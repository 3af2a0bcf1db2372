//! A module on the bench: made as its options say, and driven by lines of text.
#![tactic(auto)]

mod making;
mod module;
mod session;
mod text;

pub use making::{Making, MatcherKind, MemoryKind};
pub use module::{AnyModule, page_memory, row_memory};
pub use session::Session;
