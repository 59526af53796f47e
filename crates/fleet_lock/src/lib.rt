//! A store that several parties call at once, each through a pass of its own.
#![tactic(auto)]

mod calls;
mod folds;
mod held_value;
mod holds;
mod last_entry;
mod laws;
mod lock;
mod pass;
mod pass_store;
mod sight;
mod tally;

pub use folds::Folds;
pub use held_value::Held;
pub use holds::Holds;
pub use laws::callers_keep_passes;
pub use lock::{Lock, SharedStore};
pub use pass::Pass;
pub use pass_store::{PassStore, Through};
