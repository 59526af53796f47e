//! The history of a store: each call, the party that made it, and its answer.
#![tactic(auto)]

mod answer;
mod entry;
mod event;
mod manifest_change;
mod note;
mod party;
mod record_change;

pub use answer::Answer;
pub use entry::HistoryEntry;
pub use event::Event;
pub use manifest_change::{ManifestChange, Step, StepList};
pub use note::Note;
pub use party::Party;
pub use record_change::{PollChange, RecordChange};
