//! The store by which parties meet, and its place in memory.
#![tactic(auto)]

mod call;
mod laws;
mod log;
mod memory;
mod store;
mod under;

pub use fleet_history::{
    Answer, Event, HistoryEntry, ManifestChange, Note, Party, PollChange, RecordChange, Step,
    StepList,
};
pub use laws::{got_is_stored, got_stays, refused_puts_are_alike};
pub use memory::MemStore;
pub use store::{Store, SweepStore};
pub use under::Under;
