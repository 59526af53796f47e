//! Coordinators, submitters and the writer: a coordinator decides what is merged, a submitter asks
//! for jobs, and the writer flushes rows.
#![tactic(auto)]

mod coordinator;
mod flushing;
mod handling;
mod polling;
mod recording;
mod requesting;
pub mod stats;
mod submission;

pub use coordinator::start;
pub use flushing::{FlushAsk, FlushFault, flush};
pub use handling::{CompactorMessage, Coordinator};
pub use requesting::submit_request;
pub use submission::submit;
