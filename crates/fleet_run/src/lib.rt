//! Runs scripts on a fleet. It has the whole program except `main`.
#![tactic(auto)]

mod command;
mod generated_runs;
mod memory;
mod program;
mod script;
mod slice_streams;
mod source_and_sink;
mod stream;

pub use command::Command;
pub use fleet_generate::make_script;
pub use fleet_lines::{Fleet, FleetOptions};
pub use fleet_read::{ReadAnswer, read_stored};
pub use memory::{MemSink, MemSource};
pub use program::fleet_main;
pub use script::{FleetError, run_script};
pub use slice_streams::{SafeSink, SafeSource};
pub use source_and_sink::{Failed, Sink, Source};
pub use stream::{StreamSink, StreamSource};
