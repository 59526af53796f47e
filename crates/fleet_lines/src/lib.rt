//! A fleet, and each line of a script as one call on it.
#![tactic(auto)]

mod claims;
mod coordinators;
mod finishes;
mod fleet;
mod flushes;
mod lookups;
mod names;
mod options;
mod outputs;
mod parties;
mod progress;
mod refusals;
mod settings;
mod starts;
mod steps;
mod submits;
mod sweeps;
mod work;

pub use fleet::Fleet;
pub use options::FleetOptions;
