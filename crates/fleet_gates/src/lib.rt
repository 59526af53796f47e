//! The gates: the rules that a job must pass when it is opened and when it is committed.
#![tactic(auto)]

mod commit;
mod held_nodes;
mod laws;
mod places;
mod rule;
mod scheduler;
mod submit;
mod tables;

pub use commit::{commit_gate, commit_rules};
pub use held_nodes::held_by_others;
pub use laws::{
    ended_jobs_hold_none, held_nodes_are_held, held_nodes_decide, lost_jobs_hold_their_nodes,
    opened_jobs_hold_their_nodes, schedulers_are_asked_last,
};
pub use rule::Rule;
pub use scheduler::scheduler_rule;
pub use submit::{submit_gate, submit_rules};
pub use tables::source_tables;
