//! Jobs as they are recorded: their specs, their status, their contexts, what they take of a tree,
//! and the tests of where their nodes are.
#![tactic(auto)]

mod compaction;
mod context;
mod copying;
mod laws;
mod moves;
mod node_set;
mod places;
mod release;
mod rules;
mod run_stretches;
mod shareable;
mod source_id;
mod sources;
mod spec;
mod status;
mod worker_spec;

pub use compaction::Compaction;
pub use context::CompactionContext;
pub use laws::{
    beats_are_the_models, claims_are_the_models, completions_are_the_models,
    continued_contexts_extend, ends_are_the_models, failures_are_the_models, held_nodes_decide,
    movable_jobs_are_the_models, moved_runs_are_the_models, nodes_are_the_models,
    openings_are_the_models, standing_sources_stand, submitted_sources_stand,
    taken_runs_are_the_models, taken_tables_are_the_models, taken_views_are_the_models,
    waits_are_the_models,
};
pub use node_set::NodeSet;
pub use places::{
    are_distinct, is_same, is_stretch, is_whole_stretch, lowest_run, names_older, older_nodes,
    tree_nodes,
};
pub use release::Release;
pub use rules::{
    destination_fits, held_nodes, is_lowest_or_above, nodes_at, reserves_nodes, sources_stand,
};
pub use run_stretches::{are_in_front, is_run_stretch};
pub use source_id::{SourceId, SourceList};
pub use spec::{CompactionSpec, DrainSegmentSpec, SpecList, TieredCompactionSpec};
pub use status::CompactionStatus;
pub use worker_spec::WorkerSpec;
