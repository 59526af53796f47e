//! The records of all jobs, and the state that a coordinator keeps of jobs and trees.
#![tactic(auto)]

mod compactions;
mod exchange;
mod finish;
mod job_map;
mod laws;
mod merging;
mod recent;
mod request;
mod sources;
mod state;
mod view;

pub use compactions::{Compactions, VersionedCompactions};
pub use fleet_jobs::{
    Compaction, CompactionContext, CompactionSpec, CompactionStatus, DrainSegmentSpec, Release,
    SourceId, SourceList, SpecList, TieredCompactionSpec, WorkerSpec,
};
pub use job_map::JobMap;
pub use laws::{
    drains_are_the_models, finished_flushes_stay, finished_runs_stay, joins_are_the_models,
    last_over_jobs_are_kept, merged_manifests_are_the_models, merges_are_the_models,
    moves_are_the_models, new_jobs_are_the_models, open_jobs_are_kept, repeated_merges_are_idle,
    repeated_trims_are_idle, replacements_are_the_models, trivial_moves_are_the_models,
};
pub use recent::RecentCompactions;
pub use request::CompactionRequest;
pub use state::CompactorState;
pub use view::CompactorStateView;
