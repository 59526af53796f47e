//! Schedulers: which compaction jobs are proposed, which are accepted, and which a request of a
//! user gives. Two calls serve schedulers of one's own: how many jobs may come beside those under
//! way, and which id a fresh run gets.
#![tactic(auto)]

mod defaults;
mod options;
mod picking;
mod planned_trees;
mod planning;
mod scheduler;
mod series;
mod size_tiered;
mod sized_nodes;
mod supplier;
mod validation;

pub use defaults::{default_generate, default_validate};
pub use options::{CompactorOptions, SizeTieredCompactionSchedulerOptions};
pub use planning::{free_slots, fresh_run_id};
pub use scheduler::CompactionScheduler;
pub use size_tiered::SizeTieredCompactionScheduler;
pub use supplier::{CompactionSchedulerSupplier, SizeTieredCompactionSchedulerSupplier};
