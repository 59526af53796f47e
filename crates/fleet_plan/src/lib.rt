//! Planning of ranges: the keys of a job are cut into ranges that can be compacted side by side.
#![tactic(auto)]

mod anchor;
mod boundaries;
mod plan;
mod subcompaction;

pub use anchor::{Anchor, MAX_ANCHORS_PER_SST, sample_anchors};
pub use boundaries::select_boundaries;
pub use plan::plan_subcompaction_ranges;
pub use subcompaction::{Subcompaction, SubcompactionList};
