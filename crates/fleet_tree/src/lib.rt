//! Trees and manifests, and the descriptions of the tables that they name.
#![tactic(auto)]

mod block;
mod flush_list;
mod handle;
mod items;
mod laws;
mod list;
mod manifest;
mod run;
mod run_chunks;
mod run_list;
mod tracker;
mod tree;
mod trees;
mod view;

pub use block::BlockMeta;
pub use flush_list::{FlushList, Views};
pub use handle::SsTableHandle;
pub use items::Items;
pub use laws::flushes_are_the_models;
pub use list::{BlockList, OutputList, SegmentList, SharedList, TableList, TrackerList, ViewList};
pub use manifest::{Manifest, ManifestCore, VersionedManifest};
pub use run::SortedRun;
pub use run_list::{RunList, Runs};
pub use tracker::{Tracked, least_seq};
pub use tree::{LsmTreeState, TreeChange, merge_from_writer};
pub use trees::{Trees, TreesWithPrefix};
pub use view::SsTableView;
