//! The sources of a job, its ranges, and their tables.

use bytes::Bytes;
use fleet_range::BytesRange;
use fleet_rows::{ListOf, RowEntry, Settings};
use fleet_table::RunData;

/// The sources of a job. Each table of level 0 is a run of its own.
pub type SourceSet = ListOf<RunData>;

/// A range of a job that is to be made. The cursor is the key and the sequence of the row that was
/// written last. The range is resumed after it.
#[derive(Debug, Drop)]
pub struct RangeJob {
    pub range: BytesRange,
    pub cursor: Option<(Bytes, u64)>,
    pub settings: Settings,
}

/// The tables of a range, in order, each as its rows.
pub type RangeTables = ListOf<ListOf<RowEntry>>;
