//! The options of workers.

/// The options of a worker.
#[derive(Clone, Copy, Debug, PartialEq, Eq)]
pub struct CompactionWorkerOptions {
    /// The most attempts that a worker runs.
    pub max_concurrent_compactions: u64,
    /// The most ranges of a job, where 0 counts as 1.
    pub max_subcompactions: u64,
    /// A table ends with the row with which it exceeds this size, in bytes.
    pub max_sst_size: u64,
    /// How long after a flush reads below its rows are kept, in milliseconds.
    pub retention_ms: u64,
}
