//! Names of figures that are measured of a fleet. Nothing here records them.

pub use fleet_fold::MERGE_OPERATOR_OPERANDS;

/// Bytes that were compacted.
pub const BYTES_COMPACTED: &str = "slatedb.compactor.bytes_compacted";
/// The epoch of a coordinator.
pub const COMPACTOR_EPOCH: &str = "slatedb.compactor.epoch";
/// When a compaction ended last, in seconds.
pub const LAST_COMPACTION_TS_SEC: &str = "slatedb.compactor.last_compaction_timestamp_sec";
/// Jobs that workers run.
pub const RUNNING_COMPACTIONS: &str = "slatedb.compactor.running_compactions";
/// Tables that were written.
pub const SSTS_WRITTEN: &str = "slatedb.compactor.ssts_written";
/// Jobs that workers claimed.
pub const JOBS_CLAIMED: &str = "slatedb.compactor.jobs_claimed";
/// Stale jobs that wait for a worker again.
pub const JOBS_RECLAIMED: &str = "slatedb.compactor.jobs_reclaimed";
/// When a worker was heard of last, in milliseconds.
pub const WORKER_LAST_HEARTBEAT_MS: &str = "slatedb.compactor.worker_last_heartbeat_ms";
/// The label with the number of a worker.
pub const WORKER_ID_LABEL: &str = "worker_id";
/// Bytes of the jobs that are run.
pub const TOTAL_BYTES_BEING_COMPACTED: &str = "slatedb.compactor.total_bytes_being_compacted";
/// How many bytes a second are compacted.
pub const TOTAL_THROUGHPUT_BYTES_PER_SEC: &str = "slatedb.compactor.total_throughput_bytes_per_sec";
/// Entries that were dropped since they expired.
pub const EXPIRED_ENTRIES_PURGED: &str = "slatedb.compactor.expired_entries_purged";
/// What `EXPIRED_ENTRIES_PURGED` counts.
pub const EXPIRED_ENTRIES_PURGED_DESCRIPTION: &str =
    "Count of expired entries purged by the RetentionIterator.";
/// The label with the kind of an entry.
pub const ENTRY_TYPE_LABEL: &str = "entry_type";
/// An entry with a value.
pub const ENTRY_TYPE_VALUE: &str = "value";
/// An entry with an operand of a merge.
pub const ENTRY_TYPE_MERGE: &str = "merge";
