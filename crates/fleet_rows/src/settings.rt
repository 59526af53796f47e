//! The settings of a compaction.

/// The settings by which a compaction folds and keeps rows.
#[derive(Clone, Copy, Debug, PartialEq, Eq)]
pub struct Settings {
    /// No snapshot reads below this sequence.
    pub floor: u64,
    /// The moment of the compaction, in milliseconds. A row whose expiry is at most this moment
    /// counts as expired.
    pub tick: i64,
    /// Whether the compaction writes the last sorted run of its tree. Nothing is older than that
    /// run.
    pub last_run: bool,
    /// Operands at or below this sequence are folded, and older versions at or below it may be
    /// dropped. Every read at this sequence or above is kept.
    pub cut: u64,
}
