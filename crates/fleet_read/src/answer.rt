//! What reads and scans answer.

use bytes::Bytes;
use fleet_rows::{ListOf, Text};

/// What a read of a key answers.
#[derive(Debug, Drop, PartialEq, Eq)]
pub enum ReadAnswer {
    Value(Bytes),
    /// The key has no value there.
    Nothing,
    /// Reads are answered from this sequence and this tick on. The tick is in milliseconds.
    NotRetained { least: u64, tick: i64 },
    /// The message with which the operator refused to merge the key's operands.
    Callback(Text),
}

/// How a page of a scan ended.
#[derive(Debug, Drop, PartialEq, Eq)]
pub enum PageEnd {
    /// No key with an answer is left.
    NoneLeft,
    /// The operator refused to merge the operands of this key, with this message.
    RefusedAt { key: Bytes, message: Text },
    /// The page is full, and the next answer is that of this key.
    StopsBefore { key: Bytes },
}

/// A page of a scan: keys with their values, and how it ended.
#[derive(Debug, Drop, PartialEq)]
pub struct ScanPage {
    pub pairs: ListOf<(Bytes, Bytes)>,
    pub ends: PageEnd,
}

/// What a scan of a range of keys answers.
#[derive(Debug, Drop, PartialEq)]
pub enum ScanAnswer {
    /// Scans are answered from this sequence and this tick on. The tick is in milliseconds.
    NotRetained { least: u64, tick: i64 },
    Page(ScanPage),
}
