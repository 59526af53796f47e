//! Keys with their values.

ghost use Rattle.std.specs.Prelude.{◌≡◌, IfOk, IsOkUnless};
ghost use Rattle.fleet_rows.specs.KeyValue.{key_value_of};

use crate::{RowEntry, SlateDBError, ValueDeletable};
use bytes::Bytes;

/// A key with the bytes of its value or of an operand, and with the row's sequence and stamps.
#[derive(Clone, Debug, Drop, PartialEq, Eq, PartialOrd, Ord, Hash)]
pub struct KeyValue {
    pub key: Bytes,
    pub value: Bytes,
    pub seq: u64,
    pub create_ts: i64,
    pub expire_ts: Option<i64>,
}

impl KeyValue {
    /// The key-value pair of a row, or None if the row is a tombstone. A missing time of creation
    /// becomes 0.
    pub fn from_row(entry: RowEntry) -> Option<KeyValue>
        ensures { result ≡ key_value_of entry }
    {
        let RowEntry {
            key,
            value,
            seq,
            create_ts,
            expire_ts,
        } = entry;
        let value = match value {
            ValueDeletable::Value(bytes) | ValueDeletable::Merge(bytes) => bytes,
            ValueDeletable::Tombstone => return None,
        };
        Some(KeyValue {
            key,
            value,
            seq,
            create_ts: create_ts.unwrap_or(0),
            expire_ts,
        })
    }

    /// A copy of the pair. The only error is `Memory`.
    pub fn clone(&self) -> Result<KeyValue, SlateDBError>
        ensures copy { IfOk result (λ copy. copy ≡ self.now) }
        ensures memory { IsOkUnless result SlateDBError.Memory }
    {
        Ok(Clone::clone(self)?)
    }
}
