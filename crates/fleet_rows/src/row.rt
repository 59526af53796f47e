//! Rows: a row gives a key a value, an operand or a tombstone at a sequence.

ghost use Rattle.std.specs.Prelude.{◌≡◌, ◌↔◌, ◌≤◌, ◌+◌, length, IsTrue, IfOk, IsOkUnless};
ghost use Rattle.row_model.specs.Bounds.{IsInBounds};
ghost use Rattle.row_model.specs.Rows.{is_tombstone};
ghost use Rattle.row_model.specs.Written.Sizes.{content_len, estimated_size, encoded_size, stamp_size};
ghost use Rattle.fleet_rows.specs.Row.{bytes_of, content_of, row_of};

use crate::SlateDBError;
use bytes::Bytes;

/// The content of a row: the key's value, an operand to merge, or a tombstone, which deletes the
/// key.
#[derive(Clone, Debug, Drop, PartialEq, Eq)]
pub enum ValueDeletable {
    Value(Bytes),
    Merge(Bytes),
    Tombstone,
}

impl ValueDeletable {
    /// The length of the value or operand, in bytes. A tombstone has length 0.
    pub fn len(&self) -> usize
        ensures { result ≡ content_len (content_of self.now) }
    {
        match self {
            ValueDeletable::Value(bytes) | ValueDeletable::Merge(bytes) => bytes.len(),
            ValueDeletable::Tombstone => 0,
        }
    }

    /// Whether there are no bytes. This holds of a tombstone, an empty value and an empty operand.
    pub fn is_empty(&self) -> bool
        ensures { IsTrue result ↔ (content_len (content_of self.now) ≡ 0) }
    {
        self.len() == 0
    }

    /// Whether this is a tombstone, which deletes its key.
    pub fn is_tombstone(&self) -> bool
        ensures { result ≡ is_tombstone (content_of self.now) }
    {
        matches!(self, ValueDeletable::Tombstone)
    }

    /// A copy of the bytes of the value or operand, or None for a tombstone. The only error is
    /// `Memory`.
    pub fn as_bytes(&self) -> Result<Option<Bytes>, SlateDBError>
        ensures copy { IfOk result (λ bytes. bytes ≡ bytes_of self.now) }
        ensures memory { IsOkUnless result SlateDBError.Memory }
    {
        match self {
            ValueDeletable::Value(bytes) | ValueDeletable::Merge(bytes) => Ok(Some(bytes.clone()?)),
            ValueDeletable::Tombstone => Ok(None),
        }
    }

    /// A copy of the content. The only error is `Memory`.
    pub fn clone(&self) -> Result<ValueDeletable, SlateDBError>
        ensures copy { IfOk result (λ copy. copy ≡ self.now) }
        ensures memory { IsOkUnless result SlateDBError.Memory }
    {
        Ok(Clone::clone(self)?)
    }
}

// The greatest length of a key, in bytes.
const MAX_KEY_LEN: usize = 65_535;

// The limit on the length of a value or an operand, in bytes. Each one is shorter.
const VALUE_LEN_LIMIT: usize = 1 << 32;

/// A row as tables store it.
#[derive(Clone, Debug, Drop, PartialEq, Eq)]
pub struct RowEntry {
    pub key: Bytes,
    pub value: ValueDeletable,
    pub seq: u64,
    pub create_ts: Option<i64>,
    pub expire_ts: Option<i64>,
}

impl RowEntry {
    /// Makes a row of these parts. It checks no length: `is_in_bounds` does.
    pub fn new(
        key: Bytes,
        value: ValueDeletable,
        seq: u64,
        create_ts: Option<i64>,
        expire_ts: Option<i64>,
    ) -> RowEntry
        ensures { result ≡ record {
          key = key;
          value = value;
          seq = seq;
          create_ts = create_ts;
          expire_ts = expire_ts;
        } }
    {
        RowEntry {
            key,
            value,
            seq,
            create_ts,
            expire_ts,
        }
    }

    /// Whether the key has at most 65,535 bytes, and the value or operand fewer than 2^32.
    pub fn is_in_bounds(&self) -> bool
        ensures { IsTrue result ↔ IsInBounds (row_of self.now) }
    {
        self.key.len() <= MAX_KEY_LEN && self.value.len() < VALUE_LEN_LIMIT
    }

    /// The size in bytes by which tables and blocks are cut. It is the lengths of the key and of
    /// the value or operand, 8 for the sequence, and 8 for each stamp that is there.
    pub fn estimated_size(&self) -> usize
        requires { IsInBounds (row_of self.now) }
        ensures { result ≡ estimated_size (row_of self.now) }
    {
        self.key.len() + self.value.len() + 8 + self.stamps_size()
    }

    /// The row's size in a block, in bytes. The key's first `key_prefix_len` bytes are shared with
    /// an earlier key and do not count.
    pub fn encoded_size(&self, key_prefix_len: usize) -> usize
        requires in_bounds { IsInBounds (row_of self.now) }
        requires prefix { key_prefix_len ≤ length self.now.key }
        ensures { result ≡ encoded_size (row_of self.now) key_prefix_len }
    {
        let fixed = 13 + (self.key.len() - key_prefix_len) + self.stamps_size();
        if self.value.is_tombstone() {
            fixed
        } else {
            fixed + 4 + self.value.len()
        }
    }

    /// A copy of the row. The only error is `Memory`.
    pub fn clone(&self) -> Result<RowEntry, SlateDBError>
        ensures copy { IfOk result (λ copy. copy ≡ self.now) }
        ensures memory { IsOkUnless result SlateDBError.Memory }
    {
        Ok(Clone::clone(self)?)
    }

    // The size of the stamps in bytes: 8 for each one that is there.
    fn stamps_size(&self) -> usize
        ensures { result ≡ stamp_size self.now.create_ts + stamp_size self.now.expire_ts }
    {
        let created = if self.create_ts.is_some() { 8 } else { 0 };
        let expires = if self.expire_ts.is_some() { 8 } else { 0 };
        created + expires
    }
}
