//! The rows of a key, newest first, and what a read of them answers.

ghost use Rattle.std.specs.Prelude.{◌≡◌, ◌≢◌, ◌↔◌, [], reverse, IsTrue, OnOk, IfOk, IsOkUnless, option_map};
ghost use Rattle.row_model.specs.Fold.{fold_bytes};
ghost use Rattle.row_model.specs.Rows.{is_reached};
ghost use Rattle.fleet_rows.specs.Row.{content_of, row_of};
ghost use Rattle.fleet_rows.specs.declared.errors.SlateDBError.TheVariants as SlateDBError;
ghost use Rattle.fleet_scan.specs.Answered.{pair_of};
ghost use Rattle.fleet_scan.specs.KeyRows.{Adds, Takes, base_of, ground_of, is_hiding};

use crate::KeyAnswer;
use bytes::Bytes;
use fleet_fold::BatchMerger;
use fleet_rows::{MergeOperatorError, RowEntry, SlateDBError, ValueDeletable};
use std::alloc::{AllocError, Global};

/// What a read asks for, beside the key. It sees the rows with at most this sequence, and rows are
/// expired from their expiry on.
#[derive(Clone, Copy, Debug)]
pub(crate) struct ReadPoint {
    pub(crate) seq: u64,
    pub(crate) moment: i64,
}

/// What lies under the operands of a key that were taken so far.
#[derive(Debug, Drop)]
enum Ground {
    /// The older rows, which are not taken yet.
    Older,
    /// A value. It hides the older rows.
    Value(Bytes),
    /// A tombstone or an expired value. It hides the older rows.
    Nothing,
}

impl Ground {
    fn of_value(bytes: Bytes, expired: bool) -> Ground
        ensures { result ≡ ground_of bytes expired }
    {
        if expired {
            Ground::Nothing
        } else {
            Ground::Value(bytes)
        }
    }

    fn is_older(&self) -> bool
        ensures { IsTrue result ↔ (self.now ≡ Ground.Older) }
    {
        matches!(self, Ground::Older)
    }

    // The value under the operands, where no older row is left.
    fn into_base(self) -> Option<Bytes>
        ensures { result ≡ base_of self }
    {
        match self {
            Ground::Value(bytes) => Some(bytes),
            Ground::Older | Ground::Nothing => None,
        }
    }
}

// Whether a stamp is there and is at most this moment.
fn is_reached(stamp: Option<i64>, moment: i64) -> bool
    ensures { result ≡ is_reached stamp moment }
{
    match stamp {
        Some(stamp) => stamp <= moment,
        None => false,
    }
}

/// What the rows of a key that were taken so far leave for a read.
#[derive(Debug, Drop)]
pub(crate) struct KeyRows {
    key: Bytes,
    // The operands that the read sees, newest first.
    operands: Vec<Bytes>,
    ground: Ground,
}

impl KeyRows {
    /// No row of the key is taken.
    pub(crate) fn none(alloc: Global, key: Bytes) -> KeyRows
        ensures key { result.key ≡ key }
        ensures ground { result.ground ≡ Ground.Older }
        ensures operands { result.operands.items ≡ [] }
    {
        KeyRows {
            key,
            operands: Vec::new(alloc),
            ground: Ground::Older,
        }
    }

    /// Whether a row that was taken hides all older ones.
    pub(crate) fn is_hiding(&self) -> bool
        ensures { result ≡ is_hiding self.now.ground }
    {
        match self.ground {
            Ground::Older => false,
            Ground::Value(_) | Ground::Nothing => true,
        }
    }

    /// The key.
    #[inline]
    pub(crate) fn key(&self) -> &[u8]
        ensures { result.now ≡ self.now.key }
    {
        self.key.as_slice()
    }

    /// Takes a row of the key that is older than all taken before.
    pub(crate) fn add(&mut self, point: ReadPoint, row: RowEntry) -> Result<(), AllocError>
        ensures { OnOk result (Adds point self.old (row_of row) self.new) }
    {
        self.take(point, row.value, row.seq, row.expire_ts)?;
        Ok(())
    }

    /// The key with its answer, once all its rows are taken. None if a read finds nothing.
    pub(crate) fn answer<B: BatchMerger>(
        self,
        alloc: Global,
        operator: &B,
    ) -> Result<Option<KeyAnswer>, SlateDBError>
        ensures answer { IfOk result (λ answer. option_map pair_of answer ≡ option_map
            (λ outcome. (self.key, outcome)) (fold_bytes (B.fold operator.now) self.key
            (base_of self.ground) (reverse self.operands.items))) }
        ensures memory { IsOkUnless result SlateDBError.Memory }
    {
        let KeyRows {
            key,
            operands,
            ground,
        } = self;
        let base = ground.into_base();
        if operands.is_empty() {
            return match base {
                Some(value) => Ok(Some(KeyAnswer::Found(key, value))),
                None => Ok(None),
            };
        }
        folded(alloc, operator, key, base, operands)
    }

    /// Takes a row of the key with this content, sequence and expiry. It is older than all rows taken
    /// before.
    #[tactic(auto, using(crate::proofs::Parts::takes_unseen, crate::proofs::Parts::takes_hidden, crate::proofs::Parts::takes_expired, crate::proofs::Parts::takes_operand, crate::proofs::Parts::takes_value, crate::proofs::Parts::takes_tombstone))]
    pub(crate) fn take(
        &mut self,
        point: ReadPoint,
        value: ValueDeletable,
        seq: u64,
        expire_ts: Option<i64>,
    ) -> Result<(), AllocError>
        ensures { OnOk result
            (Takes point self.old (content_of value) seq expire_ts self.new) }
    {
        if seq > point.seq {
            return Ok(());
        }
        if !self.ground.is_older() {
            return Ok(());
        }
        let expired = is_reached(expire_ts, point.moment);
        match value {
            ValueDeletable::Merge(operand) => {
                if expired {
                    return Ok(());
                }
                self.operands.push(operand)?;
                Ok(())
            }
            ValueDeletable::Value(bytes) => {
                self.ground = Ground::of_value(bytes, expired);
                Ok(())
            }
            ValueDeletable::Tombstone => {
                self.ground = Ground::Nothing;
                Ok(())
            }
        }
    }
}

// The key with what the operator makes of its operands over the base. The operands are newest
// first, and there is at least one.
fn folded<B: BatchMerger>(
    alloc: Global,
    operator: &B,
    key: Bytes,
    base: Option<Bytes>,
    operands: Vec<Bytes>,
) -> Result<Option<KeyAnswer>, SlateDBError>
    requires some { operands.items ≢ [] }
    ensures answer { IfOk result (λ answer. option_map pair_of answer
        ≡ option_map (λ outcome. (key, outcome))
        (fold_bytes (B.fold operator.now) key base (reverse operands.items))) }
    ensures memory { IsOkUnless result SlateDBError.Memory }
{
    let mut operands = operands;
    operands.reverse();
    match operator.merged_batch(alloc, &key, base, &operands) {
        Ok(value) => Ok(Some(KeyAnswer::Found(key, value))),
        Err(MergeOperatorError::Callback { message }) => Ok(Some(KeyAnswer::Refused(key, message))),
        Err(MergeOperatorError::Memory) => Err(SlateDBError::Memory),
        Err(MergeOperatorError::EmptyBatch) => unreachable!(),
    }
}
