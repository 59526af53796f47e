//! A group of operands, which becomes one row.

ghost use Rattle.std.specs.Prelude.{◌≡◌, [], ◌∷◌, true, false, None, Ok, IfOk, IfErr, IfSome, OnOk, IsOkUnless, reverse};
ghost use Rattle.row_model.specs.FoldedRows.{greater_stamp, same_stamp};
ghost use Rattle.row_model.specs.Fold.{Operator, fold_bytes};
ghost use Rattle.row_model.specs.Rows.{is_operand};
ghost use Rattle.fleet_rows.specs.declared.errors.SlateDBError.TheVariants as SlateDBError;
ghost use Rattle.fleet_rows.specs.Row.{bytes_of, content_of, row_of};
ghost use Rattle.fleet_fold.specs.Folded.{lesser_stamp, same_group, opens, in_order, answer_of};
ghost use Rattle.fleet_fold.specs.Groups.{RefusesAs, with_value, Gathers, Notes, Flushes, RefusesFlush, FlushesFull, RefusesFull, Pushes, Adds, RefusesAdd, Closes, RefusesClose};

use crate::BatchMerger;
use crate::keeping::{are_same, is_operand};
use bytes::Bytes;
use fleet_rows::{RowEntry, SlateDBError, ValueDeletable};
use std::alloc::{AllocError, Global};

// The number of operands in a full batch.
const BATCH_LEN: usize = 100;

/// The rule that says which rows make a group.
#[derive(Clone, Copy, Debug, PartialEq, Eq)]
pub(crate) struct GroupRule {
    /// Whether operands of different expiry are merged.
    pub merge_different_expire_ts: bool,
    /// Operands above this sequence open no group. None sets no limit.
    pub snapshot_barrier_seq: Option<u64>,
}

/// Whether a row opens a group: it is an operand at or below the barrier.
pub(crate) fn opens(rule: GroupRule, row: &RowEntry) -> bool
    ensures { result ≡ opens rule (row_of row.now) }
{
    let within = match rule.snapshot_barrier_seq {
        Some(barrier) => row.seq <= barrier,
        None => true,
    };
    is_operand(row) && within
}

pub(crate) fn same_stamp(stamp: Option<i64>, other: Option<i64>) -> bool
    ensures { result ≡ same_stamp stamp other }
{
    match (stamp, other) {
        (None, None) => true,
        (Some(stamp), Some(other)) => stamp <= other && other <= stamp,
        _ => false,
    }
}

pub(crate) fn greater_stamp(stamp: Option<i64>, other: Option<i64>) -> Option<i64>
    ensures { result ≡ greater_stamp stamp other }
{
    match (stamp, other) {
        (None, other) => other,
        (Some(stamp), None) => Some(stamp),
        (Some(stamp), Some(other)) => Some(if stamp <= other { other } else { stamp }),
    }
}

pub(crate) fn lesser_stamp(stamp: Option<i64>, other: Option<i64>) -> Option<i64>
    ensures { result ≡ lesser_stamp stamp other }
{
    match (stamp, other) {
        (None, other) => other,
        (Some(stamp), None) => Some(stamp),
        (Some(stamp), Some(other)) => Some(if other <= stamp { other } else { stamp }),
    }
}

// The bytes of a value or of an operand. None for a tombstone.
fn into_bytes(value: ValueDeletable) -> Option<Bytes>
    ensures { result ≡ bytes_of value }
{
    match value {
        ValueDeletable::Value(bytes) => Some(bytes),
        ValueDeletable::Merge(bytes) => Some(bytes),
        ValueDeletable::Tombstone => None,
    }
}

fn merge_batch<B: BatchMerger>(
    alloc: Global,
    operator: &B,
    key: &Bytes,
    existing_value: Option<Bytes>,
    operands: &[Bytes],
) -> Result<Bytes, SlateDBError>
    ensures ok { IfOk result (λ bytes. answer_of (fold_bytes
        (B.fold operator.now) key.now existing_value operands.now) ≡ Ok bytes) }
    ensures err { IfErr result (RefusesAs (answer_of
        (fold_bytes (B.fold operator.now) key.now existing_value operands.now))) }
{
    Ok(operator.merged_batch(alloc, key, existing_value, operands)?)
}

/// A group while its rows are taken.
#[derive(Drop)]
pub(crate) struct Group {
    key: Bytes,
    seq: u64,
    // The expiry of the first row.
    stamp: Option<i64>,
    created: Option<i64>,
    expires: Option<i64>,
    // The sequence of the last row whose sequence is above that of the first row.
    late: Option<u64>,
    // The operands that wait to be merged, in the order in which they came: newest first.
    batch: Vec<Bytes>,
    // The results of the merged batches, in the order in which they came: newest first.
    folded: Vec<Bytes>,
}

impl Group {
    /// Makes the group that a row opens.
    #[inline(always)]
    pub(crate) fn new(alloc: Global, row: RowEntry) -> Result<Group, SlateDBError>
        requires operand { is_operand (row_of row) ≡ true }
        ensures ok { IfOk result
            (λ group. (merge : Operator) → Gathers merge (row_of row) [] group) }
        ensures memory { IsOkUnless result SlateDBError.Memory }
    {
        let RowEntry {
            key,
            value,
            seq,
            create_ts,
            expire_ts,
        } = row;
        let mut batch = Vec::new(alloc);
        if let Some(operand) = into_bytes(value) {
            batch.push(operand)?;
        }
        Ok(Group {
            key,
            seq,
            stamp: expire_ts,
            created: create_ts,
            expires: expire_ts,
            late: None,
            batch,
            folded: Vec::new(alloc),
        })
    }

    /// Whether a row belongs to the group. It has the group's key, and the expiry of the first row
    /// unless the rule merges different ones.
    #[inline]
    pub(crate) fn takes(&self, rule: GroupRule, row: &RowEntry) -> bool
        ensures { result ≡ same_group rule self.now.key self.now.stamp (row_of row.now) }
    {
        are_same(&self.key, &row.key)
            && (rule.merge_different_expire_ts || same_stamp(self.stamp, row.expire_ts))
    }

    // Notes a row's sequence and stamps.
    #[inline]
    fn note(&mut self, row: &RowEntry)
        ensures { Notes self.old (row_of row.now) self.new }
    {
        self.created = greater_stamp(self.created, row.create_ts);
        self.expires = lesser_stamp(self.expires, row.expire_ts);
        if row.seq > self.seq {
            self.late = Some(row.seq);
        }
    }

    // Refuses the group with `InvalidSequenceOrder` if a row has a sequence above that of the first
    // row.
    #[inline]
    fn check(&self) -> Result<(), SlateDBError>
        ensures { result ≡ in_order self.now.seq self.now.late (Ok tt) }
    {
        match self.late {
            Some(next_seq) => Err(SlateDBError::InvalidSequenceOrder {
                current_seq: self.seq,
                next_seq,
            }),
            None => Ok(()),
        }
    }

    // Merges the operands that wait to be merged, if there are any, into one result.
    fn flush<B: BatchMerger>(&mut self, alloc: Global, operator: &B) -> Result<(), SlateDBError>
        ensures ok { OnOk result (Flushes (B.fold operator.now) self.old self.new) }
        ensures err { IfErr result (RefusesFlush (B.fold operator.now) self.old) }
    {
        if self.batch.is_empty() {
            return Ok(());
        }
        self.check()?;
        self.batch.reverse();
        let one = merge_batch(alloc, operator, &self.key, None, &self.batch)?;
        self.batch.clear();
        self.folded.push(one)?;
        Ok(())
    }

    // Merges the operands that wait to be merged, if they fill a batch.
    fn flush_if_full<B: BatchMerger>(
        &mut self,
        alloc: Global,
        operator: &B,
    ) -> Result<(), SlateDBError>
        ensures ok { OnOk result
            (FlushesFull (B.fold operator.now) self.old self.new) }
        ensures err { IfErr result (RefusesFull (B.fold operator.now) self.old) }
    {
        if self.batch.len() < BATCH_LEN {
            return Ok(());
        }
        self.flush(alloc, operator)?;
        Ok(())
    }

    // Takes an operand, which then waits to be merged.
    fn push(&mut self, row: RowEntry) -> Result<(), AllocError>
        requires operand { is_operand (row_of row) ≡ true }
        ensures { OnOk result (Pushes self.old (row_of row) self.new) }
    {
        self.note(&row);
        match into_bytes(row.value) {
            Some(operand) => {
                self.batch.push(operand)?;
                Ok(())
            }
            None => unreachable!(),
        }
    }

    /// Takes one more operand, and merges the batch if it is full.
    pub(crate) fn add<B: BatchMerger>(
        &mut self,
        alloc: Global,
        operator: &B,
        row: RowEntry,
    ) -> Result<(), SlateDBError>
        requires operand { is_operand (row_of row) ≡ true }
        ensures ok { OnOk result
            (Adds (B.fold operator.now) self.old (row_of row) self.new) }
        ensures err { IfErr result
            (RefusesAdd (B.fold operator.now) self.old (row_of row)) }
    {
        self.push(row)?;
        self.flush_if_full(alloc, operator)?;
        Ok(())
    }

    // The group's row with this content.
    #[inline(always)]
    fn into_row(self, value: ValueDeletable) -> RowEntry
        ensures { row_of result ≡ with_value self (content_of value) }
    {
        RowEntry::new(self.key, value, self.seq, self.created, self.expires)
    }

    // The bytes that the waiting operands merge to in one call. None if batches are merged already,
    // if a row is out of order, or if the operator answers with an error. It does not change the
    // group.
    #[inline(always)]
    fn merged_at_once<B: BatchMerger>(
        &mut self,
        alloc: Global,
        operator: &B,
        existing_value: Option<Bytes>,
    ) -> Option<Bytes>
        ensures key { self.new.key ≡ self.old.key }
        ensures seq { self.new.seq ≡ self.old.seq }
        ensures stamp { self.new.stamp ≡ self.old.stamp }
        ensures created { self.new.created ≡ self.old.created }
        ensures expires { self.new.expires ≡ self.old.expires }
        ensures late { self.new.late ≡ self.old.late }
        ensures batch { self.new.batch.items ≡ self.old.batch.items }
        ensures folded { self.new.folded.items ≡ self.old.folded.items }
        ensures unmerged { IfSome result (λ _. self.old.folded.items ≡ []) }
        ensures ordered { IfSome result (λ _. self.old.late ≡ None) }
        ensures merged { IfSome result (λ bytes. answer_of (fold_bytes (B.fold operator.now)
            self.old.key existing_value (reverse self.old.batch.items)) ≡ Ok bytes) }
    {
        if !self.folded.is_empty() || self.late.is_some() {
            return None;
        }
        self.batch.reverse();
        let answer = merge_batch(alloc, operator, &self.key, existing_value, &self.batch);
        self.batch.reverse();
        answer.ok()
    }

    /// Makes the row of a group without a base, batch by batch.
    pub(crate) fn close_in_batches<B: BatchMerger>(
        self,
        alloc: Global,
        operator: &B,
    ) -> Result<RowEntry, SlateDBError>
        ensures ok { IfOk result
            (λ row. Closes (B.fold operator.now) self [] (row_of row)) }
        ensures err { IfErr result (RefusesClose (B.fold operator.now) self []) }
    {
        let mut group = self;
        group.flush(alloc, operator)?;
        group.folded.reverse();
        let bytes = merge_batch(alloc, operator, &group.key, None, &group.folded)?;
        Ok(group.into_row(ValueDeletable::Merge(bytes)))
    }

    /// Makes the row of a group without a base. Its content is an operand. Operands that fill no
    /// batch go to the operator in one call. If this is refused, batches tell the error.
    #[inline(always)]
    pub(crate) fn close<B: BatchMerger>(
        self,
        alloc: Global,
        operator: &B,
    ) -> Result<RowEntry, SlateDBError>
        ensures ok { IfOk result
            (λ row. Closes (B.fold operator.now) self [] (row_of row)) }
        ensures err { IfErr result (RefusesClose (B.fold operator.now) self []) }
    {
        let mut group = self;
        match group.merged_at_once(alloc, operator, None) {
            Some(bytes) => Ok(group.into_row(ValueDeletable::Merge(bytes))),
            None => Ok(group.close_in_batches(alloc, operator)?),
        }
    }

    // Makes the row of a group over its base, batch by batch.
    fn close_over_in_batches<B: BatchMerger>(
        self,
        alloc: Global,
        operator: &B,
        base: RowEntry,
    ) -> Result<RowEntry, SlateDBError>
        requires base { is_operand (row_of base) ≡ false }
        ensures ok { IfOk result (λ row.
            Closes (B.fold operator.now) self (row_of base ∷ []) (row_of row)) }
        ensures err { IfErr result
            (RefusesClose (B.fold operator.now) self (row_of base ∷ [])) }
    {
        let mut group = self;
        group.flush(alloc, operator)?;
        group.note(&base);
        group.check()?;
        group.folded.reverse();
        let existing = into_bytes(base.value);
        let bytes = merge_batch(alloc, operator, &group.key, existing, &group.folded)?;
        Ok(group.into_row(ValueDeletable::Value(bytes)))
    }

    /// Makes the row of a group over its base. Its content is a value. Operands that fill no batch
    /// go to the operator in one call. If this is refused, batches tell the error.
    #[inline(always)]
    pub(crate) fn close_over<B: BatchMerger>(
        self,
        alloc: Global,
        operator: &B,
        base: RowEntry,
    ) -> Result<RowEntry, SlateDBError>
        requires base { is_operand (row_of base) ≡ false }
        ensures ok { IfOk result (λ row.
            Closes (B.fold operator.now) self (row_of base ∷ []) (row_of row)) }
        ensures err { IfErr result
            (RefusesClose (B.fold operator.now) self (row_of base ∷ [])) }
    {
        let mut group = self;
        let existing = base.value.as_bytes()?;
        match group.merged_at_once(alloc, operator, existing) {
            Some(bytes) => {
                group.note(&base);
                group.check()?;
                Ok(group.into_row(ValueDeletable::Value(bytes)))
            }
            None => Ok(group.close_over_in_batches(alloc, operator, base)?),
        }
    }

    /// Makes the row of a group over its base. If the base is late, the operands go to the operator
    /// in one call first. Otherwise this was tried, and they go to it batch by batch.
    pub(crate) fn close_over_refused<B: BatchMerger>(
        self,
        alloc: Global,
        operator: &B,
        base: RowEntry,
        is_late: bool,
    ) -> Result<RowEntry, SlateDBError>
        requires base { is_operand (row_of base) ≡ false }
        ensures ok { IfOk result (λ row.
            Closes (B.fold operator.now) self (row_of base ∷ []) (row_of row)) }
        ensures err { IfErr result
            (RefusesClose (B.fold operator.now) self (row_of base ∷ [])) }
    {
        if is_late {
            return self.close_over(alloc, operator, base);
        }
        self.close_over_in_batches(alloc, operator, base)
    }
}
