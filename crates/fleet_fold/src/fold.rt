//! Folding rows: each group of operands becomes one row.

ghost use Rattle.std.specs.Prelude.{◌≡◌, ◌∷◌, ◌&&◌, [], true, false, not, None, Ok, IfOk, IfErr, IfSome, OnOk, IsTrue};
ghost use Rattle.row_model.specs.Rows.{is_operand};
ghost use Rattle.fleet_iter.specs.Iteration.{IteratorState};
ghost use Rattle.fleet_iter.specs.Merge.{head_passes};
ghost use Rattle.fleet_rows.specs.Row.{row_of};
ghost use Rattle.fleet_fold.specs.Retention.{IsReadable};
ghost use Rattle.fleet_fold.specs.Folded.{merged_group, same_group, opens};
ghost use Rattle.fleet_fold.specs.Groups.{TakesRows, RefusesAs, RefusesRows, RefusesGroup, FoldsGroup, with_next};

use crate::BatchMerger;
use crate::group::{Group, GroupRule, greater_stamp, lesser_stamp, same_stamp};
use crate::keeping::{are_same, is_operand};
use fleet_iter::RowSource;
use fleet_rows::{RowEntry, SlateDBError, ValueDeletable};
use std::alloc::Global;
use std::slice;

// Takes the rows that join a group, and gives its base, if it has one. If it has none, the first
// row after the group is read ahead.
fn take_rows<B: BatchMerger, T: RowSource>(
    alloc: Global,
    operator: &B,
    rule: GroupRule,
    inner: &mut T,
    ahead: &mut Option<RowEntry>,
    group: &mut Group,
) -> Result<Option<RowEntry>, SlateDBError>
    requires sound { T.sound inner.old }
    requires readable { IsReadable (T.state inner.old) }
    requires none { ahead.old ≡ None }
    ensures ok { IfOk result (λ base. TakesRows (B.fold operator.now) rule group.old
        (T.state inner.old) base group.new ahead.new (T.state inner.new)) }
    ensures err { IfErr result (RefusesRows (B.fold operator.now) rule group.old
        (T.state inner.old) (T.state inner.new)) }
    ensures sound { T.sound inner.new }
{
    'rows: while let Some(row) = inner.next_row(alloc)? {
        if !group.takes(rule, &row) {
            *ahead = Some(row);
            return Ok(None);
        }
        if !is_operand(&row) {
            return Ok(Some(row));
        }
        group.add(alloc, operator, row)?;
    }
    Ok(None)
}

// Makes the row of the group that `first` opens and a second operand joins.
#[inline(never)]
fn fold_group<B: BatchMerger, T: RowSource>(
    alloc: Global,
    operator: &B,
    rule: GroupRule,
    inner: &mut T,
    ahead: &mut Option<RowEntry>,
    first: RowEntry,
    second: RowEntry,
) -> Result<RowEntry, SlateDBError>
    requires sound { T.sound inner.old }
    requires readable { IsReadable (T.state inner.old) }
    requires none { ahead.old ≡ None }
    requires operand { is_operand (row_of first) ≡ true }
    requires joins { same_group rule first.key first.expire_ts (row_of second) ≡ true }
    requires second { is_operand (row_of second) ≡ true }
    ensures ok { IfOk result (λ row. FoldsGroup (B.fold operator.now) rule (row_of first)
        (with_next second (T.state inner.old)) (row_of row) ahead.new (T.state inner.new)) }
    ensures err { IfErr result (RefusesGroup (B.fold operator.now) rule (row_of first)
        (with_next second (T.state inner.old)) (T.state inner.new)) }
    ensures sound { T.sound inner.new }
{
    let mut group = Group::new(alloc, first)?;
    group.add(alloc, operator, second)?;
    match take_rows(alloc, operator, rule, inner, ahead, &mut group)? {
        Some(base) => Ok(group.close_over(alloc, operator, base)?),
        None => Ok(group.close(alloc, operator)?),
    }
}

// Whether the next row joins the group that `first` opens. It does not if there is none.
#[inline]
fn joins(rule: GroupRule, first: &RowEntry, next: &Option<RowEntry>) -> bool
    ensures { result
        ≡ head_passes (λ q. same_group rule first.now.key first.now.expire_ts q) next.now }
{
    match next {
        Some(row) => {
            are_same(&first.key, &row.key)
                && (rule.merge_different_expire_ts || same_stamp(first.expire_ts, row.expire_ts))
        }
        None => false,
    }
}

// Whether the next row is no operand. It is not so if there is none.
#[inline]
fn is_base(next: &Option<RowEntry>) -> bool
    ensures { result ≡ head_passes (λ q. not (is_operand q)) next.now }
{
    match next {
        Some(row) => !is_operand(row),
        None => false,
    }
}

// Merges the operand of a row that no other row joins. False if this is refused.
#[inline]
fn merge_alone<B: BatchMerger>(alloc: Global, operator: &B, row: &mut RowEntry) -> bool
    ensures merged { IsTrue result
        → merged_group (B.fold operator.now) (row_of row.old, []) ≡ Ok (row_of row.new) }
    ensures kept { result ≡ false → row.new ≡ row.old }
{
    let ValueDeletable::Merge(operand) = &row.value else {
        return false;
    };
    match operator.merged_batch(alloc, &row.key, None, slice::from_ref(operand)) {
        Ok(bytes) => {
            row.value = ValueDeletable::Merge(bytes);
            true
        }
        Err(_) => false,
    }
}

// Makes the row of a group that has its first row alone. If the operator refuses this operand in
// one call, batches tell the error.
fn fold_alone<B: BatchMerger>(
    alloc: Global,
    operator: &B,
    first: &mut RowEntry,
) -> Result<(), SlateDBError>
    requires operand { is_operand (row_of first.old) ≡ true }
    ensures ok { OnOk result
        (merged_group (B.fold operator.now) (row_of first.old, []) ≡ Ok (row_of first.new)) }
    ensures err { IfErr result
        (RefusesAs (merged_group (B.fold operator.now) (row_of first.old, []))) }
{
    if merge_alone(alloc, operator, first) {
        return Ok(());
    }
    let group = Group::new(alloc, first.clone()?)?;
    *first = group.close_in_batches(alloc, operator)?;
    Ok(())
}

// Merges the operand of a row over its base. False if this is refused, or the base has a greater
// sequence.
#[inline]
fn merge_over<B: BatchMerger>(
    alloc: Global,
    operator: &B,
    row: &mut RowEntry,
    base: &RowEntry,
) -> bool
    requires base { is_operand (row_of base.now) ≡ false }
    ensures merged { IsTrue result → merged_group (B.fold operator.now)
        (row_of row.old, row_of base.now ∷ []) ≡ Ok (row_of row.new) }
    ensures kept { result ≡ false → row.new ≡ row.old }
{
    if row.seq < base.seq {
        return false;
    }
    let ValueDeletable::Merge(operand) = &row.value else {
        return false;
    };
    let Ok(existing) = base.value.as_bytes() else {
        return false;
    };
    match operator.merged_batch(alloc, &row.key, existing, slice::from_ref(operand)) {
        Ok(bytes) => {
            row.value = ValueDeletable::Value(bytes);
            row.create_ts = greater_stamp(row.create_ts, base.create_ts);
            row.expire_ts = lesser_stamp(row.expire_ts, base.expire_ts);
            true
        }
        Err(_) => false,
    }
}

// Makes the row of a group that has its first row and its base. If the operator refuses this
// operand in one call, batches tell the error.
fn fold_over<B: BatchMerger>(
    alloc: Global,
    operator: &B,
    first: &mut RowEntry,
    base: &RowEntry,
) -> Result<(), SlateDBError>
    requires operand { is_operand (row_of first.old) ≡ true }
    requires base { is_operand (row_of base.now) ≡ false }
    ensures ok { OnOk result (merged_group (B.fold operator.now)
        (row_of first.old, row_of base.now ∷ []) ≡ Ok (row_of first.new)) }
    ensures err { IfErr result (RefusesAs (merged_group (B.fold operator.now)
        (row_of first.old, row_of base.now ∷ []))) }
{
    if merge_over(alloc, operator, first, base) {
        return Ok(());
    }
    let is_late = first.seq < base.seq;
    let group = Group::new(alloc, first.clone()?)?;
    *first = group.close_over_refused(alloc, operator, base.clone()?, is_late)?;
    Ok(())
}

/// Makes a row that opens a group the row of its group. If the group has no base, the first row
/// after it is read ahead.
pub(crate) fn fold_opened<B: BatchMerger, T: RowSource>(
    alloc: Global,
    operator: &B,
    rule: GroupRule,
    inner: &mut T,
    ahead: &mut Option<RowEntry>,
    first: &mut RowEntry,
) -> Result<(), SlateDBError>
    requires sound { T.sound inner.old }
    requires readable { IsReadable (T.state inner.old) }
    requires none { ahead.old ≡ None }
    requires opens { opens rule (row_of first.old) ≡ true }
    ensures ok { OnOk result (FoldsGroup (B.fold operator.now) rule (row_of first.old)
        (T.state inner.old) (row_of first.new) ahead.new (T.state inner.new)) }
    ensures err { IfErr result (RefusesGroup (B.fold operator.now) rule
        (row_of first.old) (T.state inner.old) (T.state inner.new)) }
    ensures sound { T.sound inner.new }
{
    let next = inner.next_row(alloc)?;
    if !joins(rule, first, &next) {
        fold_alone(alloc, operator, first)?;
        *ahead = next;
        return Ok(());
    }
    if is_base(&next) {
        let Some(base) = &next else {
            unreachable!();
        };
        fold_over(alloc, operator, first, base)?;
        return Ok(());
    }
    let Some(second) = next else {
        unreachable!();
    };
    *first = fold_group(alloc, operator, rule, inner, ahead, first.clone()?, second)?;
    Ok(())
}
