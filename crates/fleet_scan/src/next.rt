//! The next key of a scan that has an answer.

ghost use Rattle.std.specs.Prelude.{◌≡◌, ◌∷◌, ⊤, true, OnOk, IfOk, IsOkUnless, option_map};
ghost use Rattle.row_model.specs.Rows.{IsStrictlyOrdered};
ghost use Rattle.fleet_iter.specs.MergeState as merge;
ghost use Rattle.fleet_rows.specs.Row.{row_of};
ghost use Rattle.fleet_rows.specs.declared.errors.SlateDBError.TheVariants as SlateDBError;
ghost use Rattle.fleet_scan.specs.Answered.{pair_of};
ghost use Rattle.fleet_scan.specs.Walk.{Gives, GivesKey, IsReading, TakesFirst, TakesKey, TakesRow, takes_more};
ghost use Rattle.fleet_table.specs.Iterator.{state_of};

use crate::KeyAnswer;
use crate::key_rows::{KeyRows, ReadPoint};
use fleet_fold::BatchMerger;
use fleet_iter::{MergeIterator, RowEntryIterator};
use fleet_rows::{RowEntry, SlateDBError};
use fleet_table::RunIterator;
use std::alloc::Global;

// Takes the next row.
#[inline]
fn take_first(
    alloc: Global,
    source: &mut MergeIterator<RunIterator<'_>>,
) -> Result<Option<RowEntry>, SlateDBError>
    requires sound { merge.IsSound (λ _. ⊤) state_of source.old }
    requires reading { IsReading (merge.state_of state_of source.old) }
    ensures first { IfOk result (λ first. TakesFirst
        (merge.state_of state_of source.old) first (merge.state_of state_of source.new)) }
    ensures memory { IsOkUnless result SlateDBError.Memory }
    ensures sound { merge.IsSound (λ _. ⊤) state_of source.new }
{
    source.next(alloc)
}

// Whether the next row has the key of the rows taken, and none of them hides it.
#[inline]
fn takes_more(source: &MergeIterator<RunIterator<'_>>, taken: &KeyRows) -> bool
    requires sound { merge.IsSound (λ _. ⊤) state_of source.now }
    requires reading { IsReading (merge.state_of state_of source.now) }
    ensures { result ≡ takes_more taken.now (merge.state_of state_of source.now).rows }
{
    !taken.is_hiding() && source.begins_with(taken.key())
}

// Takes the next row, which has the key of the rows taken.
#[inline]
fn take_row(
    alloc: Global,
    point: ReadPoint,
    source: &mut MergeIterator<RunIterator<'_>>,
    taken: &mut KeyRows,
) -> Result<(), SlateDBError>
    requires sound { merge.IsSound (λ _. ⊤) state_of source.old }
    requires reading { IsReading (merge.state_of state_of source.old) }
    requires more { takes_more taken.old (merge.state_of state_of source.old).rows ≡ true }
    ensures row { OnOk result (TakesRow point taken.old (merge.state_of state_of source.old)
        taken.new (merge.state_of state_of source.new)) }
    ensures memory { IsOkUnless result SlateDBError.Memory }
    ensures sound { merge.IsSound (λ _. ⊤) state_of source.new }
{
    match take_first(alloc, source)? {
        Some(row) => {
            taken.add(point, row)?;
            Ok(())
        }
        None => unreachable!(),
    }
}

// Takes the other rows of a key, newest first, up to one that hides those after it. It drops the
// hidden rows where they stand.
fn take_key(
    alloc: Global,
    point: ReadPoint,
    source: &mut MergeIterator<RunIterator<'_>>,
    taken: &mut KeyRows,
) -> Result<(), SlateDBError>
    requires sound { merge.IsSound (λ _. ⊤) state_of source.old }
    requires reading { IsReading (merge.state_of state_of source.old) }
    ensures key { OnOk result (TakesKey point taken.old (merge.state_of state_of source.old)
        taken.new (merge.state_of state_of source.new)) }
    ensures memory { IsOkUnless result SlateDBError.Memory }
    ensures sound { merge.IsSound (λ _. ⊤) state_of source.new }
{
    'rows: while takes_more(source, taken) {
        take_row(alloc, point, source, taken)?;
    }
    source.skip_key(alloc, taken.key())?;
    Ok(())
}

// Takes all rows of the key of `first`, and answers the key. None if a read of it finds nothing.
fn answer_key<B: BatchMerger>(
    alloc: Global,
    operator: &B,
    point: ReadPoint,
    source: &mut MergeIterator<RunIterator<'_>>,
    first: RowEntry,
) -> Result<Option<KeyAnswer>, SlateDBError>
    requires sound { merge.IsSound (λ _. ⊤) state_of source.old }
    requires reading { IsReading (merge.state_of state_of source.old) }
    requires ordered { IsStrictlyOrdered (row_of first ∷ (merge.state_of state_of source.old).rows) }
    ensures answer { IfOk result (λ answer. GivesKey (B.fold operator.now) point
        (row_of first ∷ (merge.state_of state_of source.old).rows) (option_map pair_of answer)
        (merge.state_of state_of source.new)) }
    ensures memory { IsOkUnless result SlateDBError.Memory }
    ensures sound { merge.IsSound (λ _. ⊤) state_of source.new }
{
    let mut taken = KeyRows::none(alloc, first.key);
    taken.take(point, first.value, first.seq, first.expire_ts)?;
    take_key(alloc, point, source, &mut taken)?;
    taken.answer(alloc, operator)
}

/// The next key that has an answer, with its answer. None if no key is left that has one.
pub(crate) fn next_answer<B: BatchMerger>(
    alloc: Global,
    operator: &B,
    point: ReadPoint,
    source: &mut MergeIterator<RunIterator<'_>>,
) -> Result<Option<KeyAnswer>, SlateDBError>
    requires sound { merge.IsSound (λ _. ⊤) state_of source.old }
    requires reading { IsReading (merge.state_of state_of source.old) }
    requires ordered { IsStrictlyOrdered (merge.state_of state_of source.old).rows }
    ensures answer { IfOk result (λ answer. Gives (B.fold operator.now) point
        (merge.state_of state_of source.old).rows (option_map pair_of answer)
        (merge.state_of state_of source.new)) }
    ensures memory { IsOkUnless result SlateDBError.Memory }
    ensures sound { merge.IsSound (λ _. ⊤) state_of source.new }
{
    'keys: while let Some(first) = take_first(alloc, source)? {
        let answer = answer_key(alloc, operator, point, source, first)?;
        if answer.is_some() {
            return Ok(answer);
        }
    }
    Ok(None)
}
