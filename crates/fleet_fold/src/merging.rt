//! Iterators that merge operands.

ghost use Rattle.std.specs.Prelude.{◌≡◌, ◌≢◌, true, false, None, OnOk, IfOk, IfErr};
ghost use Rattle.fleet_iter.specs.Iteration.{Inits, Nexts, Seeks, HandsOn, AreRising};
ghost use Rattle.fleet_fold.specs.Merging.{merging, state_of, ReadsGroups, IsSound, RisesIfRefused, Sought, HandsOnOrRefuses};
ghost use Rattle.fleet_fold.specs.Groups.{RefusesNext};
ghost use Rattle.fleet_fold.specs.Reading.{is_passed, MakesNext};
ghost use Rattle.fleet_fold.specs.Retention.{IsReadable, from_ahead};

use crate::fold::fold_opened;
use crate::group::{GroupRule, opens};
use crate::retention::drop_if_below;
use crate::{BatchMerger, MergeOperator};
use fleet_iter::{Failure, RowEntryIterator, RowSource, TrackedRowEntryIterator};
use fleet_rows::{RowEntry, SlateDBError};
use std::alloc::Global;
use std::mem;

/// An iterator that merges the operands of an inner iterator's rows: each group of operands becomes
/// one row.
#[derive(Drop)]
pub struct MergeOperatorIterator<'o, O: MergeOperator, T: RowEntryIterator> {
    operator: &'o O,
    delegate: T,
    rule: GroupRule,
    // The row that was read after the last group and does not belong to it.
    ahead: Option<RowEntry>,
    failure: Failure,
}

impl<'o, O: MergeOperator, T: RowEntryIterator> MergeOperatorIterator<'o, O, T> {
    /// Makes an iterator over the rows that `delegate` has left. An operand opens a group if it is
    /// at or below the barrier, or if there is no barrier. The next operands of its key join the
    /// group. If `merge_different_expire_ts` is false, only those with its expiry do. The first
    /// other row that may join is the group's base. Operands go to the operator in batches of at
    /// most 100, and the batches' results then go to it over the base's value. A lone operand goes
    /// to it too. Fewer than 100 operands go to it in one call over the base's value instead, which
    /// answers the same bytes. If it answers with an error, they go to it as a batch after all. The
    /// group's row has the first row's sequence, the greatest `create_ts` and the least
    /// `expire_ts`.
    ///
    /// It refuses a row whose sequence is above that of its group's first row with
    /// `InvalidSequenceOrder`.
    ///
    /// If no fold of the rows refuses, they may fall, as those of a descending merge do.
    #[tactic(auto, using(crate::proofs::FoldedSeeks::folded_rise))]
    pub fn new(
        operator: &'o O,
        delegate: T,
        merge_different_expire_ts: bool,
        snapshot_barrier_seq: Option<u64>,
    ) -> Self
        requires sound { T.sound delegate }
        requires alive { (T.state delegate).failure ≡ None }
        requires rising { RisesIfRefused (O.merged (O.settings operator.now))
            (record {
              merge_different_expire_ts = merge_different_expire_ts;
              snapshot_barrier_seq = snapshot_barrier_seq;
            }) (T.state delegate).rows }
        ensures rows { state_of O.settings O.merged T.state result
            ≡ merging None (O.merged (O.settings operator.now))
            (record {
              merge_different_expire_ts = merge_different_expire_ts;
              snapshot_barrier_seq = snapshot_barrier_seq;
            }) None (T.state delegate) }
        ensures sound { IsSound O.settings O.merged T.sound T.state result }
        ensures rising { AreRising (T.state delegate).rows
            → AreRising (state_of O.settings O.merged T.state result).rows }
    {
        MergeOperatorIterator {
            operator,
            delegate,
            rule: GroupRule {
                merge_different_expire_ts,
                snapshot_barrier_seq,
            },
            ahead: None,
            failure: Failure::new(),
        }
    }
}

// Whether a row that was read goes on as it is, or no row is left.
#[inline]
fn is_passed(rule: &GroupRule, read: &Result<Option<RowEntry>, SlateDBError>) -> bool
    ensures { result ≡ is_passed rule.now read.now }
{
    match read {
        Ok(Some(row)) => !opens(*rule, row),
        Ok(None) => true,
        Err(_) => false,
    }
}

// Makes the row that was read the row of the group that it opens. If no row could be read, this
// fails the iterator.
#[inline(never)]
fn fold_read<B: BatchMerger, T: RowSource>(
    alloc: Global,
    operator: &B,
    rule: &GroupRule,
    inner: &mut T,
    ahead: &mut Option<RowEntry>,
    failure: &mut Failure,
    read: &mut Result<Option<RowEntry>, SlateDBError>,
)
    requires sound { T.sound inner.old }
    requires alive { failure.old ≡ None }
    requires none { ahead.old ≡ None }
    requires readable { IfOk read.old (λ _. IsReadable (T.state inner.old)) }
    requires opened { is_passed rule.now read.old ≡ false }
    ensures made { MakesNext (B.fold operator.now) rule.now (T.state inner.old) read.old
        failure.new ahead.new (T.state inner.new) read.new }
    ensures sound { T.sound inner.new }
{
    match read {
        Ok(Some(first)) => {
            match fold_opened(alloc, operator, *rule, inner, ahead, first) {
                Ok(()) => (),
                Err(error) => *read = Err(failure.fail(error)),
            }
        }
        Ok(None) => (),
        Err(error) => {
            let cause = mem::replace(error, SlateDBError::Memory);
            *read = Err(failure.fail(cause));
        }
    }
}

// Makes the row that was read the next row of the iterator.
#[inline]
fn make_next<B: BatchMerger, T: RowSource>(
    alloc: Global,
    operator: &B,
    rule: &GroupRule,
    inner: &mut T,
    ahead: &mut Option<RowEntry>,
    failure: &mut Failure,
    read: &mut Result<Option<RowEntry>, SlateDBError>,
)
    requires sound { T.sound inner.old }
    requires alive { failure.old ≡ None }
    requires none { ahead.old ≡ None }
    requires readable { IfOk read.old (λ _. IsReadable (T.state inner.old)) }
    ensures made { MakesNext (B.fold operator.now) rule.now (T.state inner.old) read.old
        failure.new ahead.new (T.state inner.new) read.new }
    ensures sound { T.sound inner.new }
{
    if is_passed(rule, read) {
        return;
    }
    fold_read(alloc, operator, rule, inner, ahead, failure, read);
}

// The next row of an iterator with these parts, of which a row was read ahead.
#[inline(never)]
fn next_ahead<B: BatchMerger, T: RowSource>(
    alloc: Global,
    operator: &B,
    rule: &GroupRule,
    inner: &mut T,
    ahead: &mut Option<RowEntry>,
    failure: &mut Failure,
) -> Result<Option<RowEntry>, SlateDBError>
    requires sound { T.sound inner.old }
    requires alive { failure.old ≡ None }
    requires some { ahead.old ≢ None }
    requires reads { ReadsGroups
        (B.fold operator.now) rule.now failure.old ahead.old (T.state inner.old) }
    ensures next { Nexts
        (merging failure.old (B.fold operator.now) rule.now ahead.old (T.state inner.old))
        (merging failure.new (B.fold operator.now) rule.now ahead.new (T.state inner.new)) result }
    ensures handed { IfErr result (λ e. failure.old ≡ None → (T.state inner.old).initialised ≡ true
        → RefusesNext (B.fold operator.now) rule.now (from_ahead ahead.old (T.state inner.old))
        (T.state inner.old) (T.state inner.new) e) }
    ensures reads { ReadsGroups
        (B.fold operator.now) rule.now failure.new ahead.new (T.state inner.new) }
    ensures sound { T.sound inner.new }
{
    let mut read = Ok(ahead.take());
    make_next(alloc, operator, rule, inner, ahead, failure, &mut read);
    read
}

// The next row of an iterator with these parts. A row that opens no group is handed on as it is.
#[inline]
fn next_given<B: BatchMerger, T: RowSource>(
    alloc: Global,
    operator: &B,
    rule: &GroupRule,
    inner: &mut T,
    ahead: &mut Option<RowEntry>,
    failure: &mut Failure,
) -> Result<Option<RowEntry>, SlateDBError>
    requires sound { T.sound inner.old }
    requires reads { ReadsGroups
        (B.fold operator.now) rule.now failure.old ahead.old (T.state inner.old) }
    ensures next { Nexts
        (merging failure.old (B.fold operator.now) rule.now ahead.old (T.state inner.old))
        (merging failure.new (B.fold operator.now) rule.now ahead.new (T.state inner.new)) result }
    ensures handed { IfErr result (λ e. failure.old ≡ None → (T.state inner.old).initialised ≡ true
        → RefusesNext (B.fold operator.now) rule.now (from_ahead ahead.old (T.state inner.old))
        (T.state inner.old) (T.state inner.new) e) }
    ensures reads { ReadsGroups
        (B.fold operator.now) rule.now failure.new ahead.new (T.state inner.new) }
    ensures sound { T.sound inner.new }
{
    failure.check()?;
    if ahead.is_some() {
        return next_ahead(alloc, operator, rule, inner, ahead, failure);
    }
    let mut read = inner.next_row(alloc);
    make_next(alloc, operator, rule, inner, ahead, failure, &mut read);
    read
}

impl<O: MergeOperator, T: RowEntryIterator> RowEntryIterator for MergeOperatorIterator<'_, O, T> {
    ghost state = { state_of O.settings O.merged T.state };

    ghost sound = { IsSound O.settings O.merged T.sound T.state };

    ghost sought = { Sought O.settings O.merged T.state T.sought };

    ghost processed = { λ i. T.processed i.delegate };

    fn init(&mut self, alloc: Global) -> Result<(), SlateDBError>
        requires { IsSound O.settings O.merged T.sound T.state self.old }
        ensures init { Inits (state_of O.settings O.merged T.state self.old)
            (state_of O.settings O.merged T.state self.new) result }
        ensures handed { HandsOn
            (state_of O.settings O.merged T.state self.old) (T.state self.new.delegate) result }
        ensures sound { IsSound O.settings O.merged T.sound T.state self.new }
    {
        self.failure.check()?;
        match self.delegate.init(alloc) {
            Ok(()) => Ok(()),
            Err(error) => Err(self.failure.fail(error)),
        }
    }

    fn next(&mut self, alloc: Global) -> Result<Option<RowEntry>, SlateDBError>
        requires { IsSound O.settings O.merged T.sound T.state self.old }
        ensures next { Nexts (state_of O.settings O.merged T.state self.old)
            (state_of O.settings O.merged T.state self.new) result }
        ensures handed { HandsOnOrRefuses O.settings O.merged T.state self.old self.new result }
        ensures sound { IsSound O.settings O.merged T.sound T.state self.new }
    {
        next_given(
            alloc,
            self.operator,
            &self.rule,
            &mut self.delegate,
            &mut self.ahead,
            &mut self.failure,
        )
    }

    fn seek(&mut self, alloc: Global, next_key: &[u8]) -> Result<(), SlateDBError>
        requires sound { IsSound O.settings O.merged T.sound T.state self.old }
        requires rising { AreRising (state_of O.settings O.merged T.state self.old).rows }
        ensures seek { Seeks next_key.now (state_of O.settings O.merged T.state self.old)
            (state_of O.settings O.merged T.state self.new) result }
        ensures sought { OnOk result (Sought O.settings O.merged T.state
            T.sought self.old next_key.now (state_of O.settings O.merged T.state self.new)) }
        ensures uncounted { T.processed self.new.delegate ≡ T.processed self.old.delegate }
        ensures handed { HandsOn
            (state_of O.settings O.merged T.state self.old) (T.state self.new.delegate) result }
        ensures sound { IsSound O.settings O.merged T.sound T.state self.new }
    {
        self.failure.check()?;
        drop_if_below(&mut self.ahead, next_key);
        if self.ahead.is_some() {
            return Ok(());
        }
        match self.delegate.seek(alloc, next_key) {
            Ok(()) => Ok(()),
            Err(error) => Err(self.failure.fail(error)),
        }
    }
}

impl<O: MergeOperator, T: TrackedRowEntryIterator> TrackedRowEntryIterator
    for MergeOperatorIterator<'_, O, T> {
    fn bytes_processed(&self) -> u64 {
        self.delegate.bytes_processed()
    }
}
