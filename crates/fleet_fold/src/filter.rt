//! Compaction filters, which a caller supplies.

ghost use Rattle.std.specs.Prelude.{◌≡◌, ℕ, [], ◌∷◌, Bool, true, false, IfOk, IsOkUnless};
ghost use Rattle.fleet_rows.specs.Row.{row_of};
ghost use Rattle.fleet_rows.specs.declared.errors.SlateDBError.TheVariants as fleet;
ghost use Rattle.fleet_fold.specs.Filter.{Answers, Closing, IsStated, GoesOn};

use fleet_rows::{CompactionFilterError, RowEntry, SlateDBError, ValueDeletable};
use std::alloc::Global;

/// What a filter decides about a row: to keep it, to drop it, or to give it another value.
#[derive(Clone, Debug, Drop, PartialEq, Eq)]
pub enum CompactionFilterDecision {
    Keep,
    Drop,
    Modify(ValueDeletable),
}

impl CompactionFilterDecision {
    /// A copy of the decision. It fails only with `SlateDBError::Memory`.
    pub fn clone(&self) -> Result<CompactionFilterDecision, SlateDBError>
        ensures copy { IfOk result (λ copy. copy ≡ self.now) }
        ensures memory { IsOkUnless result fleet.Memory }
    {
        Ok(Clone::clone(self)?)
    }
}

/// The job for which a filter is made.
#[derive(Clone, Copy, Debug, PartialEq, Eq)]
pub struct CompactionJobContext {
    /// The sorted run that the job writes, by its id.
    pub destination: u32,
    /// Whether nothing in the tree is older than that run.
    pub is_dest_last_run: bool,
    /// The moment of the job, in milliseconds. A row whose expiry is at most this moment counts as
    /// expired.
    pub compaction_clock_tick: i64,
    /// The least sequence that a snapshot reads, if there is a snapshot.
    pub retention_min_seq: Option<u64>,
}

/// A filter. It is shown the rows that a compaction writes, one after the other, and is closed at
/// most once.
pub trait CompactionFilter: Send + Sync + Drop {
    /// What the filter answers to a row, given the rows that it was shown before.
    ghost answers: { Self → Answers };

    /// What the filter answers when it is closed, given the rows that it was shown.
    ghost closing: { Self → Closing };

    /// Whether the filter was closed.
    ghost is_closed: { Self → Bool };

    /// Decides what becomes of a row.
    fn filter(
        &mut self,
        alloc: Global,
        entry: &RowEntry,
    ) -> Result<CompactionFilterDecision, CompactionFilterError>
        requires { is_closed self.old ≡ false }
        ensures answer { IsStated (answers self.old [] (row_of entry.now)) result }
        ensures later { IfOk result (λ _. GoesOn (row_of entry.now)
            (answers self.old) (closing self.old) (answers self.new) (closing self.new)) }
        ensures open { is_closed self.new ≡ false };

    /// Closes the filter. It is called once, after the last row. It is not called if the rows do
    /// not come to their end.
    fn on_compaction_end(&mut self, alloc: Global) -> Result<(), CompactionFilterError>
        requires { is_closed self.old ≡ false }
        ensures answer { IsStated (closing self.old []) result }
        ensures closed { is_closed self.new ≡ true };
}

/// A supplier of filters, which makes the filter of a job.
pub trait CompactionFilterSupplier: Send + Sync {
    type Filter: CompactionFilter;

    /// Makes a filter for a job. It is not closed. No clause says what it answers.
    fn create_compaction_filter(
        &self,
        alloc: Global,
        context: &CompactionJobContext,
    ) -> Result<Self::Filter, CompactionFilterError>
        ensures { IfOk result (λ filter. Self.Filter.is_closed filter ≡ false) };
}

/// A filter as adapters use it inside: it need not be `Send` or `Sync`. Every `CompactionFilter` is
/// a `RowFilter`. docs/DECISIONS.md says why the methods are declared again.
pub trait RowFilter {
    ghost answers: { Self → Answers };

    ghost closing: { Self → Closing };

    ghost is_closed: { Self → Bool };

    /// Does what `CompactionFilter::filter` does.
    fn filter_row(
        &mut self,
        alloc: Global,
        entry: &RowEntry,
    ) -> Result<CompactionFilterDecision, CompactionFilterError>
        requires { is_closed self.old ≡ false }
        ensures answer { IsStated (answers self.old [] (row_of entry.now)) result }
        ensures later { IfOk result (λ _. GoesOn (row_of entry.now)
            (answers self.old) (closing self.old) (answers self.new) (closing self.new)) }
        ensures open { is_closed self.new ≡ false };

    /// Does what `CompactionFilter::on_compaction_end` does.
    fn close(&mut self, alloc: Global) -> Result<(), CompactionFilterError>
        requires { is_closed self.old ≡ false }
        ensures answer { IsStated (closing self.old []) result }
        ensures closed { is_closed self.new ≡ true };
}

impl<F: CompactionFilter> RowFilter for F {
    ghost answers = { F.answers };

    ghost closing = { F.closing };

    ghost is_closed = { F.is_closed };

    fn filter_row(
        &mut self,
        alloc: Global,
        entry: &RowEntry,
    ) -> Result<CompactionFilterDecision, CompactionFilterError> {
        self.filter(alloc, entry)
    }

    fn close(&mut self, alloc: Global) -> Result<(), CompactionFilterError> {
        self.on_compaction_end(alloc)
    }
}
