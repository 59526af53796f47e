//! Filters for cases, and a supplier of filters.

use bytes::Bytes;
use fleet_fold::{
    CompactionFilter, CompactionFilterDecision, CompactionFilterSupplier, CompactionJobContext,
};
use fleet_rows::{CompactionFilterError, RowEntry, Text, ValueDeletable};
use std::alloc::Global;

/// A filter that drops the rows whose keys begin with a prefix.
#[derive(Drop)]
pub struct WithoutPrefix {
    pub prefix: Bytes,
    pub closed: bool,
}

impl CompactionFilter for WithoutPrefix {
    ghost use Rattle.std.specs.Prelude.{nat_eq, Ok, if◌then◌else◌};
    ghost use Rattle.std.specs.List.{starts_with};
    ghost use Rattle.fleet_fold.specs.declared.filter.CompactionFilterDecision.TheVariants as decision;

    ghost answers = { λ f _ r.
        if starts_with nat_eq r.key f.prefix then Ok decision.Drop else Ok decision.Keep };

    ghost closing = { λ _ _. Ok tt };

    ghost is_closed = { λ f. f.closed };

    fn filter(
        &mut self,
        _alloc: Global,
        entry: &RowEntry,
    ) -> Result<CompactionFilterDecision, CompactionFilterError> {
        if entry.key.as_slice().starts_with(self.prefix.as_slice()) {
            return Ok(CompactionFilterDecision::Drop);
        }
        Ok(CompactionFilterDecision::Keep)
    }

    fn on_compaction_end(&mut self, _alloc: Global) -> Result<(), CompactionFilterError> {
        self.closed = true;
        Ok(())
    }
}

/// A filter that gives each row the same value.
#[derive(Drop)]
pub struct Replacing {
    pub value: ValueDeletable,
    pub closed: bool,
}

impl CompactionFilter for Replacing {
    ghost use Rattle.std.specs.Prelude.{Ok};
    ghost use Rattle.fleet_fold.specs.declared.filter.CompactionFilterDecision.TheVariants as decision;

    ghost answers = { λ f _ _. Ok (decision.Modify f.value) };

    ghost closing = { λ _ _. Ok tt };

    ghost is_closed = { λ f. f.closed };

    fn filter(
        &mut self,
        _alloc: Global,
        _entry: &RowEntry,
    ) -> Result<CompactionFilterDecision, CompactionFilterError> {
        let value = Clone::clone(&self.value)?;
        Ok(CompactionFilterDecision::Modify(value))
    }

    fn on_compaction_end(&mut self, _alloc: Global) -> Result<(), CompactionFilterError> {
        self.closed = true;
        Ok(())
    }
}

/// A filter that refuses each row with the text `no`.
#[derive(Drop)]
pub struct Refusing {
    pub closed: bool,
}

impl CompactionFilter for Refusing {
    ghost use Rattle.std.specs.Prelude.{Ok, Err, codes};
    ghost use Rattle.fleet_rows.specs.declared.errors.CompactionFilterError.TheVariants as refusal;

    ghost answers = { λ _ _ _. Err (refusal.FilterError (codes "no")) };

    ghost closing = { λ _ _. Ok tt };

    ghost is_closed = { λ f. f.closed };

    fn filter(
        &mut self,
        alloc: Global,
        _entry: &RowEntry,
    ) -> Result<CompactionFilterDecision, CompactionFilterError> {
        let text = Text::new(String::from_str(alloc, "no")?);
        Err(CompactionFilterError::FilterError(text))
    }

    fn on_compaction_end(&mut self, _alloc: Global) -> Result<(), CompactionFilterError> {
        self.closed = true;
        Ok(())
    }
}

/// A supplier that makes a filter for the last run only. For another run it refuses with the text
/// `none`.
#[derive(Clone, Copy, Debug)]
pub struct ForTheLastRun;

impl CompactionFilterSupplier for ForTheLastRun {
    type Filter = Refusing;

    fn create_compaction_filter(
        &self,
        alloc: Global,
        context: &CompactionJobContext,
    ) -> Result<Refusing, CompactionFilterError> {
        if context.is_dest_last_run {
            return Ok(Refusing { closed: false });
        }
        let text = Text::new(String::from_str(alloc, "none")?);
        Err(CompactionFilterError::CreationError(text))
    }
}
