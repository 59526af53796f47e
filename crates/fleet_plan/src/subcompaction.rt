//! One range of a job.

ghost use Rattle.std.specs.Prelude.{◌≡◌, ◌++◌, ◌∷◌, [], IfOk, IsOkUnless, OnErr, OnOk};
ghost use Rattle.row_model.specs.Lists.{IsPrefixOf};

use fleet_range::BytesRange;
use fleet_rows::{Copies, ListOf, SlateDBError};
use fleet_tree::{SsTableHandle, TableList};
use std::alloc::{AllocError, Global};
use std::marker::Model;

/// A range of a job's keys, and the tables that were written for it so far. Contracts see both.
#[derive(Debug, Drop, PartialEq, Eq)]
pub struct Subcompaction {
    range: BytesRange,
    output_ssts: TableList,
}

impl Model for Subcompaction {
    ghost use Rattle.fleet_plan.specs.Parts.{Part};

    ghost Value = { Part };

    ghost view = { λ s. record { range = s.range; output_ssts = s.output_ssts } };

    ghost inverse = { λ v. record { range = v.range; output_ssts = v.output_ssts } };
}

impl Subcompaction {
    /// A subcompaction of this range, without tables.
    pub fn new(alloc: Global, range: BytesRange) -> Subcompaction
        ensures { result ≡ record { range = range; output_ssts = [] } }
    {
        Subcompaction {
            range,
            output_ssts: TableList::new(alloc),
        }
    }

    /// The subcompaction with these tables in place of its own.
    pub fn with_output_ssts(self, output_ssts: TableList) -> Subcompaction
        ensures { result ≡ record { range = self.range; output_ssts = output_ssts } }
    {
        let Subcompaction { range, .. } = self;
        Subcompaction { range, output_ssts }
    }

    /// The range of keys.
    pub fn range(&self) -> &BytesRange
        ensures { result.now ≡ self.now.range }
    {
        &self.range
    }

    /// The tables that were written so far, by rising key.
    pub fn output_ssts(&self) -> &[SsTableHandle]
        ensures { result.now ≡ self.now.output_ssts }
    {
        self.output_ssts.as_slice()
    }

    /// Replaces the list of tables by one that begins with it.
    pub fn set_output_ssts(&mut self, output_ssts: TableList)
        requires { IsPrefixOf self.old.output_ssts output_ssts }
        ensures { self.new ≡ record { range = self.old.range; output_ssts = output_ssts } }
    {
        self.output_ssts = output_ssts;
    }

    /// Adds a table at the end of the list. If out of memory, the table is dropped.
    pub fn push_output_sst(&mut self, table: SsTableHandle) -> Result<(), SlateDBError>
        ensures ok { OnOk result (self.new
            ≡ record self.old { output_ssts = self.old.output_ssts ++ table ∷ [] }) }
        ensures err { OnErr result (self.new ≡ self.old) }
        ensures memory { IsOkUnless result SlateDBError.Memory }
    {
        self.output_ssts.push(table)
    }

    /// A copy, which shares the list of tables.
    pub fn clone(&self) -> Result<Subcompaction, SlateDBError>
        ensures copy { IfOk result (λ copy. copy ≡ self.now) }
        ensures memory { IsOkUnless result SlateDBError.Memory }
    {
        Ok(Clone::clone(self)?)
    }
}

impl Clone for Subcompaction {
    ghost is_clone = { λ s copy. copy ≡ s };

    fn clone(&self) -> Result<Subcompaction, AllocError> {
        Ok(Subcompaction {
            range: Clone::clone(&self.range)?,
            output_ssts: Clone::clone(&self.output_ssts)?,
        })
    }
}

impl Copies for Subcompaction {
    fn copied(&self) -> Result<Subcompaction, AllocError> {
        Clone::clone(self)
    }
}

/// The ranges of a job, each with the tables that were written for it so far.
pub type SubcompactionList = ListOf<Subcompaction>;
