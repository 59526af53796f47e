//! The contexts of attempts.

ghost use Rattle.std.specs.Prelude.{◌≡◌, ◌<◌, ◌^◌, ◌++◌, ◌∷◌, [], length, slice_get, slice_set, IfOk, IfSome, IsOkUnless, OnErr, OnOk, Some};
ghost use Rattle.std.specs.Option.{ForSome};
ghost use Rattle.row_model.specs.Lists.{IsPrefixOf};
ghost use Rattle.fleet_jobs.specs.Contexts.{IsContinued, context_with, release_in, settings_in};

use crate::Release;
use fleet_plan::{Subcompaction, SubcompactionList};
use fleet_rows::{Copies, Settings, SlateDBError};
use fleet_tree::{SsTableHandle, TableList};
use std::alloc::AllocError;
use std::marker::Model;

/// The context of an attempt: its settings, and its ranges with the tables that were written for
/// each so far. Another attempt can go on from it. Settings and ranges never change, and there are
/// fewer than 2^32 ranges. A worker of release 1 makes it without a cut. Contracts see its parts.
#[derive(Debug, Drop, PartialEq, Eq)]
pub struct CompactionContext {
    subcompactions: SubcompactionList,
    floor: u64,
    tick: i64,
    last_run: bool,
    cut: Option<u64>,
}

impl Model for CompactionContext {
    ghost use Rattle.std.specs.Prelude.{◌<◌, ◌^◌, length};
    ghost use Rattle.fleet_jobs.specs.Parts.ContextParts.{ContextParts};

    ghost Value = { ContextParts };

    ghost view = { λ c. record {
      ranges = c.subcompactions;
      floor = c.floor;
      tick = c.tick;
      last_run = c.last_run;
      cut = c.cut;
    } };

    ghost inverse = { λ v. record {
      subcompactions = v.ranges;
      floor = v.floor;
      tick = v.tick;
      last_run = v.last_run;
      cut = v.cut;
    } };

    ghost invariant = { λ c. length c.subcompactions < 2 ^ 32 };
}

impl CompactionContext {
    /// A context with these ranges and settings, for a worker of this release. If it is of release
    /// 1, the cut of the settings is not kept.
    pub fn new(
        subcompactions: Vec<Subcompaction>,
        settings: Settings,
        release: Release,
    ) -> CompactionContext
        requires few { length subcompactions.items < 2 ^ 32 }
        ensures { result ≡ context_with subcompactions.items settings release }
    {
        let cut = match release {
            Release::One => None,
            Release::Two => Some(settings.cut),
        };
        CompactionContext {
            subcompactions: SubcompactionList::from_vec(subcompactions),
            floor: settings.floor,
            tick: settings.tick,
            last_run: settings.last_run,
            cut,
        }
    }

    /// The ranges, each with the tables that were written for it so far.
    pub fn subcompactions(&self) -> &[Subcompaction]
        ensures ranges { result.now ≡ self.now.ranges }
        ensures few { length self.now.ranges < 2 ^ 32 }
    {
        self.subcompactions.as_slice()
    }

    /// The number of ranges.
    pub fn ranges_len(&self) -> u32
        ensures { result ≡ length self.now.ranges }
    {
        self.subcompactions.len() as u32
    }

    /// The floor: no snapshot reads below it. It is always there.
    pub fn retention_min_seq(&self) -> Option<u64>
        ensures { result ≡ Some self.now.floor }
    {
        Some(self.floor)
    }

    /// The moment, in milliseconds, by which rows count as expired.
    pub fn clock_tick(&self) -> i64
        ensures { result ≡ self.now.tick }
    {
        self.tick
    }

    /// Whether the job writes the last run of its tree.
    pub fn is_dest_last_run(&self) -> bool
        ensures { result ≡ self.now.last_run }
    {
        self.last_run
    }

    /// The cut, or None if a worker of release 1 made the context.
    pub fn cut(&self) -> Option<u64>
        ensures { result ≡ self.now.cut }
    {
        self.cut
    }

    /// The release of the worker that made the context.
    pub fn release(&self) -> Release
        ensures { result ≡ release_in self.now.cut }
    {
        match self.cut {
            None => Release::One,
            Some(_) => Release::Two,
        }
    }

    /// The settings of the attempt. If there is no cut, it is the floor.
    pub fn settings(&self) -> Settings
        ensures { result ≡ settings_in self.now }
    {
        Settings {
            floor: self.floor,
            tick: self.tick,
            last_run: self.last_run,
            cut: self.cut.unwrap_or(self.floor),
        }
    }

    /// Replaces the tables of a range, counted from 0, by a list that begins with them.
    pub fn set_output_ssts(&mut self, subcompaction: usize, output_ssts: TableList)
        requires there { subcompaction < length self.old.ranges }
        requires longer { ForSome (slice_get self.old.ranges subcompaction)
            (λ range. IsPrefixOf range.output_ssts output_ssts) }
        ensures set { IfSome (slice_get self.old.ranges subcompaction)
            (λ range. self.new ≡ record self.old {
              ranges = slice_set self.old.ranges subcompaction
                  (record range { output_ssts = output_ssts });
            }) }
        ensures continued { IsContinued self.old self.new }
    {
        let mut ranges = self.subcompactions.take().into_vec();
        ranges[subcompaction].set_output_ssts(output_ssts);
        self.subcompactions = SubcompactionList::from_vec(ranges);
    }

    /// Adds a table at the end of the list of a range, counted from 0. If out of memory, the table
    /// is dropped.
    pub fn push_output_sst(
        &mut self,
        subcompaction: usize,
        table: SsTableHandle,
    ) -> Result<(), SlateDBError>
        requires { subcompaction < length self.old.ranges }
        ensures ok { OnOk result (IfSome (slice_get self.old.ranges subcompaction)
            (λ range. self.new ≡ record self.old {
              ranges = slice_set self.old.ranges subcompaction
                  (record range { output_ssts = range.output_ssts ++ table ∷ [] });
            })) }
        ensures err { OnErr result (self.new ≡ self.old) }
        ensures memory { IsOkUnless result SlateDBError.Memory }
    {
        let mut ranges = self.subcompactions.take().into_vec();
        let result = ranges[subcompaction].push_output_sst(table);
        self.subcompactions = SubcompactionList::from_vec(ranges);
        result
    }

    /// A copy, which shares the lists of tables.
    pub fn clone(&self) -> Result<CompactionContext, SlateDBError>
        ensures copy { IfOk result (λ copy. copy ≡ self.now) }
        ensures memory { IsOkUnless result SlateDBError.Memory }
    {
        Ok(Clone::clone(self)?)
    }
}

impl Clone for CompactionContext {
    ghost is_clone = { λ context copy. copy ≡ context };

    fn clone(&self) -> Result<CompactionContext, AllocError> {
        Ok(CompactionContext {
            subcompactions: Clone::clone(&self.subcompactions)?,
            floor: self.floor,
            tick: self.tick,
            last_run: self.last_run,
            cut: self.cut,
        })
    }
}

impl Copies for CompactionContext {
    fn copied(&self) -> Result<CompactionContext, AllocError> {
        Clone::clone(self)
    }
}
