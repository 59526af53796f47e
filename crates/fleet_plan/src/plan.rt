//! The ranges for a job over tables that are described.

ghost use Rattle.std.specs.Prelude.{◌≡◌, ◌≤◌, ◌++◌, [], List, flat_map, length, map, max, IfOk, IsOkUnless, OnOk};
ghost use Rattle.row_model.specs.Written.Plan.{planned_ranges};
ghost use Rattle.row_model.specs.Rows.{Row};
ghost use Rattle.row_laws.specs.Turns.{AreCut};
ghost use Rattle.fleet_tree.specs.Views.{View};
ghost use Rattle.fleet_plan.specs.Anchors.{anchors_of};
ghost use Rattle.fleet_plan.specs.Boundaries.{HoldEveryKeyOnce, ranges_of};
ghost use Rattle.fleet_plan.specs.Plans.{AreOfRows, greatest_view_size, planned_of, view_anchors, views_of};

use crate::{Anchor, MAX_ANCHORS_PER_SST, sample_anchors, select_boundaries};
use fleet_range::BytesRange;
use fleet_rows::SlateDBError;
use fleet_tree::{SortedRun, SsTableView};
use std::alloc::Global;

/// The ranges of keys for the subcompactions of a job over these flushes and runs. They are the
/// ranges of `select_boundaries` for the anchors of the tables, with the size of the greatest table
/// as `min_range_bytes`. If at most one range is asked for, the tables are not looked at.
pub fn plan_subcompaction_ranges(
    alloc: Global,
    l0: &[SsTableView],
    runs: &[SortedRun],
    max_subcompactions: u64,
) -> Result<Vec<BytesRange>, SlateDBError>
    ensures ranges { IfOk result (λ ranges. ranges_of ranges.items
        ≡ planned_of max_subcompactions (views_of l0.now runs.now)) }
    // If the rows of the tables are known, these are the ranges that the model plans for them.
    ensures planned { IfOk result (λ ranges. (rows : View → List Row)
        → AreOfRows rows (views_of l0.now runs.now) → ranges_of ranges.items
        ≡ planned_ranges max_subcompactions (map rows (views_of l0.now runs.now))) }
    ensures at_most { IfOk result (λ ranges. length ranges.items ≤ max max_subcompactions 1) }
    // The ranges follow one another, cut at rising edges.
    ensures rising { IfOk result (λ ranges. AreCut (ranges_of ranges.items)) }
    ensures every_key { IfOk result (λ ranges. HoldEveryKeyOnce (ranges_of ranges.items)) }
    ensures memory { IsOkUnless result SlateDBError.Memory }
{
    if max_subcompactions <= 1 {
        return select_boundaries(alloc, Vec::new(alloc), max_subcompactions, 0);
    }
    let mut inputs = Inputs::new(alloc);
    inputs.add(alloc, l0)?;
    'runs: for run in runs {
        inputs.add(alloc, run.sst_views())?;
    }
    select_boundaries(
        alloc,
        inputs.anchors,
        max_subcompactions,
        inputs.greatest_size,
    )
}

// What a plan needs of the tables: their anchors, and the size of the greatest table in bytes.
#[derive(Drop)]
struct Inputs {
    anchors: Vec<Anchor>,
    greatest_size: u64,
}

impl Inputs {
    fn new(alloc: Global) -> Inputs
        ensures anchors { result.anchors.items ≡ [] }
        ensures greatest_size { result.greatest_size ≡ 0 }
    {
        Inputs {
            anchors: Vec::new(alloc),
            greatest_size: 0,
        }
    }

    fn add(&mut self, alloc: Global, views: &[SsTableView]) -> Result<(), SlateDBError>
        ensures anchors { OnOk result (anchors_of self.new.anchors.items
            ≡ anchors_of self.old.anchors.items ++ flat_map view_anchors views.now) }
        ensures greatest_size { OnOk result
            (self.new.greatest_size ≡ max self.old.greatest_size (greatest_view_size views.now)) }
        ensures memory { IsOkUnless result SlateDBError.Memory }
    {
        'views: for view in views {
            let size = view.estimate_size();
            let mut anchors = sample_anchors(
                alloc,
                view.sst.blocks.as_slice(),
                size,
                MAX_ANCHORS_PER_SST,
                view.compacted_effective_range(),
            )?;
            self.anchors.append(&mut anchors)?;
            self.greatest_size = self.greatest_size.max(size);
        }
        Ok(())
    }
}
