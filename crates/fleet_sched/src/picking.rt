//! Picks of jobs, tree by tree and pass by pass.

ghost use Rattle.std.specs.Prelude.{◌≡◌, ◌++◌, ◌-◌, ◌+◌, ◌∷◌, [], map, option_map, length, IfOk, OnOk, is_some};
ghost use Rattle.sched_model.specs.FreshRuns.{capped_id};
ghost use Rattle.fleet_jobs.specs.Specs.{spec_of};
ghost use Rattle.sched_model.specs.Picks.{fresh_after, next_pick, pass, passes, picked_in, with_pick};

use crate::SizeTieredCompactionSchedulerOptions;
use crate::planned_trees::Planned;
use fleet_jobs::CompactionSpec;
use std::alloc::{AllocError, Global};
use std::marker::Model;

/// The id of the next fresh run, and the picks so far. Contracts see the model's picks.
#[derive(Debug, Drop)]
pub struct Picking {
    pub fresh: u32,
    pub picks: Vec<CompactionSpec>,
}

impl Model for Picking {
    ghost use Rattle.std.specs.Prelude.{map};
    ghost use Rattle.fleet_jobs.specs.Specs.{spec_of};
    ghost use Rattle.sched_model.specs.Picks as model;

    ghost Value = { model.Picking };

    ghost view = { λ p. record { fresh = p.fresh; picks = map spec_of p.picks.items } };
}

impl Picking {
    // The number of picks so far.
    fn count(&self) -> usize
        ensures { result ≡ length self.now.picks }
    {
        self.picks.len()
    }

    // The next pick in a tree, if there is one. A pick of flushes takes the fresh id.
    fn take_next(
        &mut self,
        alloc: Global,
        options: &SizeTieredCompactionSchedulerOptions,
        tree: &Planned,
    ) -> Result<Option<CompactionSpec>, AllocError>
        ensures pick { IfOk result (λ pick. option_map spec_of pick
            ≡ next_pick options.now self.old.fresh tree.now) }
        ensures fresh { OnOk result (self.new
            ≡ record self.old { fresh = fresh_after options.now tree.now self.old.fresh }) }
    {
        if let Some(pick) = tree.flush_pick(alloc, options, self.fresh)? {
            self.fresh = self.fresh.saturating_add(1);
            return Ok(Some(pick));
        }
        tree.run_pick(alloc, options)
    }

    // Makes the next pick in a tree, if there is one.
    fn pick_in(
        &mut self,
        alloc: Global,
        options: &SizeTieredCompactionSchedulerOptions,
        tree: &mut Planned,
    ) -> Result<(), AllocError>
        ensures picking { OnOk result (self.new ≡ picked_in options.now tree.old self.old) }
        ensures tree { OnOk result
            (tree.new ≡ with_pick (next_pick options.now self.old.fresh tree.old) tree.old) }
    {
        if let Some(pick) = self.take_next(alloc, options, tree)? {
            tree.add(&pick)?;
            self.picks.push(pick)?;
        }
        Ok(())
    }

    // Makes at most one pick in each tree, while there are fewer picks than slots.
    fn pass(
        &mut self,
        alloc: Global,
        options: &SizeTieredCompactionSchedulerOptions,
        slots: u64,
        trees: &mut [Planned],
    ) -> Result<(), AllocError>
        ensures { OnOk result ((trees.new, self.new) ≡ pass options.now slots trees.old self.old) }
    {
        'trees: for i in 0..trees.len() {
            if self.count() as u64 >= slots {
                return Ok(());
            }
            self.pick_in(alloc, options, &mut trees[i])?;
        }
        Ok(())
    }

    // Makes passes until one picks nothing.
    fn make_passes(
        &mut self,
        alloc: Global,
        options: &SizeTieredCompactionSchedulerOptions,
        slots: u64,
        trees: &mut [Planned],
    ) -> Result<(), AllocError>
        ensures { OnOk result (self.new.picks ≡ passes options.now slots
            (slots - length self.old.picks) trees.old self.old) }
    {
        'passes: loop {
            let before = self.count();
            self.pass(alloc, options, slots, trees)?;
            if self.count() == before {
                return Ok(());
            }
        }
    }
}

/// The picks in these trees, at most as many as there are slots.
pub fn picks_in(
    alloc: Global,
    options: &SizeTieredCompactionSchedulerOptions,
    slots: u64,
    fresh: u32,
    trees: Vec<Planned>,
) -> Result<Vec<CompactionSpec>, AllocError>
    ensures { IfOk result (λ picks. map spec_of picks.items
        ≡ passes options.now slots slots trees.items (record { fresh = fresh; picks = [] })) }
{
    let mut trees = trees;
    let mut picking = Picking {
        fresh,
        picks: Vec::new(alloc),
    };
    picking.make_passes(alloc, options, slots, trees.as_mut_slice())?;
    let Picking { fresh: _, picks } = picking;
    Ok(picks)
}
