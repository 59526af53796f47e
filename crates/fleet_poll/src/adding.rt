//! Step 3 of a poll: the scheduler's proposals become jobs.

ghost use Rattle.std.specs.Prelude.{◌≡◌, ◌==◌, ℕ, None, Some, false, IsOkUnless, OnOk};
ghost use Rattle.std.specs.List.{list_any};
ghost use Rattle.fleet_model.specs.Work.Polls.{add_by, add_drawn, clashes};
ghost use Rattle.fleet_tree.specs.Trees.{RunFlushes};
ghost use Rattle.fleet_jobs.specs.Parts.JobParts.{JobParts};
ghost use Rattle.fleet_jobs.specs.Jobs.{jobs_of};
ghost use Rattle.fleet_jobs.specs.Specs.{spec_of};
ghost use Rattle.fleet_history.specs.Changes.{new_specs};
ghost use Rattle.fleet_book.specs.Records.{record_with};
ghost use Rattle.fleet_book.specs.States.{own_jobs};
ghost use Rattle.fleet_poll.specs.Loops.{LostAreOver, StillSees};
ghost use Rattle.fleet_poll.specs.Polls.{AreNew, HasSameObjects, poll_of};

use crate::Poll;
use fleet_book::{Compaction, CompactionSpec};
use fleet_rows::{SlateDBError, Ulid};
use std::alloc::Global;

impl Poll {
    /// Adds the scheduler's proposals as jobs, each under the id that was drawn for it. A proposal
    /// is dropped if a job that is not over makes the same run, or if both are drains of one
    /// segment.
    pub fn add_drawn(
        &mut self,
        alloc: Global,
        drawn: &[(Ulid, CompactionSpec)],
    ) -> Result<(), SlateDBError>
        requires { AreNew drawn.now (own_jobs self.old.state) }
        ensures poll { (flushes : RunFlushes) → OnOk result (poll_of flushes self.new
            ≡ add_drawn 1 (new_specs drawn.now) (poll_of flushes self.old)) }
        // The jobs that were there stay as they are.
        ensures kept { OnOk result ((id : ℕ) (job : JobParts)
            → record_with id (own_jobs self.old.state) ≡ Some job
            → record_with id (own_jobs self.new.state) ≡ Some job) }
        ensures same { OnOk result (HasSameObjects self.old.state self.new.state) }
        ensures sees { OnOk result (StillSees self.old.state self.new.state) }
        ensures lost { OnOk result (LostAreOver self.old → LostAreOver self.new) }
        ensures memory { IsOkUnless result SlateDBError.Memory }
    {
        'drawn: for place in 0..drawn.len() {
            let (id, spec) = &drawn[place];
            self.add_proposal(alloc, place as u64 + 1, *id, spec)?;
        }
        Ok(())
    }

    // Adds the proposal at this place as a job with this id, or drops it.
    fn add_proposal(
        &mut self,
        alloc: Global,
        place: u64,
        id: Ulid,
        spec: &CompactionSpec,
    ) -> Result<(), SlateDBError>
        requires { record_with id (own_jobs self.old.state) ≡ None }
        ensures poll { (flushes : RunFlushes) → OnOk result (poll_of flushes self.new
            ≡ add_by id place (spec_of spec.now)
            (list_any (clashes (spec_of spec.now)) (jobs_of (own_jobs self.old.state)))
            (poll_of flushes self.old)) }
        // Jobs with other ids stay as they are.
        ensures others { OnOk result ((other : ℕ) → (id == other) ≡ false
            → record_with other (own_jobs self.new.state)
            ≡ record_with other (own_jobs self.old.state)) }
        ensures same { OnOk result (HasSameObjects self.old.state self.new.state) }
        ensures sees { OnOk result (StillSees self.old.state self.new.state) }
        ensures lost { OnOk result (self.new.lost ≡ self.old.lost) }
        ensures memory { IsOkUnless result SlateDBError.Memory }
    {
        match self
            .state
            .add_compaction(Compaction::new(alloc, id, spec.clone()?))
        {
            Ok(()) => self.added.push((id, spec.clone()?)),
            Err(SlateDBError::InvalidCompaction) => self.dropped.push(place),
            Err(error) => Err(error),
        }
    }
}
