//! Jobs whose sources are drained.

ghost use Rattle.std.specs.Prelude.{◌≡◌, IfSome, IsOkUnless, IsSome, None, OnOk, true};
ghost use Rattle.std.specs.Option.{ForSome};
ghost use Rattle.fleet_model.specs.Work.Polls.{drain_job};
ghost use Rattle.fleet_model.specs.Work.PollStates.{PollInput};
ghost use Rattle.fleet_tree.specs.Trees.{RunFlushes};
ghost use Rattle.fleet_jobs.specs.Jobs.{job_of};
ghost use Rattle.fleet_jobs.specs.Places.{sources_stand};
ghost use Rattle.fleet_jobs.specs.Specs.{destination_of};
ghost use Rattle.fleet_book.specs.Finishes.{finished_state};
ghost use Rattle.fleet_book.specs.Records.{record_with};
ghost use Rattle.fleet_book.specs.States.{own_jobs};
ghost use Rattle.fleet_poll.specs.Polls.{poll_of};

use crate::Poll;
use crate::freeing::know_rising;
use fleet_history::Step;
use fleet_rows::{SlateDBError, Ulid};
use std::alloc::Global;

impl Poll {
    /// Drops the sources of a drain from the tree of its segment, which completes the job at once.
    /// The sources of a job that passes `submit_gate` stand.
    pub fn drain(&mut self, alloc: Global, job: Ulid) -> Result<(), SlateDBError>
        requires there { IsSome (record_with job (own_jobs self.old.state)) }
        requires drain { ForSome (record_with job (own_jobs self.old.state))
            (λ drained. destination_of drained.spec ≡ None) }
        requires stand { ForSome (record_with job (own_jobs self.old.state))
            (λ drained. sources_stand drained.spec self.old.state.manifest.manifest.core ≡ true) }
        ensures poll { (flushes : RunFlushes) (input : PollInput) → OnOk result
            (IfSome (record_with job (own_jobs self.old.state)) (λ drained. poll_of flushes self.new
            ≡ drain_job input (job_of drained) (poll_of flushes self.old))) }
        ensures state { OnOk result (IfSome (record_with job (own_jobs self.old.state))
            (λ drained. self.new.state ≡ finished_state drained None self.old.state)) }
        ensures lost { OnOk result (self.new.lost ≡ self.old.lost) }
        ensures memory { IsOkUnless result SlateDBError.Memory }
    {
        know_rising(self.state.compactions());
        self.state.finish_drain_compaction(alloc, job)?;
        self.steps.push(Step::Drain(job))?;
        self.drained.push(job)
    }
}
