//! Jobs that are opened.

ghost use Rattle.std.specs.Prelude.{◌≡◌, [], ◌∷◌, map, IfOk, IsOkUnless, OnOk};
ghost use Rattle.fleet_model.specs.Jobs.{Job};
ghost use Rattle.fleet_model.specs.Work.Polls.{schedule_job};
ghost use Rattle.fleet_tree.specs.Trees.{RunFlushes, trees_of};
ghost use Rattle.fleet_book.specs.States.{own_jobs};
ghost use Rattle.fleet_poll.specs.Polls.{HasSameObjects, changed_record, opened_record, poll_of};

use crate::Poll;
use crate::freeing::know_rising;
use fleet_book::{Compaction, CompactionStatus, CompactorState};
use fleet_gates::source_tables;
use fleet_rows::{JobList, SlateDBError, Ulid};
use fleet_tree::ManifestCore;
use std::alloc::Global;

impl Poll {
    /// Opens a job: it waits for a worker from now on, and records the tables that its sources have
    /// now. `submit_gate` tells whether it may be opened.
    pub fn schedule(&mut self, alloc: Global, job: Ulid) -> Result<(), SlateDBError>
        ensures poll { (flushes : RunFlushes) (made : Job) → made.id ≡ job
            → OnOk result
            (poll_of flushes self.new ≡ schedule_job made (poll_of flushes self.old)) }
        ensures jobs { (flushes : RunFlushes) → OnOk result (own_jobs self.new.state
            ≡ map (changed_record
            (opened_record (trees_of flushes self.old.state.manifest.manifest.core)) (job ∷ []))
            (own_jobs self.old.state)) }
        ensures lost { OnOk result (self.new.lost ≡ self.old.lost) }
        ensures same { OnOk result (HasSameObjects self.old.state self.new.state) }
        ensures memory { IsOkUnless result SlateDBError.Memory }
    {
        open_job(alloc, &mut self.state, job)?;
        self.opened.push(job)
    }
}

// Opens the job, if it is there.
fn open_job(alloc: Global, state: &mut CompactorState, id: Ulid) -> Result<(), SlateDBError>
    ensures jobs { (flushes : RunFlushes) → OnOk result (own_jobs state.new
        ≡ map
        (changed_record (opened_record (trees_of flushes state.old.manifest.manifest.core)) (id ∷ []))
        (own_jobs state.old)) }
    ensures same { OnOk result (HasSameObjects state.old state.new) }
    ensures memory { IsOkUnless result SlateDBError.Memory }
{
    know_rising(state.compactions());
    let Some(job) = state.compactions().compactions().get(&id) else {
        return Ok(());
    };
    let made = opened(alloc, job, state.manifest().core())?;
    state.set_compaction(made);
    Ok(())
}

// A copy of the job that waits for a worker, with the tables that its sources have now.
fn opened(alloc: Global, job: &Compaction, core: &ManifestCore) -> Result<Compaction, SlateDBError>
    ensures job { (flushes : RunFlushes)
        → IfOk result (λ made. made ≡ opened_record (trees_of flushes core.now) job.now) }
    ensures memory { IsOkUnless result SlateDBError.Memory }
{
    let tables = source_tables(alloc, core, job.spec())?;
    let mut made = job.clone()?;
    made.set_status(CompactionStatus::Scheduled);
    made.set_source_tables(JobList::from_vec(tables));
    made.set_ctx(None);
    Ok(made)
}
