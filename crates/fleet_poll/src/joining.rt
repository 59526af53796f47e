//! Jobs whose tables take the place of their sources.

ghost use Rattle.std.specs.Prelude.{◌≡◌, ◌++◌, [], ◌∷◌, IfOk, IfSome, IsOkUnless, IsSome, None, OnOk, Some, true};
ghost use Rattle.std.specs.Option.{ForSome};
ghost use Rattle.std.specs.Ordering.{is_le};
ghost use Rattle.row_model.specs.Rows.{key_cmp};
ghost use Rattle.fleet_model.specs.Jobs.{Compacted, has_status};
ghost use Rattle.fleet_model.specs.Work.Polls.{commit_by};
ghost use Rattle.fleet_model.specs.Work.PollStates.{PollInput};
ghost use Rattle.fleet_tree.specs.Trees.{RunFlushes};
ghost use Rattle.fleet_jobs.specs.Jobs.{job_of};
ghost use Rattle.fleet_jobs.specs.Places.{sources_stand};
ghost use Rattle.fleet_jobs.specs.Specs.{destination_of};
ghost use Rattle.fleet_book.specs.Finishes.{finished_state};
ghost use Rattle.fleet_book.specs.Records.{record_with};
ghost use Rattle.fleet_book.specs.States.{own_jobs};
ghost use Rattle.fleet_poll.specs.Made.{EndsRise, PrefixesRise, flushes_after, joined_run, own_core, own_views, written_tables};
ghost use Rattle.fleet_poll.specs.Polls.{poll_of};

use crate::Poll;
use crate::freeing::know_rising;
use fleet_book::{Compaction, CompactorState};
use fleet_history::Step;
use fleet_rows::{SlateDBError, Ulid};
use fleet_tree::{SortedRun, SsTableHandle, SsTableView, ViewList};
use std::alloc::Global;

impl Poll {
    /// Commits a Compacted job: a run of the tables that its worker wrote takes the place of its
    /// sources. `commit_gate` tells whether it may be committed. No table of it has a first key
    /// above its last key, and its sources stand in its tree.
    pub fn join(&mut self, alloc: Global, job: Ulid) -> Result<(), SlateDBError>
        requires there { IsSome (record_with job (own_jobs self.old.state)) }
        requires compacted { ForSome (record_with job (own_jobs self.old.state))
            (λ joined. has_status Compacted (job_of joined) ≡ true) }
        requires run { ForSome (record_with job (own_jobs self.old.state))
            (λ joined. IsSome (destination_of joined.spec)) }
        requires keys { ForSome (record_with job (own_jobs self.old.state))
            (λ joined. EndsRise (written_tables joined)) }
        requires stand { ForSome (record_with job (own_jobs self.old.state))
            (λ joined. sources_stand joined.spec (own_core self.old.state) ≡ true) }
        ensures poll { (flushes : RunFlushes) (input : PollInput)
            → PrefixesRise (own_core self.old.state)
            → input.manifest.floor ≡ (own_core self.old.state).recent_snapshot_min_seq
            → OnOk result (IfSome (record_with job (own_jobs self.old.state)) (λ joined.
            poll_of (flushes_after joined.spec (own_core self.old.state) flushes) self.new
            ≡ commit_by input (job_of joined) None (poll_of flushes self.old))) }
        ensures state { OnOk result (IfSome (record_with job (own_jobs self.old.state)) (λ joined.
            self.new.state ≡ finished_state joined (joined_run joined) self.old.state)) }
        ensures lost { OnOk result (self.new.lost ≡ self.old.lost) }
        ensures memory { IsOkUnless result SlateDBError.Memory }
    {
        know_rising(self.state.compactions());
        let run = run_of_job(alloc, &self.state, job)?;
        self.state.finish_compaction(alloc, job, run)?;
        self.steps.push(Step::Join(job))?;
        self.committed.push(job)
    }
}

// The run that a join of the job makes.
fn run_of_job(alloc: Global, state: &CompactorState, id: Ulid) -> Result<SortedRun, SlateDBError>
    requires there { IsSome (record_with id (own_jobs state.now)) }
    requires run { ForSome (record_with id (own_jobs state.now))
        (λ job. IsSome (destination_of job.spec)) }
    requires keys { ForSome (record_with id (own_jobs state.now))
        (λ job. EndsRise (written_tables job)) }
    ensures run { IfOk result (λ run. IfSome (record_with id (own_jobs state.now))
        (λ job. Some run ≡ joined_run job)) }
    ensures memory { IsOkUnless result SlateDBError.Memory }
{
    let Some(job) = state.compactions().compactions().get(&id) else {
        unreachable!()
    };
    joined_run(alloc, job)
}

fn joined_run(alloc: Global, job: &Compaction) -> Result<SortedRun, SlateDBError>
    requires run { IsSome (destination_of job.now.spec) }
    requires keys { EndsRise (written_tables job.now) }
    ensures run { IfOk result (λ run. Some run ≡ joined_run job.now) }
    ensures memory { IsOkUnless result SlateDBError.Memory }
{
    let Some(destination) = job.spec().destination() else {
        unreachable!()
    };
    let tables = job.output_ssts(alloc)?;
    let views = own_views(alloc, tables.as_slice())?;
    Ok(SortedRun::new(destination, ViewList::from_vec(alloc, views)?))
}

// Views of these tables, each under its table's own id.
fn own_views(alloc: Global, tables: &[SsTableHandle]) -> Result<Vec<SsTableView>, SlateDBError>
    requires { EndsRise tables.now }
    ensures views { IfOk result (λ views. views.items ≡ own_views tables.now) }
    ensures memory { IsOkUnless result SlateDBError.Memory }
{
    let mut views = Vec::new(alloc);
    'tables: for table in tables {
        add_view(&mut views, table)?;
    }
    Ok(views)
}

// Adds a view of the table under the table's own id.
fn add_view(views: &mut Vec<SsTableView>, table: &SsTableHandle) -> Result<(), SlateDBError>
    requires { is_le (key_cmp table.now.first_key table.now.last_key) ≡ true }
    ensures ok { OnOk result (views.new.items ≡ views.old.items ++ own_views (table.now ∷ [])) }
    ensures memory { IsOkUnless result SlateDBError.Memory }
{
    views.push(SsTableView::identity(table.clone()?)?)?;
    Ok(())
}
