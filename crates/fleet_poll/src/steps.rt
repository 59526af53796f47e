//! The steps of a poll, before ids are drawn for proposals and after it.

ghost use Rattle.std.specs.Prelude.{◌≡◌, [], IsOkUnless, OnOk};
ghost use Rattle.fleet_model.specs.Work.PollStates.{PollInput};
ghost use Rattle.fleet_model.specs.Work.Polls.{commit_finished};
ghost use Rattle.fleet_tree.specs.Trees.{RunFlushes};
ghost use Rattle.fleet_history.specs.Changes.{new_specs};
ghost use Rattle.fleet_book.specs.States.{own_jobs};
ghost use Rattle.fleet_poll.specs.Loops.{HasReached, LostAreOver, StillSees};
ghost use Rattle.fleet_poll.specs.Polls.{AreNew, poll_of};
ghost use Rattle.fleet_poll.specs.Seen.{Sees};
ghost use Rattle.fleet_poll.specs.Steps.{MayBegin, SeesStale, freed_unless, opened_unless};

use crate::Poll;
use fleet_book::CompactionSpec;
use fleet_rows::{SlateDBError, Ulid};
use fleet_sched::{CompactionScheduler, CompactorOptions};
use std::alloc::Global;

impl Poll {
    /// The steps of a poll before ids are drawn: it frees stale jobs, and commits Compacted ones. A
    /// poll that only commits frees none.
    pub fn first_steps(
        &mut self,
        alloc: Global,
        scheduler: &(dyn CompactionScheduler + Send + Sync),
        options: &CompactorOptions,
        moment: u64,
        commits_only: bool,
    ) -> Result<(), SlateDBError>
        requires { MayBegin (answers scheduler.now) options.now moment commits_only self.old }
        ensures poll { (flushes : RunFlushes) (input : PollInput)
            → Sees input (answers scheduler.now) self.old.state
            → SeesStale input options.now moment → OnOk result (HasReached self.new
            (commit_finished input (freed_unless commits_only input (poll_of flushes self.old)))) }
        ensures sees { (input : PollInput) → Sees input (answers scheduler.now) self.old.state
            → OnOk result (Sees input (answers scheduler.now) self.new.state) }
        ensures lost { self.old.lost ≡ [] → OnOk result (LostAreOver self.new) }
        ensures memory { IsOkUnless result SlateDBError.Memory }
    {
        self.free_unless(alloc, options, moment, commits_only)?;
        self.commit_finished(alloc, scheduler)
    }

    // Frees the stale jobs, unless the poll only commits.
    fn free_unless(
        &mut self,
        alloc: Global,
        options: &CompactorOptions,
        moment: u64,
        commits_only: bool,
    ) -> Result<(), SlateDBError>
        ensures poll { (flushes : RunFlushes) (input : PollInput)
            → SeesStale input options.now moment → OnOk result (poll_of flushes self.new
            ≡ freed_unless commits_only input (poll_of flushes self.old)) }
        ensures sees { OnOk result (StillSees self.old.state self.new.state) }
        ensures lost { OnOk result (self.new.lost ≡ self.old.lost) }
        ensures memory { IsOkUnless result SlateDBError.Memory }
    {
        if commits_only {
            return Ok(());
        }
        self.free_stale(alloc, options, moment)
    }

    /// The steps of a poll after ids are drawn: it adds the proposals, and opens, moves or drains
    /// submitted jobs. A poll that only commits does neither.
    pub fn last_steps(
        &mut self,
        alloc: Global,
        scheduler: &(dyn CompactionScheduler + Send + Sync),
        options: &CompactorOptions,
        drawn: &[(Ulid, CompactionSpec)],
        commits_only: bool,
    ) -> Result<(), SlateDBError>
        requires drawn { AreNew drawn.now (own_jobs self.old.state) }
        requires lost { LostAreOver self.old }
        ensures poll { (flushes : RunFlushes) (input : PollInput)
            → Sees input (answers scheduler.now) self.old.state
            → input.options.moves ≡ options.now.enable_trivial_move
            → OnOk result (HasReached self.new
            (opened_unless commits_only input (new_specs drawn.now) (poll_of flushes self.old))) }
        ensures sees { (input : PollInput) → Sees input (answers scheduler.now) self.old.state
            → input.options.moves ≡ options.now.enable_trivial_move
            → OnOk result (Sees input (answers scheduler.now) self.new.state) }
        ensures memory { IsOkUnless result SlateDBError.Memory }
    {
        let opens = !commits_only;
        if opens {
            self.add_drawn(alloc, drawn)?;
            self.open_all_submitted(alloc, scheduler, options)?;
        }
        Ok(())
    }
}
