//! Jobs that a gate refuses.

ghost use Rattle.std.specs.Prelude.{◌≡◌, ◌++◌, [], ◌∷◌, is_some, map, IsOkUnless, OnErr, OnOk, Some};
ghost use Rattle.fleet_model.specs.Jobs.{Job};
ghost use Rattle.fleet_model.specs.Work.Polls.{commit_by, open_by};
ghost use Rattle.fleet_model.specs.Work.PollStates.{PollInput};
ghost use Rattle.fleet_tree.specs.Trees.{RunFlushes};
ghost use Rattle.fleet_book.specs.Records.{record_with};
ghost use Rattle.fleet_book.specs.States.{own_jobs};
ghost use Rattle.fleet_gates.specs.Rules.{number_of};
ghost use Rattle.fleet_poll.specs.Polls.{HasSameObjects, changed_record, failed_record, poll_of};

use crate::Poll;
use crate::freeing::know_rising;
use fleet_book::{CompactionStatus, CompactorState, VersionedCompactions};
use fleet_gates::Rule;
use fleet_rows::{SlateDBError, Ulid};

impl Poll {
    /// Fails a job that the gate for commits refused by this rule.
    pub fn lose(&mut self, job: Ulid, rule: Rule) -> Result<(), SlateDBError>
        ensures poll { (flushes : RunFlushes) (input : PollInput) (lost : Job) → lost.id ≡ job
            → OnOk result (poll_of flushes self.new
            ≡ commit_by input lost (Some (number_of rule)) (poll_of flushes self.old)) }
        ensures jobs { OnOk result (own_jobs self.new.state
            ≡ map (changed_record failed_record (job ∷ [])) (own_jobs self.old.state)) }
        ensures lost { OnOk result
            (self.new.lost ≡ self.old.lost ++ (job, number_of rule) ∷ []) }
        ensures same { OnOk result (HasSameObjects self.old.state self.new.state) }
        ensures err { OnErr result (self.new ≡ self.old) }
        ensures memory { IsOkUnless result SlateDBError.Memory }
    {
        self.lost.push((job, rule.number()))?;
        fail_job(&mut self.state, job);
        Ok(())
    }

    /// Fails a job that the gate for submitted jobs refused by this rule.
    pub fn refuse(&mut self, job: Ulid, rule: Rule) -> Result<(), SlateDBError>
        ensures poll { (flushes : RunFlushes) (input : PollInput) (refused : Job)
            → refused.id ≡ job
            → OnOk result (poll_of flushes self.new
            ≡ open_by input refused (Some (number_of rule)) (poll_of flushes self.old)) }
        ensures jobs { OnOk result (own_jobs self.new.state
            ≡ map (changed_record failed_record (job ∷ [])) (own_jobs self.old.state)) }
        ensures lost { OnOk result (self.new.lost ≡ self.old.lost) }
        ensures same { OnOk result (HasSameObjects self.old.state self.new.state) }
        ensures err { OnErr result (self.new ≡ self.old) }
        ensures memory { IsOkUnless result SlateDBError.Memory }
    {
        self.refused.push((job, rule.number()))?;
        fail_job(&mut self.state, job);
        Ok(())
    }
}

// Makes the job Failed, if it is there.
fn fail_job(state: &mut CompactorState, id: Ulid)
    ensures jobs { own_jobs state.new
        ≡ map (changed_record failed_record (id ∷ [])) (own_jobs state.old) }
    ensures same { HasSameObjects state.old state.new }
{
    know_rising(state.compactions());
    if has_job(state.compactions(), id) {
        state.update_status(&id, CompactionStatus::Failed);
    }
}

fn has_job(records: &VersionedCompactions, id: Ulid) -> bool
    ensures { result ≡ is_some (record_with id records.now.compactions.jobs) }
{
    records.compactions().get(&id).is_some()
}
