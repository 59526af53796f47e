//! The lines that start a worker or kill it.

ghost use Rattle.std.specs.Prelude.{◌≡◌, IfOk, IsOkUnless};
ghost use Rattle.fleet_rows.specs.declared.errors.SlateDBError.TheVariants as SlateDBError;
ghost use Rattle.fleet_jobs.specs.Workers.{release_of};
ghost use Rattle.script_model.specs.Lines.Starts as lines;
ghost use Rattle.fleet_lines.specs.Fleets.{Stands, state_of};
ghost use Rattle.fleet_lines.specs.Lines.{RunsAlone};

use crate::Fleet;
use crate::parties::{keep_worker, take_worker};
use crate::steps::{killed, noted};
use fleet_fold::MergeOperator;
use fleet_jobs::Release;
use fleet_rows::SlateDBError;
use fleet_store::Party;
use fleet_text::{Reply, answers};
use fleet_worker::Worker;

// The release of a worker that a line starts.
fn release_named(release: Option<u64>) -> Release
    ensures { release_of result ≡ lines.release_named release }
{
    match release {
        Some(1) => Release::One,
        _ => Release::Two,
    }
}

impl Fleet {
    /// Starts a worker that runs nothing. A live one with its number is killed first.
    pub(crate) fn start_worker<O: MergeOperator>(
        &mut self,
        operator: &O,
        number: u64,
        worker: u64,
        release: Option<u64>,
    ) -> Result<Reply, SlateDBError>
        requires { Stands (O.merged (O.settings operator.now)) self.old }
        ensures ran { IfOk result (RunsAlone (O.merged (O.settings operator.now)) number
            (state_of self.old) (lines.start_worker worker release (state_of self.old))
            self.old self.new) }
        ensures memory { IsOkUnless result SlateDBError.Memory }
    {
        let was_live = take_worker(&mut self.workers, worker).is_some();
        let party = Party::Worker(worker);
        killed(&mut self.store, operator, number, party, was_live)?;
        noted(&mut self.store, operator, number, party, true)?;
        let started = Worker::start(self.alloc, worker, release_named(release));
        keep_worker(&mut self.workers, started)?;
        answers::done(self.alloc)
    }

    /// Kills a worker.
    pub(crate) fn kill_worker<O: MergeOperator>(
        &mut self,
        operator: &O,
        number: u64,
        worker: u64,
    ) -> Result<Reply, SlateDBError>
        requires { Stands (O.merged (O.settings operator.now)) self.old }
        ensures ran { IfOk result (RunsAlone (O.merged (O.settings operator.now)) number
            (state_of self.old) (lines.kill_worker worker (state_of self.old))
            self.old self.new) }
        ensures memory { IsOkUnless result SlateDBError.Memory }
    {
        if take_worker(&mut self.workers, worker).is_none() {
            return answers::no_such_party(self.alloc);
        }
        let party = Party::Worker(worker);
        noted(&mut self.store, operator, number, party, false)?;
        answers::done(self.alloc)
    }
}
