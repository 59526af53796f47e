//! The lines of coordinators.

ghost use Rattle.std.specs.Prelude.{◌≡◌, IfOk, IsOkUnless};
ghost use Rattle.fleet_rows.specs.declared.errors.SlateDBError.TheVariants as SlateDBError;
ghost use Rattle.line_laws.specs.Lines.PollLines.{spell_poll};
ghost use Rattle.script_model.specs.Lines.PollLines.{polls};
ghost use Rattle.script_model.specs.Lines.Starts as lines;
ghost use Rattle.fleet_lines.specs.Fleets.{Stands, state_of};
ghost use Rattle.fleet_lines.specs.Lines.{RunsAlone};
ghost use Rattle.fleet_lines.specs.Steps.{printed_report, report_said};

use crate::Fleet;
use crate::parties::{put_back, put_coordinator, take_coordinator};
use crate::refusals::refused;
use crate::steps::{killed, noted, polled, started};
use fleet_fold::MergeOperator;
use fleet_poll::PollReport;
use fleet_rows::SlateDBError;
use fleet_sched::CompactionScheduler;
use fleet_store::Party;
use fleet_text::{Reply, answers, listings};
use std::alloc::Global;

// The report of a poll as replies print it.
fn printed(report: PollReport) -> fleet_text::PollReport
    ensures { result ≡ printed_report report }
{
    fleet_text::PollReport {
        freed: report.freed,
        done: report.committed,
        lost: report.lost,
        added: report.added,
        dropped: report.dropped,
        opened: report.opened,
        moved: report.moved,
        drained: report.drained,
        refused: report.refused,
    }
}

// The reply to a poll with this report.
fn report_reply(
    alloc: Global,
    commits_only: bool,
    report: PollReport,
) -> Result<Reply, SlateDBError>
    ensures reply { IfOk result (λ answer. answer ≡ report_said commits_only report) }
    ensures memory { IsOkUnless result SlateDBError.Memory }
{
    if commits_only {
        listings::committed(alloc, &report.committed, &report.lost)
    } else {
        listings::polled(alloc, &printed(report))
    }
}

impl Fleet {
    /// Starts a coordinator. A live one with its number is killed first.
    pub(crate) fn start_coordinator<O: MergeOperator>(
        &mut self,
        operator: &O,
        number: u64,
        coordinator: u64,
    ) -> Result<Reply, SlateDBError>
        requires { Stands (O.merged (O.settings operator.now)) self.old }
        ensures ran { IfOk result (RunsAlone (O.merged (O.settings operator.now)) number
            (state_of self.old) (lines.start_coordinator coordinator (state_of self.old))
            self.old self.new) }
        ensures memory { IsOkUnless result SlateDBError.Memory }
    {
        let was_live = take_coordinator(&mut self.coordinators, coordinator).is_some();
        let party = Party::Coordinator(coordinator);
        killed(&mut self.store, operator, number, party, was_live)?;
        match started(self.alloc, &mut self.store, operator, number, coordinator) {
            Ok(started) => {
                noted(&mut self.store, operator, number, party, true)?;
                let epoch = started.epoch();
                put_coordinator(&mut self.coordinators, started)?;
                answers::started(self.alloc, epoch)
            }
            Err(error) => refused(self.alloc, error),
        }
    }

    /// Kills or stops a coordinator.
    pub(crate) fn end_coordinator<O: MergeOperator>(
        &mut self,
        operator: &O,
        number: u64,
        coordinator: u64,
    ) -> Result<Reply, SlateDBError>
        requires { Stands (O.merged (O.settings operator.now)) self.old }
        ensures ran { IfOk result (RunsAlone (O.merged (O.settings operator.now)) number
            (state_of self.old) (lines.end_coordinator coordinator (state_of self.old))
            self.old self.new) }
        ensures memory { IsOkUnless result SlateDBError.Memory }
    {
        if take_coordinator(&mut self.coordinators, coordinator).is_none() {
            return answers::no_such_party(self.alloc);
        }
        let party = Party::Coordinator(coordinator);
        noted(&mut self.store, operator, number, party, false)?;
        answers::done(self.alloc)
    }

    /// A coordinator polls, or only commits. It stays live only if the poll reports.
    pub(crate) fn poll<O: MergeOperator>(
        &mut self,
        operator: &O,
        scheduler: &(dyn CompactionScheduler + Send + Sync),
        number: u64,
        coordinator: u64,
        commits_only: bool,
    ) -> Result<Reply, SlateDBError>
        requires { Stands (O.merged (O.settings operator.now)) self.old }
        ensures ran { IfOk result (RunsAlone (O.merged (O.settings operator.now)) number
            (state_of self.old) (polls commits_only (spell_poll commits_only) (record {
              merge = O.merged (O.settings operator.now);
              scheduler = answers scheduler.now;
            }) coordinator (state_of self.old)) self.old self.new) }
        ensures memory { IsOkUnless result SlateDBError.Memory }
    {
        let Some((place, live)) = take_coordinator(&mut self.coordinators, coordinator) else {
            return answers::no_such_party(self.alloc);
        };
        let polled = polled(
            &mut self.store,
            operator,
            number,
            live,
            scheduler,
            &self.options.compactor,
            self.moment,
            commits_only,
        );
        match polled {
            Ok((live, report)) => {
                put_back(&mut self.coordinators, place, live)?;
                report_reply(self.alloc, commits_only, report)
            }
            Err(error) => refused(self.alloc, error),
        }
    }
}
