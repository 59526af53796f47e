//! The line that flushes rows.

ghost use Rattle.std.specs.Prelude.{◌≡◌, ⊤, IfOk, IsOkUnless};
ghost use Rattle.course_laws.specs.Flushes.{MayAsk};
ghost use Rattle.fleet_rows.specs.declared.errors.SlateDBError.TheVariants as SlateDBError;
ghost use Rattle.fleet_coordinator.specs.Flushes as coordinator;
ghost use Rattle.fleet_text.specs.Faults as text;
ghost use Rattle.script_model.specs.Lines.Flushes.{flush_line};
ghost use Rattle.script_model.specs.Replies.{ok};
ghost use Rattle.fleet_rows.specs.Row.{rows_of};
ghost use Rattle.fleet_lines.specs.Fleets.{IsServing, state_of};
ghost use Rattle.fleet_lines.specs.Lines.{RunsAlone};
ghost use Rattle.fleet_lines.specs.Steps.{Says};

use crate::Fleet;
use crate::refusals::refused;
use crate::steps::flushed;
use fleet_coordinator::{FlushAsk, FlushFault};
use fleet_fold::MergeOperator;
use fleet_rows::SlateDBError;
use fleet_text::{Reply, answers};
use std::alloc::Global;

// The rule that a flush breaks, as replies print it.
fn fault_of(fault: FlushFault) -> fleet_text::FlushFault
    ensures { text.fault_of result ≡ coordinator.fault_of fault }
{
    match fault {
        FlushFault::Name => fleet_text::FlushFault::Name,
        FlushFault::Segment => fleet_text::FlushFault::Segment,
        FlushFault::Order => fleet_text::FlushFault::Order,
        FlushFault::Sequence => fleet_text::FlushFault::Sequence,
        FlushFault::Floor => fleet_text::FlushFault::Floor,
        FlushFault::Tick => fleet_text::FlushFault::Tick,
    }
}

// The reply to a flush.
fn flush_reply(
    alloc: Global,
    flushed: Result<Option<FlushFault>, SlateDBError>,
) -> Result<Reply, SlateDBError>
    ensures says { IfOk result (Says coordinator.ends (λ done. ok) flushed) }
    ensures memory { IsOkUnless result SlateDBError.Memory }
{
    match flushed {
        Ok(None) => answers::done(alloc),
        Ok(Some(fault)) => answers::bad_flush(alloc, fault_of(fault)),
        Err(error) => refused(alloc, error),
    }
}

impl Fleet {
    /// Flushes rows into the tree of a segment.
    pub(crate) fn flush<O: MergeOperator>(
        &mut self,
        operator: &O,
        number: u64,
        ask: FlushAsk,
    ) -> Result<Reply, SlateDBError>
        requires serving { IsServing (O.merged (O.settings operator.now)) self.old }
        requires may { MayAsk (coordinator.ask_of ask) }
        ensures ran { IfOk result (RunsAlone (O.merged (O.settings operator.now)) number
            (state_of self.old) (flush_line ask.name ask.segment ask.floor ask.tick
            (rows_of ask.rows) (state_of self.old)) self.old self.new) }
        ensures memory { IsOkUnless result SlateDBError.Memory }
    {
        let fault = flushed(
            self.alloc,
            &mut self.store,
            operator,
            number,
            self.moment,
            self.options.worker.retention_ms,
            self.last_name,
            ask,
        );
        flush_reply(self.alloc, fault)
    }
}
