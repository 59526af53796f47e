//! Runs generated scripts.

ghost use Rattle.std.specs.Prelude.{◌≡◌, ◌+◌, ◌*◌, ◌≤◌, ◌⊎◌, Err, IfErr, IfOk, OnOk, string_bytes};
ghost use Rattle.fleet_lines.specs.Fleets.{IsFresh, options_of, state_of};
ghost use Rattle.fleet_settle.specs.Steps.{inputs_of};
ghost use Rattle.fleet_run.specs.SourceAndSink.{Rose, TookNothing};
ghost use Rattle.fleet_run.specs.Program.{WritesSummary, WritesSummaryShort, summary};
ghost use Rattle.fleet_run.specs.Generating.{RunsCounted};
ghost use Rattle.fleet_run.specs.declared.script.FleetError.TheVariants.{Memory, WriteFault};

use crate::script::{FleetError, run_script, write_all};
use crate::slice_streams::SafeSink;
use crate::source_and_sink::Sink;
use fleet_fold::MergeOperator;
use fleet_generate::make_script;
use fleet_lines::Fleet;
use fleet_sched::CompactionScheduler;
use std::alloc::{AllocError, Global};
use std::thread::Threads;

/// How many bytes a generated script and its replies have.
#[derive(Clone, Copy, Debug)]
struct Sizes {
    script: u64,
    replies: u64,
}

// Runs the script that the number and the rounds make. Its replies are counted alone.
fn run_counted<R: Threads + Sync, O: MergeOperator + Sync>(
    rt: &R,
    alloc: Global,
    number: u64,
    rounds: u64,
    operator: &O,
    scheduler: Box<dyn CompactionScheduler + Send + Sync>,
    fleet: &mut Fleet,
) -> Result<Sizes, FleetError>
    requires fresh { IsFresh fleet.old }
    requires few { rounds ≤ 2000 }
    ensures ran { IfOk result (RunsCounted
        (inputs_of (O.merged (O.settings operator.now)) (answers scheduler))
        (options_of fleet.old.options) number rounds (state_of fleet.new)) }
    ensures only { IfErr result (λ e. e ≡ Memory) }
{
    let Ok(text) = make_script(alloc, number, rounds) else {
        return Err(FleetError::Memory);
    };
    let mut counted = SafeSink::new();
    match run_script(
        rt,
        alloc,
        text.as_slice(),
        operator,
        scheduler,
        fleet,
        &mut counted,
    ) {
        Ok(()) => Ok(Sizes {
            script: text.len() as u64,
            replies: counted.taken(),
        }),
        Err(FleetError::Memory) => Err(FleetError::Memory),
        // The script is in the grammar, and the sink never fails.
        Err(FleetError::BadLine(_)) => unreachable!(),
        Err(FleetError::WriteFault) => unreachable!(),
        Err(FleetError::TooLong | FleetError::ReadFault | FleetError::Usage) => unreachable!(),
    }
}

// The summary of a run of so many rounds.
fn summary(alloc: Global, rounds: u64, sizes: Sizes) -> Result<String, AllocError>
    requires few { rounds ≤ 2000 }
    ensures { IfOk result (λ text. string_bytes text
        ≡ summary rounds (9 * rounds + 2) sizes.script sizes.replies) }
{
    let mut text = String::from_str(alloc, "rounds ")?;
    text.write(rounds)?;
    text.push_str(" lines ")?;
    text.write(9 * rounds + 2)?;
    text.push_str(" script ")?;
    text.write(sizes.script)?;
    text.push_str(" replies ")?;
    text.write(sizes.replies)?;
    text.push_str("\n")?;
    Ok(text)
}

/// Runs the script that the number and the rounds make, and writes the summary of the run.
pub(crate) fn run_generated<R: Threads + Sync, K: Sink, O: MergeOperator + Sync>(
    rt: &R,
    alloc: Global,
    number: u64,
    rounds: u64,
    operator: &O,
    scheduler: Box<dyn CompactionScheduler + Send + Sync>,
    fleet: &mut Fleet,
    sink: &mut K,
) -> Result<(), FleetError>
    requires fresh { IsFresh fleet.old }
    requires few { rounds ≤ 2000 }
    ensures wrote { OnOk result (WritesSummary
        (inputs_of (O.merged (O.settings operator.now)) (answers scheduler))
        (options_of fleet.old.options) number rounds (state_of fleet.new)
        (K.view sink.old) (K.view sink.new)) }
    ensures rose { result
        ≡ Err WriteFault → Rose (K.view sink.old).faults (K.view sink.new).faults }
    ensures short { result ≡ Err WriteFault → WritesSummaryShort
        (inputs_of (O.merged (O.settings operator.now)) (answers scheduler))
        (options_of fleet.old.options) number rounds (state_of fleet.new)
        (K.view sink.old) (K.view sink.new) }
    ensures memory { result ≡ Err Memory → TookNothing (K.view sink.old) (K.view sink.new) }
    ensures only { IfErr result (λ e. (e ≡ WriteFault) ⊎ (e ≡ Memory)) }
    ensures never_fall { (K.view sink.old).faults ≤ (K.view sink.new).faults }
{
    let sizes = run_counted(rt, alloc, number, rounds, operator, scheduler, fleet)?;
    let Ok(line) = summary(alloc, rounds, sizes) else {
        return Err(FleetError::Memory);
    };
    write_all(sink, line.as_bytes())
}
