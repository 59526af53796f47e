//! Runs a whole script.

ghost use Rattle.std.specs.Prelude.{◌≡◌, ℕ, ◌≤◌, [], List, Err, OnOk, OnErr, IfErr, ◌⊎◌, true};
ghost use Rattle.script_model.specs.Script.{AreLines, IsInBounds, IsScript, IsBadAt};
ghost use Rattle.script_model.specs.Script as model;
ghost use Rattle.script_model.specs.Grammars.{is_served, served_grammar};
ghost use Rattle.fleet_text.specs.Lines.{line_of, lines_of};
ghost use Rattle.fleet_lines.specs.Fleets.{IsFresh, IsServing, options_of, state_of};
ghost use Rattle.fleet_settle.specs.Steps.{inputs_of};
ghost use Rattle.fleet_run.specs.SourceAndSink.{Rose, Took, TookShort, TookNothing};
ghost use Rattle.fleet_run.specs.Served.{Served, ServedUpToFault, ServedFront, Ran, RanLine, RanLineShort, RunsUpToFault, RunsFront};
ghost use Rattle.fleet_run.specs.Errors.{IsScriptError, as_fleet_error};
ghost use Rattle.fleet_run.specs.declared.script.FleetError.TheVariants.{BadLine, WriteFault, Memory};

use crate::source_and_sink::Sink;
use fleet_fold::MergeOperator;
use fleet_lines::Fleet;
use fleet_sched::CompactionScheduler;
use fleet_settle::serve_line;
use fleet_text::{Line, LineList, TextError, read_script};
use std::alloc::Global;
use std::collections::VecDeque;
use std::thread::Threads;
use thiserror::Error;

/// Why a script was not run to its end, or why the program did not run one.
#[derive(Clone, Copy, Debug, PartialEq, Eq, Error)]
pub enum FleetError {
    /// The number of the first line outside the grammar, counted from 1.
    #[error("line {0} is outside the grammar")]
    BadLine(u64),
    #[error("a reply could not be written")]
    WriteFault,
    #[error("out of memory")]
    Memory,
    #[error("the script is too long")]
    TooLong,
    #[error("the script could not be read")]
    ReadFault,
    #[error("unknown words")]
    Usage,
}

impl From<TextError> for FleetError {
    ghost from_gives = { λ t e. e ≡ as_fleet_error t };

    fn from(error: TextError) -> FleetError {
        match error {
            TextError::BadLine(line) => FleetError::BadLine(line),
            TextError::Memory => FleetError::Memory,
        }
    }
}

// Writes a piece to the sink. If the sink takes only a front, the rest is written again.
pub(crate) fn write_all<K: Sink>(sink: &mut K, piece: &[u8]) -> Result<(), FleetError>
    ensures ok { OnOk result (Took piece.now (K.view sink.old) (K.view sink.new)) }
    ensures rose { OnErr result (Rose (K.view sink.old).faults (K.view sink.new).faults) }
    ensures short { OnErr result (TookShort piece.now (K.view sink.old) (K.view sink.new)) }
    ensures only { IfErr result (λ e. e ≡ WriteFault) }
    ensures never_fall { (K.view sink.old).faults ≤ (K.view sink.new).faults }
{
    let mut rest = piece;
    'pieces: while !rest.is_empty() {
        match sink.write(rest) {
            Ok(n) if n > 0 => rest = &rest[n..],
            _ => return Err(FleetError::WriteFault),
        }
    }
    Ok(())
}

// Runs one line and writes its reply.
fn run_line<R: Threads + Sync, O: MergeOperator, K: Sink>(
    rt: &R,
    operator: &O,
    scheduler: &(dyn CompactionScheduler + Send + Sync),
    number: u64,
    line: Line,
    fleet: &mut Fleet,
    sink: &mut K,
) -> Result<(), FleetError>
    requires serving { IsServing (O.merged (O.settings operator.now)) fleet.old }
    requires bounds { IsInBounds (line_of line) }
    requires served { is_served (line_of line) ≡ true }
    ensures ran { OnOk result (RanLine
        (inputs_of (O.merged (O.settings operator.now)) (answers scheduler.now))
        number (line_of line) (state_of fleet.old) (state_of fleet.new)
        (K.view sink.old) (K.view sink.new)) }
    ensures serving { OnOk result (IsServing (O.merged (O.settings operator.now)) fleet.new) }
    ensures rose { result
        ≡ Err WriteFault → Rose (K.view sink.old).faults (K.view sink.new).faults }
    ensures fault { result ≡ Err WriteFault → RanLineShort
        (inputs_of (O.merged (O.settings operator.now)) (answers scheduler.now))
        number (line_of line) (state_of fleet.old) (state_of fleet.new)
        (K.view sink.old) (K.view sink.new) }
    ensures memory { result ≡ Err Memory → TookNothing (K.view sink.old) (K.view sink.new) }
    ensures only { IfErr result (λ e. (e ≡ WriteFault) ⊎ (e ≡ Memory)) }
    ensures never_fall { (K.view sink.old).faults ≤ (K.view sink.new).faults }
{
    // The line fails only when out of memory.
    let Ok(reply) = serve_line(fleet, rt, operator, scheduler, number, line) else {
        return Err(FleetError::Memory);
    };
    write_all(sink, reply.as_slice())
}

// Runs all lines on a fresh fleet.
fn run_lines<R: Threads + Sync, O: MergeOperator, K: Sink>(
    rt: &R,
    operator: &O,
    scheduler: &(dyn CompactionScheduler + Send + Sync),
    lines: LineList,
    fleet: &mut Fleet,
    sink: &mut K,
) -> Result<(), FleetError>
    requires fresh { IsFresh fleet.old }
    requires grammar { AreLines served_grammar [] (lines_of lines) }
    ensures ran { OnOk result (Ran
        (inputs_of (O.merged (O.settings operator.now)) (answers scheduler.now))
        (options_of fleet.old.options) (lines_of lines) (state_of fleet.new)
        (K.view sink.old) (K.view sink.new)) }
    ensures rose { result
        ≡ Err WriteFault → Rose (K.view sink.old).faults (K.view sink.new).faults }
    ensures fault { result ≡ Err WriteFault → RunsUpToFault
        (inputs_of (O.merged (O.settings operator.now)) (answers scheduler.now))
        (options_of fleet.old.options) (lines_of lines) (state_of fleet.new)
        (K.view sink.old) (K.view sink.new) }
    ensures memory { result ≡ Err Memory → RunsFront
        (inputs_of (O.merged (O.settings operator.now)) (answers scheduler.now))
        (options_of fleet.old.options) (lines_of lines) (K.view sink.old) (K.view sink.new) }
    ensures only { IfErr result (λ e. (e ≡ WriteFault) ⊎ (e ≡ Memory)) }
    ensures never_fall { (K.view sink.old).faults ≤ (K.view sink.new).faults }
{
    let total = lines.as_slice().len();
    let mut left = VecDeque::from_vec(lines.into_vec());
    'lines: while let Some(line) = left.pop_front() {
        let number = (total - left.len()) as u64;
        run_line(rt, operator, scheduler, number, line, fleet, sink)?;
    }
    Ok(())
}

/// Runs a script on a fresh fleet, under this merge operator and this scheduler. It reads the whole
/// text before the first line runs. It runs the lines in order, and hands each reply to the sink as
/// one piece before the next line runs.
pub fn run_script<R: Threads + Sync, K: Sink, O: MergeOperator + Sync>(
    rt: &R,
    alloc: Global,
    text: &[u8],
    operator: &O,
    scheduler: Box<dyn CompactionScheduler + Send + Sync>,
    fleet: &mut Fleet,
    sink: &mut K,
) -> Result<(), FleetError>
    requires fresh { IsFresh fleet.old }

    // On success the text is a script, the fleet is in the state at the end of its run, and the sink
    // took exactly the replies of that run.
    ensures served { OnOk result (Served
        (inputs_of (O.merged (O.settings operator.now)) (answers scheduler))
        (options_of fleet.old.options) text.now (state_of fleet.new)
        (K.view sink.old) (K.view sink.new)) }

    // BadLine names the first line outside the grammar. Nothing was run or written.
    ensures bad_line { (n : ℕ) → result ≡ Err (BadLine n) → IsBadAt served_grammar text.now n }
    ensures bad_line_exact { (n : ℕ)
        → IsBadAt served_grammar text.now n → (result ≡ Err (BadLine n)) ⊎ (result ≡ Err Memory) }
    ensures bad_line_state { (n : ℕ) → result ≡ Err (BadLine n) → fleet.new ≡ fleet.old }
    ensures bad_line_took { (n : ℕ)
        → result ≡ Err (BadLine n) → TookNothing (K.view sink.old) (K.view sink.new) }

    // WriteFault comes only if the sink failed in this call. A front of the replies was written.
    ensures rose { result
        ≡ Err WriteFault → Rose (K.view sink.old).faults (K.view sink.new).faults }
    ensures fault { result ≡ Err WriteFault → ServedUpToFault
        (inputs_of (O.merged (O.settings operator.now)) (answers scheduler))
        (options_of fleet.old.options) text.now (state_of fleet.new)
        (K.view sink.old) (K.view sink.new) }

    // Memory: the sink took exactly the whole replies to the first lines. If there is such a line,
    // the whole text is a script.
    ensures memory { result ≡ Err Memory → ServedFront
        (inputs_of (O.merged (O.settings operator.now)) (answers scheduler))
        (options_of fleet.old.options) text.now (K.view sink.old) (K.view sink.new) }

    ensures valid { (lines : List model.Line) → IsScript served_grammar text.now lines
        → IfErr result (λ e. (e ≡ WriteFault) ⊎ (e ≡ Memory)) }
    ensures only { IfErr result IsScriptError }
    ensures never_fall { (K.view sink.old).faults ≤ (K.view sink.new).faults }
{
    let lines = read_script(alloc, text)?;
    run_lines(rt, operator, scheduler.as_ref(), lines, fleet, sink)
}
