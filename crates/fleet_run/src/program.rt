//! The program, except its standard streams.

ghost use Rattle.std.specs.Prelude.{◌≡◌, ℕ, ◌+◌, ◌<◌, ◌≤◌, ◌^◌, ◌↔◌, ◌⊎◌, List, Some, Err, length, map, IfOk, IfErr};
ghost use Rattle.std.specs.Io.KnownBytes.{Consumes};
ghost use Rattle.script_model.specs.Script.{IsScript};
ghost use Rattle.script_model.specs.Script as model;
ghost use Rattle.script_model.specs.Grammars.{served_grammar};
ghost use Rattle.fleet_lines.specs.Fleets.{IsFresh, options_of, state_of};
ghost use Rattle.fleet_settle.specs.Steps.{inputs_of};
ghost use Rattle.fleet_run.specs.SourceAndSink.{Rose, TookNothing};
ghost use Rattle.fleet_run.specs.Commands.{AskToRun, Asks};
ghost use Rattle.fleet_run.specs.Program.{ReadWhole, ReadFront, IsStatus, IsRunStatus, IsGenerateStatus, RunsNothing, RunsScript, HasBadLine, RunsUpTo, RunsFirst, WritesSummary, WritesSummaryShort, longest};
ghost use Rattle.fleet_run.specs.declared.command.Command.TheVariants.{Generate};
ghost use Rattle.fleet_run.specs.declared.script.FleetError.TheVariants.{Memory, TooLong, ReadFault};

use crate::command::Command;
use crate::generated_runs::run_generated;
use crate::script::{FleetError, run_script};
use crate::source_and_sink::{Sink, Source};
use fleet_fold::MergeOperator;
use fleet_lines::Fleet;
use fleet_sched::CompactionScheduler;
use std::alloc::Global;
use std::thread::Threads;

const LONGEST: usize = 67_108_864;

// Reads a source to its end, or until it has given more than `LONGEST` bytes.
fn read_all<S: Source>(alloc: Global, source: &mut S) -> Result<Vec<u8>, FleetError>
    requires { (S.view source.old).given < 2 ^ 63 }
    ensures whole { IfOk result
        (λ text. ReadWhole text.items (S.view source.old) (S.view source.new)) }
    ensures too_long { (result
        ≡ Err TooLong) ↔ ((S.view source.old).given + longest < (S.view source.new).given) }
    ensures read_fault { result
        ≡ Err ReadFault → Rose (S.view source.old).faults (S.view source.new).faults }
    ensures front { IfErr result (λ _. ReadFront (S.view source.old) (S.view source.new)) }
    ensures only { IfErr result (λ e. (e ≡ TooLong) ⊎ ((e ≡ ReadFault) ⊎ (e ≡ Memory))) }
    ensures never_fall { (S.view source.old).faults ≤ (S.view source.new).faults }
{
    let mut text = Vec::new(alloc);
    let mut piece = [0u8; 8192];
    'pieces: loop {
        let Ok(n) = source.read(&mut piece) else {
            return Err(FleetError::ReadFault);
        };
        if n == 0 {
            return Ok(text);
        }
        if n > LONGEST - text.len() {
            return Err(FleetError::TooLong);
        }
        if text.extend_from_slice(&piece[..n]).is_err() {
            return Err(FleetError::Memory);
        }
    }
}

// Runs the script that the source gives, and gives the program's status.
fn run_source<R: Threads + Sync, S: Source, K: Sink, O: MergeOperator + Sync>(
    rt: &R,
    alloc: Global,
    source: &mut S,
    operator: &O,
    scheduler: Box<dyn CompactionScheduler + Send + Sync>,
    fleet: &mut Fleet,
    sink: &mut K,
) -> u8
    requires fresh { IsFresh fleet.old }
    requires given { (S.view source.old).given < 2 ^ 63 }
    ensures status { IsRunStatus result }
    ensures run { result ≡ 0 → RunsScript
        (inputs_of (O.merged (O.settings operator.now)) (answers scheduler))
        (options_of fleet.old.options) (state_of fleet.new)
        (S.view source.old) (S.view source.new) (K.view sink.old) (K.view sink.new) }
    ensures bad_line { result ≡ 3 → HasBadLine (S.view source.old) (S.view source.new) }
    ensures read_fault { result ≡ 4 → Rose (S.view source.old).faults (S.view source.new).faults }
    ensures write_fault { result ≡ 5 → Rose (K.view sink.old).faults (K.view sink.new).faults }
    ensures wrote_front { result ≡ 5 → RunsUpTo
        (inputs_of (O.merged (O.settings operator.now)) (answers scheduler))
        (options_of fleet.old.options) (state_of fleet.new)
        (S.view source.old) (S.view source.new) (K.view sink.old) (K.view sink.new) }
    ensures memory { result ≡ 6 → RunsFirst
        (inputs_of (O.merged (O.settings operator.now)) (answers scheduler))
        (options_of fleet.old.options)
        (S.view source.old) (S.view source.new) (K.view sink.old) (K.view sink.new) }
    ensures too_long { (result
        ≡ 7) ↔ ((S.view source.old).given + longest < (S.view source.new).given) }
    ensures took_nothing { RunsNothing result → TookNothing (K.view sink.old) (K.view sink.new) }
    ensures left_fresh { RunsNothing result → fleet.new ≡ fleet.old }
    ensures complete { (text : List ℕ) (lines : List model.Line) → IsScript served_grammar text lines
        → length text ≤ longest → (S.view source.old).left ≡ Some text
        → (result ≡ 0) ⊎ (result ≡ 4) ⊎ (result ≡ 5) ⊎ (result ≡ 6) }
{
    match read_all(alloc, source) {
        Ok(text) => match run_script(rt, alloc, text.as_slice(), operator, scheduler, fleet, sink) {
            Ok(()) => 0,
            Err(FleetError::BadLine(_)) => 3,
            Err(FleetError::WriteFault) => 5,
            Err(FleetError::Memory) => 6,
            Err(FleetError::TooLong | FleetError::ReadFault | FleetError::Usage) => unreachable!(),
        },
        Err(FleetError::ReadFault) => 4,
        Err(FleetError::TooLong) => 7,
        Err(FleetError::Memory) => 6,
        Err(FleetError::BadLine(_) | FleetError::WriteFault | FleetError::Usage) => unreachable!(),
    }
}

/// Runs the program and returns its status. The words `run`, and the words `run level <trigger>
/// <base> <ratio>`, run the script that the source gives under the scheduler that is handed in, and
/// write its replies to the sink. The words `generate <number> <rounds>` run the script that
/// `make_script` makes of these numbers, and write one line to the sink: `rounds <rounds> lines
/// <lines> script <bytes> replies <bytes>`. They read nothing.
///
/// | Status | Meaning |
/// |---|---|
/// | 0 | the script was run, and all its replies, or the line on it, were written |
/// | 2 | the words are none that `Command::from_words` takes |
/// | 3 | a line of the script is outside the grammar |
/// | 4 | the source failed |
/// | 5 | the sink failed |
/// | 6 | out of memory |
/// | 7 | the source gave more than 67,108,864 bytes |
pub fn fleet_main<R: Threads + Sync, S: Source, K: Sink, O: MergeOperator + Sync>(
    rt: &R,
    alloc: Global,
    words: &[&str],
    source: &mut S,
    operator: &O,
    scheduler: Box<dyn CompactionScheduler + Send + Sync>,
    fleet: &mut Fleet,
    sink: &mut K,
) -> u8
    requires fresh { IsFresh fleet.old }
    requires given { (S.view source.old).given < 2 ^ 63 }
    ensures status { IsStatus result }

    ensures usage { (result ≡ 2) ↔ ((command : _) → Asks (map (λ word. word.now) words.now) command → ⊥) }
    ensures usage_reads_nothing { result ≡ 2 → source.new ≡ source.old }

    // `run` and `run level`
    ensures run { result ≡ 0 → AskToRun (map (λ word. word.now) words.now) → RunsScript
        (inputs_of (O.merged (O.settings operator.now)) (answers scheduler))
        (options_of fleet.old.options) (state_of fleet.new)
        (S.view source.old) (S.view source.new) (K.view sink.old) (K.view sink.new) }
    ensures wrote_front { result ≡ 5 → AskToRun (map (λ word. word.now) words.now) → RunsUpTo
        (inputs_of (O.merged (O.settings operator.now)) (answers scheduler))
        (options_of fleet.old.options) (state_of fleet.new)
        (S.view source.old) (S.view source.new) (K.view sink.old) (K.view sink.new) }
    ensures memory { result ≡ 6 → AskToRun (map (λ word. word.now) words.now) → RunsFirst
        (inputs_of (O.merged (O.settings operator.now)) (answers scheduler))
        (options_of fleet.old.options)
        (S.view source.old) (S.view source.new) (K.view sink.old) (K.view sink.new) }

    // `generate`, which reads nothing.
    ensures generated { (number rounds : ℕ) → result ≡ 0
        → Asks (map (λ word. word.now) words.now) (Generate number rounds) → WritesSummary
        (inputs_of (O.merged (O.settings operator.now)) (answers scheduler))
        (options_of fleet.old.options) number rounds (state_of fleet.new)
        (K.view sink.old) (K.view sink.new) }
    ensures wrote_part { (number rounds : ℕ) → result ≡ 5
        → Asks (map (λ word. word.now) words.now) (Generate number rounds) → WritesSummaryShort
        (inputs_of (O.merged (O.settings operator.now)) (answers scheduler))
        (options_of fleet.old.options) number rounds (state_of fleet.new)
        (K.view sink.old) (K.view sink.new) }
    ensures wrote_nothing { (number rounds : ℕ) → result ≡ 6
        → Asks (map (λ word. word.now) words.now) (Generate number rounds)
        → TookNothing (K.view sink.old) (K.view sink.new) }
    ensures generates { (number rounds : ℕ)
        → Asks (map (λ word. word.now) words.now) (Generate number rounds)
        → IsGenerateStatus result × (source.new ≡ source.old) }

    ensures bad_line { result ≡ 3 → HasBadLine (S.view source.old) (S.view source.new) }
    ensures read_fault { result ≡ 4 → Rose (S.view source.old).faults (S.view source.new).faults }
    ensures write_fault { result ≡ 5 → Rose (K.view sink.old).faults (K.view sink.new).faults }
    ensures too_long { (result
        ≡ 7) ↔ ((S.view source.old).given + longest < (S.view source.new).given) }

    // With the statuses 2, 3, 4 and 7, nothing was run or written.
    ensures took_nothing { RunsNothing result → TookNothing (K.view sink.old) (K.view sink.new) }
    ensures left_fresh { RunsNothing result → fleet.new ≡ fleet.old }

    // A script that is not too long is run, unless the words ask for something else, the source or
    // the sink fails, or memory runs out.
    ensures complete { (text : List ℕ) (lines : List model.Line) → IsScript served_grammar text lines
        → length text ≤ longest → (S.view source.old).left ≡ Some text
        → (result ≡ 0) ⊎ (result ≡ 2) ⊎ (result ≡ 4) ⊎ (result ≡ 5) ⊎ (result ≡ 6) }
{
    match Command::from_words(words) {
        None => 2,
        Some(Command::Run | Command::RunLevels(_)) => {
            run_source(rt, alloc, source, operator, scheduler, fleet, sink)
        }
        Some(Command::Generate { number, rounds }) => {
            let ran = run_generated(rt, alloc, number, rounds, operator, scheduler, fleet, sink);
            match ran {
                Ok(()) => 0,
                Err(FleetError::WriteFault) => 5,
                Err(_) => 6,
            }
        }
    }
}
