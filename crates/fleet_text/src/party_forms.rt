//! Reads the lines that name only parties, jobs and numbers.

ghost use Rattle.std.specs.Prelude.{◌≢◌, ◌∷◌, [], codes};
ghost use Rattle.script_model.specs.Script.{words, IsInBounds};
ghost use Rattle.script_model.specs.Words.{number_word};
ghost use Rattle.fleet_text.specs.Lines.{line_of};
ghost use Rattle.fleet_text.specs.Reading.{ReadsAs};

use crate::line::Line;
use crate::word::{between, count_of, flag_of, is_word, job_of, number_of, stands_of};

/// Reads `start` and a party.
pub fn start_from(party: &[u8], number: &[u8]) -> Option<Line>
    ensures { ReadsAs line_of words IsInBounds
        (codes "start" ∷ party.now ∷ number.now ∷ []) result }
{
    let number = number_of(number)?;
    if is_word(party, "coordinator") {
        return Some(Line::StartCoordinator { number });
    }
    if is_word(party, "worker") {
        return Some(Line::StartWorker {
            number,
            release: None,
        });
    }
    None
}

/// Reads `start worker`, a number and a release.
pub fn released_from(party: &[u8], number: &[u8], release: &[u8]) -> Option<Line>
    ensures { ReadsAs line_of words IsInBounds
        (codes "start" ∷ party.now ∷ number.now ∷ release.now ∷ []) result }
{
    if !is_word(party, "worker") {
        return None;
    }
    let number = number_of(number)?;
    let release = between(release, 1, 2)?;
    Some(Line::StartWorker {
        number,
        release: Some(release),
    })
}

/// Reads `kill` and a party.
pub fn kill_from(party: &[u8], number: &[u8]) -> Option<Line>
    ensures { ReadsAs line_of words IsInBounds
        (codes "kill" ∷ party.now ∷ number.now ∷ []) result }
{
    let number = number_of(number)?;
    if is_word(party, "coordinator") {
        return Some(Line::KillCoordinator { number });
    }
    if is_word(party, "worker") {
        return Some(Line::KillWorker { number });
    }
    None
}

/// Reads `stop` and a party.
pub fn stop_from(party: &[u8], number: &[u8]) -> Option<Line>
    ensures { ReadsAs line_of words IsInBounds
        (codes "stop" ∷ party.now ∷ number.now ∷ []) result }
{
    let number = number_of(number)?;
    if is_word(party, "coordinator") {
        return Some(Line::StopCoordinator { number });
    }
    if is_word(party, "worker") {
        return Some(Line::StopWorker { number });
    }
    None
}

/// Reads a verb and one number: a clock, a poll, a commit, a claim or a heartbeat.
pub fn numbered_from(verb: &[u8], number: &[u8]) -> Option<Line>
    requires { verb.now ≢ codes "full" }
    ensures { ReadsAs line_of words IsInBounds (verb.now ∷ number.now ∷ []) result }
{
    let number = number_of(number)?;
    if is_word(verb, "clock") {
        return Some(Line::Clock { moment: number });
    }
    if is_word(verb, "poll") {
        return Some(Line::Poll {
            coordinator: number,
        });
    }
    if is_word(verb, "commit") {
        return Some(Line::Commit {
            coordinator: number,
        });
    }
    if is_word(verb, "claim") {
        return Some(Line::Claim { worker: number });
    }
    if is_word(verb, "heartbeat") {
        return Some(Line::Heartbeat { worker: number });
    }
    None
}

/// Reads `finish`, a worker and a job.
pub fn finish_from(worker: &[u8], job: &[u8]) -> Option<Line>
    ensures { ReadsAs line_of words IsInBounds
        (codes "finish" ∷ worker.now ∷ job.now ∷ []) result }
{
    let worker = number_of(worker)?;
    let job = job_of(job)?;
    Some(Line::Finish { worker, job })
}

/// Reads `output`, a worker, a job, a range and a number of rows.
pub fn output_from(worker: &[u8], job: &[u8], range: &[u8], rows: &[u8]) -> Option<Line>
    ensures { ReadsAs line_of words IsInBounds
        (codes "output" ∷ worker.now ∷ job.now ∷ range.now ∷ rows.now ∷ []) result }
{
    let worker = number_of(worker)?;
    let job = job_of(job)?;
    let range = between(range, 1, 64)?;
    let rows = count_of(rows)?;
    Some(Line::Output {
        worker,
        job,
        range,
        rows,
    })
}

/// Reads `fault`, a number, and what becomes of a struck put.
pub fn fault_from(k: &[u8], stands: &[u8]) -> Option<Line>
    ensures { ReadsAs line_of words IsInBounds
        (codes "fault" ∷ k.now ∷ stands.now ∷ []) result }
{
    let k = count_of(k)?;
    let stands = stands_of(stands)?;
    Some(Line::Fault { k, stands })
}

/// Reads `settle`, a coordinator, a worker and a number of rounds.
pub fn settle_from(coordinator: &[u8], worker: &[u8], rounds: &[u8]) -> Option<Line>
    ensures { ReadsAs line_of words IsInBounds
        (codes "settle" ∷ coordinator.now ∷ worker.now ∷ rounds.now ∷ []) result }
{
    let coordinator = number_of(coordinator)?;
    let worker = number_of(worker)?;
    let rounds = between(rounds, 1, 1_000_000)?;
    Some(Line::Settle {
        coordinator,
        worker,
        rounds,
    })
}

/// Reads `together`, a number of workers and a number of turns.
pub fn together_from(workers: &[u8], turns: &[u8]) -> Option<Line>
    ensures { ReadsAs line_of words IsInBounds
        (codes "together" ∷ workers.now ∷ turns.now ∷ []) result }
{
    let workers = between(workers, 1, 16)?;
    let turns = between(turns, 1, 100_000)?;
    Some(Line::Together { workers, turns })
}

/// Reads `options` and its six numbers, and the retention or none.
pub fn options_from(
    timeout: &[u8],
    concurrent: &[u8],
    slots: &[u8],
    ranges: &[u8],
    table_size: &[u8],
    moves: &[u8],
    retention: Option<u64>,
) -> Option<Line>
    ensures { ReadsAs line_of words IsInBounds (codes "options" ∷ timeout.now ∷ concurrent.now
        ∷ slots.now ∷ ranges.now ∷ table_size.now ∷ moves.now ∷ number_word retention) result }
{
    let timeout = number_of(timeout)?;
    let concurrent = number_of(concurrent)?;
    let slots = number_of(slots)?;
    let ranges = between(ranges, 0, 64)?;
    let table_size = number_of(table_size)?;
    let moves = flag_of(moves)?;
    Some(Line::Options {
        timeout,
        concurrent,
        slots,
        ranges,
        table_size,
        moves,
        retention,
    })
}
