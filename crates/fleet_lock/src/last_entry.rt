//! What the last entry of a history claims and commits.

ghost use Rattle.std.specs.Prelude.{◌≡◌, ◌==◌, filter, length, true};
ghost use Rattle.std.specs.List.{list_any};
ghost use Rattle.fleet_model.specs.History.{stood};
ghost use Rattle.fleet_model.specs.Jobs.{contains};
ghost use Rattle.step_model.specs.Entries.{attempts_claimed_in};
ghost use Rattle.course_laws.specs.Histories.{completed_in, finished_jobs};
ghost use Rattle.fleet_history.specs.Entries.{answer_of, entry_of, event_of, history_of};
ghost use Rattle.fleet_lock.specs.Counts.{LastAdds, claims_in, commits_in, finishes, is_finish};

use fleet_history::{Answer, Event, HistoryEntry, RecordChange};
use fleet_rows::Ulid;

/// How many attempts the last entry claims, or 0 if there is no entry.
pub(crate) fn last_claims(history: &[HistoryEntry]) -> u64
    ensures { LastAdds claims_in result (history_of history.now) }
{
    match history.split_last() {
        Some((last, _)) => claimed(last),
        None => 0,
    }
}

/// How many finished jobs the last entry completes, or 0 if there is no entry.
pub(crate) fn last_commits(history: &[HistoryEntry]) -> u64
    ensures { LastAdds commits_in result (history_of history.now) }
{
    match history.split_last() {
        Some((last, before)) => committed(last, before),
        None => 0,
    }
}

// Whether a put with this answer took effect.
fn took_effect(answer: &Answer) -> bool
    ensures { result ≡ stood (answer_of answer.now) }
{
    matches!(answer, Answer::Done(_) | Answer::Stands)
}

// The number of attempts that the entry claims.
fn claimed(entry: &HistoryEntry) -> u64
    ensures { result ≡ length (attempts_claimed_in
        (stood (answer_of entry.now.answer)) (event_of entry.now.event)) }
{
    if took_effect(&entry.answer) {
        claims(&entry.event)
    } else {
        0
    }
}

// The number of attempts that the event claims, if it took effect.
fn claims(event: &Event) -> u64
    ensures { result ≡ length (attempts_claimed_in true (event_of event.now)) }
{
    match event {
        Event::PutRecords(RecordChange::Claim(_, attempts)) => attempts.len(),
        _ => 0,
    }
}

// The number of jobs that an entry completes and that the entries before it finished.
fn committed(entry: &HistoryEntry, before: &[HistoryEntry]) -> u64
    ensures { result ≡ length (filter (contains (completed_in
        (stood (answer_of entry.now.answer)) (event_of entry.now.event)))
        (finished_jobs (history_of before.now))) }
{
    let jobs = completed(entry);
    if jobs.is_empty() {
        0
    } else {
        count_finished(before, jobs) as u64
    }
}

// The jobs that the entry completes.
fn completed(entry: &HistoryEntry) -> &[Ulid]
    ensures { result.now ≡ completed_in
        (stood (answer_of entry.now.answer)) (event_of entry.now.event) }
{
    if took_effect(&entry.answer) {
        completes(&entry.event)
    } else {
        &[]
    }
}

// The jobs that the event completes, if it took effect.
fn completes(event: &Event) -> &[Ulid]
    ensures { result.now ≡ completed_in true (event_of event.now) }
{
    match event {
        Event::PutRecords(RecordChange::Poll(change)) => change.completed.as_slice(),
        _ => &[],
    }
}

// The number of entries that finish one of these jobs.
fn count_finished(history: &[HistoryEntry], jobs: &[Ulid]) -> usize
    ensures { result ≡ length (filter (λ entry. is_finish jobs.now (entry_of entry)) history.now) }
{
    history
        .iter()
        .filter(|entry| is_finish(*entry, jobs))
        .count()
}

// Whether the entry finishes one of these jobs.
fn is_finish(entry: &HistoryEntry, jobs: &[Ulid]) -> bool
    ensures { result ≡ is_finish jobs.now (entry_of entry.now) }
{
    took_effect(&entry.answer) && finishes(&entry.event, jobs)
}

// Whether the event finishes one of these jobs, if it took effect.
fn finishes(event: &Event, jobs: &[Ulid]) -> bool
    ensures { result ≡ finishes jobs.now (event_of event.now) }
{
    match event {
        Event::PutRecords(RecordChange::Finish(_, job, _, _)) => contains(jobs, *job),
        _ => false,
    }
}

fn contains(ids: &[Ulid], id: Ulid) -> bool
    ensures { result ≡ contains ids.now id }
{
    has(ids, id)
}

fn has(ids: &[Ulid], id: Ulid) -> bool
    ensures { result ≡ list_any (λ other. other == id) ids.now }
{
    ids.iter().any(|other| *other == id)
}
