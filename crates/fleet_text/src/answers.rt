//! Prints whole replies that have no lists.

ghost use Rattle.std.specs.Prelude.{◌≡◌, ◌≢◌, ◌∷◌, ◌++◌, [], IfOk, IsOkUnless, None, length, map, codes, decimal, string_bytes};
ghost use Rattle.std.specs.List.{join_with_byte};
ghost use Rattle.std.specs.Fmt.{signed_decimal};
ghost use Rattle.fleet_rows.specs.declared.errors.SlateDBError.TheVariants as SlateDBError;
ghost use Rattle.script_model.specs.LineRuns.{flush_fault_text};
ghost use Rattle.script_model.specs.Replies as replies;
ghost use Rattle.script_model.specs.Replies.{reply};
ghost use Rattle.script_model.specs.Lines.Settles.{settled_reply, all_taken};
ghost use Rattle.script_model.specs.Words.{bytes_text};
ghost use Rattle.fleet_text.specs.Faults.{fault_of};

use crate::lists::jobs_text;
use crate::reply::Reply;
use crate::report::FlushFault;
use crate::texts::{bytes_text, table_text};
use fleet_rows::{JobList, SlateDBError, Ulid};
use std::alloc::{AllocError, Global};

// The words with a space between each two.
fn spaced(alloc: Global, words: &[&str]) -> Result<String, AllocError>
    ensures { IfOk result (λ text. string_bytes text
        ≡ join_with_byte 32 (map (λ word. word.now) words.now)) }
{
    words.join(alloc, " ")
}

/// A reply of these words, with a space between each two and a newline at the end.
pub(crate) fn said(alloc: Global, words: &[&str]) -> Result<Reply, SlateDBError>
    ensures reply { IfOk result (λ answer. answer ≡ reply (map (λ word. word.now) words.now)) }
    ensures memory { IsOkUnless result SlateDBError.Memory }
{
    let text = spaced(alloc, words)?;
    let mut answer = Reply::new(alloc);
    answer.word(text.as_str())?;
    answer.word("\n")?;
    Ok(answer)
}

// A reply of these words and of one more after them.
fn said_before(alloc: Global, words: &[&str], last: &str) -> Result<Reply, SlateDBError>
    requires { length words.now ≢ 0 }
    ensures reply { IfOk result
        (λ answer. answer ≡ reply (map (λ word. word.now) words.now ++ last.now ∷ [])) }
    ensures memory { IsOkUnless result SlateDBError.Memory }
{
    let text = spaced(alloc, words)?;
    said(alloc, &[text.as_str(), last])
}

// A reply of these words and of a number after them.
fn said_number(alloc: Global, words: &[&str], number: u64) -> Result<Reply, SlateDBError>
    requires { length words.now ≢ 0 }
    ensures reply { IfOk result
        (λ answer. answer ≡ reply (map (λ word. word.now) words.now ++ decimal number ∷ [])) }
    ensures memory { IsOkUnless result SlateDBError.Memory }
{
    let digits = number.to_string(alloc)?;
    said_before(alloc, words, digits.as_str())
}

// A reply of these words and of bytes after them.
fn said_bytes(alloc: Global, words: &[&str], bytes: &[u8]) -> Result<Reply, SlateDBError>
    requires { length words.now ≢ 0 }
    ensures reply { IfOk result
        (λ answer. answer ≡ reply (map (λ word. word.now) words.now ++ bytes_text bytes.now ∷ [])) }
    ensures memory { IsOkUnless result SlateDBError.Memory }
{
    let digits = bytes_text(alloc, bytes)?;
    said_before(alloc, words, digits.as_str())
}

/// A reply of these words and of jobs after them.
pub(crate) fn said_jobs(
    alloc: Global,
    words: &[&str],
    jobs: &JobList,
) -> Result<Reply, SlateDBError>
    requires { length words.now ≢ 0 }
    ensures reply { IfOk result (λ answer. answer
        ≡ reply (map (λ word. word.now) words.now ++ replies.jobs_text jobs.now ∷ [])) }
    ensures memory { IsOkUnless result SlateDBError.Memory }
{
    let jobs = jobs_text(alloc, jobs.as_slice())?;
    said_before(alloc, words, jobs.as_str())
}

// A reply of a word, and of the numbers of claims and of commits, each after its name.
fn said_counts(alloc: Global, state: &str, claims: u64, commits: u64) -> Result<Reply, SlateDBError>
    ensures reply { IfOk result (λ answer. answer ≡ reply (codes "ok" ∷ state.now
        ∷ codes "claims" ∷ decimal claims ∷ codes "commits" ∷ decimal commits ∷ [])) }
    ensures memory { IsOkUnless result SlateDBError.Memory }
{
    let claims = claims.to_string(alloc)?;
    let commits = commits.to_string(alloc)?;
    let words = [
        "ok",
        state,
        "claims",
        claims.as_str(),
        "commits",
        commits.as_str(),
    ];
    said(alloc, &words)
}

/// The reply of a line that has nothing else to say.
pub fn done(alloc: Global) -> Result<Reply, SlateDBError>
    ensures reply { IfOk result (λ answer. answer ≡ replies.ok) }
    ensures memory { IsOkUnless result SlateDBError.Memory }
{
    said(alloc, &["ok"])
}

/// The reply of a line whose call of the store failed.
pub fn store_fault(alloc: Global) -> Result<Reply, SlateDBError>
    ensures reply { IfOk result (λ answer. answer ≡ reply (codes "storefault" ∷ [])) }
    ensures memory { IsOkUnless result SlateDBError.Memory }
{
    said(alloc, &["storefault"])
}

/// The reply to a line whose party is not live, or whose worker does not run the job.
pub fn no_such_party(alloc: Global) -> Result<Reply, SlateDBError>
    ensures reply { IfOk result (λ answer. answer ≡ reply (codes "nosuchparty" ∷ [])) }
    ensures memory { IsOkUnless result SlateDBError.Memory }
{
    said(alloc, &["nosuchparty"])
}

/// The reply if there are no job records.
pub fn no_records(alloc: Global) -> Result<Reply, SlateDBError>
    ensures reply { IfOk result (λ answer. answer ≡ reply (codes "invaliddbstate" ∷ [])) }
    ensures memory { IsOkUnless result SlateDBError.Memory }
{
    said(alloc, &["invaliddbstate"])
}

/// The reply if the scheduler refuses to make jobs.
pub fn invalid_compaction(alloc: Global) -> Result<Reply, SlateDBError>
    ensures reply { IfOk result (λ answer. answer ≡ reply (codes "invalidcompaction" ∷ [])) }
    ensures memory { IsOkUnless result SlateDBError.Memory }
{
    said(alloc, &["invalidcompaction"])
}

/// The reply to a worker that no longer has the job.
pub fn not_owner(alloc: Global) -> Result<Reply, SlateDBError>
    ensures reply { IfOk result (λ answer. answer ≡ reply (codes "notowner" ∷ [])) }
    ensures memory { IsOkUnless result SlateDBError.Memory }
{
    said(alloc, &["notowner"])
}

/// The reply to a read of a key without a value.
pub fn none(alloc: Global) -> Result<Reply, SlateDBError>
    ensures reply { IfOk result (λ answer. answer ≡ replies.read_reply None) }
    ensures memory { IsOkUnless result SlateDBError.Memory }
{
    said(alloc, &["none"])
}

/// The reply if the node or the records are not there.
pub fn absent(alloc: Global) -> Result<Reply, SlateDBError>
    ensures reply { IfOk result (λ answer. answer ≡ replies.absent_reply) }
    ensures memory { IsOkUnless result SlateDBError.Memory }
{
    said(alloc, &["ok", "absent"])
}

/// The reply to an output that had no row left.
pub fn no_output(alloc: Global) -> Result<Reply, SlateDBError>
    ensures reply { IfOk result (λ answer. answer ≡ replies.output_reply None) }
    ensures memory { IsOkUnless result SlateDBError.Memory }
{
    said(alloc, &["ok", "none"])
}

/// The reply to the start of a coordinator, with its epoch.
pub fn started(alloc: Global, epoch: u64) -> Result<Reply, SlateDBError>
    ensures reply { IfOk result
        (λ answer. answer ≡ reply (codes "ok" ∷ codes "epoch" ∷ decimal epoch ∷ [])) }
    ensures memory { IsOkUnless result SlateDBError.Memory }
{
    said_number(alloc, &["ok", "epoch"], epoch)
}

/// The reply to a coordinator that is fenced by the stored epoch.
pub fn fenced(alloc: Global, stored: u64) -> Result<Reply, SlateDBError>
    ensures reply { IfOk result (λ answer. answer ≡ reply (codes "fenced" ∷ decimal stored ∷ [])) }
    ensures memory { IsOkUnless result SlateDBError.Memory }
{
    said_number(alloc, &["fenced"], stored)
}

/// The reply of a step that gave up after many refused puts, with the version that it saw last.
pub fn conflict(alloc: Global, seen: u64) -> Result<Reply, SlateDBError>
    ensures reply { IfOk result (λ answer. answer ≡ reply (codes "conflict" ∷ decimal seen ∷ [])) }
    ensures memory { IsOkUnless result SlateDBError.Memory }
{
    said_number(alloc, &["conflict"], seen)
}

/// The reply of a settle line that settled in this round.
pub fn settled(alloc: Global, round: u64) -> Result<Reply, SlateDBError>
    ensures reply { IfOk result (λ answer. answer ≡ settled_reply round) }
    ensures memory { IsOkUnless result SlateDBError.Memory }
{
    said_number(alloc, &["ok", "settled"], round)
}

/// The reply of a settle line that took all its rounds.
pub fn rounds_taken(alloc: Global, rounds: u64) -> Result<Reply, SlateDBError>
    ensures reply { IfOk result (λ answer. answer ≡ all_taken rounds) }
    ensures memory { IsOkUnless result SlateDBError.Memory }
{
    said_number(alloc, &["ok", "rounds"], rounds)
}

/// The reply to a read below the horizon or before the tick.
pub fn not_retained(alloc: Global, horizon: u64, tick: i64) -> Result<Reply, SlateDBError>
    ensures reply { IfOk result (λ answer. answer ≡ replies.not_retained horizon tick) }
    ensures memory { IsOkUnless result SlateDBError.Memory }
{
    let horizon = horizon.to_string(alloc)?;
    let tick = tick.to_string(alloc)?;
    said(alloc, &["notretained", horizon.as_str(), tick.as_str()])
}

/// The reply to a together line after which no stored job is active.
pub fn idle(alloc: Global, claims: u64, commits: u64) -> Result<Reply, SlateDBError>
    ensures reply { IfOk result (λ answer. answer ≡ replies.idle_reply claims commits) }
    ensures memory { IsOkUnless result SlateDBError.Memory }
{
    said_counts(alloc, "idle", claims, commits)
}

/// The reply to a together line after which a stored job is active.
pub fn turns(alloc: Global, claims: u64, commits: u64) -> Result<Reply, SlateDBError>
    ensures reply { IfOk result (λ answer. answer ≡ replies.turns_reply claims commits) }
    ensures memory { IsOkUnless result SlateDBError.Memory }
{
    said_counts(alloc, "turns", claims, commits)
}

/// The reply to a read of a value.
pub fn value(alloc: Global, bytes: &[u8]) -> Result<Reply, SlateDBError>
    ensures reply { IfOk result
        (λ answer. answer ≡ reply (codes "value" ∷ bytes_text bytes.now ∷ [])) }
    ensures memory { IsOkUnless result SlateDBError.Memory }
{
    said_bytes(alloc, &["value"], bytes)
}

/// The reply if the operator refuses a fold, with the operator's message.
pub fn callback(alloc: Global, message: &[u8]) -> Result<Reply, SlateDBError>
    ensures reply { IfOk result
        (λ answer. answer ≡ reply (codes "callback" ∷ bytes_text message.now ∷ [])) }
    ensures memory { IsOkUnless result SlateDBError.Memory }
{
    said_bytes(alloc, &["callback"], message)
}

/// The reply if the scheduler declines, with its message.
pub fn generate_refused(alloc: Global, message: &[u8]) -> Result<Reply, SlateDBError>
    ensures reply { IfOk result
        (λ answer. answer ≡ reply (codes "generate" ∷ bytes_text message.now ∷ [])) }
    ensures memory { IsOkUnless result SlateDBError.Memory }
{
    said_bytes(alloc, &["generate"], message)
}

/// The reply to a refused flush, with the rule that it breaks.
pub fn bad_flush(alloc: Global, fault: FlushFault) -> Result<Reply, SlateDBError>
    ensures reply { IfOk result
        (λ answer. answer ≡ reply (codes "badflush" ∷ flush_fault_text (fault_of fault) ∷ [])) }
    ensures memory { IsOkUnless result SlateDBError.Memory }
{
    said(alloc, &["badflush", fault.kind()])
}

/// The reply to an output: its table, and the number of its rows.
pub fn output(alloc: Global, table: Ulid, rows: u64) -> Result<Reply, SlateDBError>
    ensures reply { IfOk result
        (λ answer. answer ≡ reply (codes "ok" ∷ replies.table_text table ∷ decimal rows ∷ [])) }
    ensures memory { IsOkUnless result SlateDBError.Memory }
{
    let name = table_text(alloc, table)?;
    let digits = rows.to_string(alloc)?;
    said(alloc, &["ok", name.as_str(), digits.as_str()])
}
