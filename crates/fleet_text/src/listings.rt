//! Prints whole replies that have lists.

ghost use Rattle.std.specs.Prelude.{◌≡◌, ◌∷◌, [], IfOk, IsOkUnless, map, codes, string_bytes};
ghost use Rattle.fleet_rows.specs.declared.errors.SlateDBError.TheVariants as SlateDBError;
ghost use Rattle.fleet_rows.specs.Row.{rows_of};
ghost use Rattle.fleet_jobs.specs.Jobs.{jobs_of};
ghost use Rattle.fleet_tree.specs.Trees.{RunFlushes, trees_of, trees_with_prefix};
ghost use Rattle.script_model.specs.Replies as replies;
ghost use Rattle.script_model.specs.Replies.{reply, jobs_text, rules_text, ranges_text, semicolon};
ghost use Rattle.script_model.specs.Lines.Scans.{scan_reply, pair_text};
ghost use Rattle.script_model.specs.Words.{list_text, rows_text};
ghost use Rattle.fleet_text.specs.Pages.{page_of};
ghost use Rattle.fleet_text.specs.Printed.{attempt_begun, counted_tables, polled_text, tree_text};

use crate::answers::{said, said_jobs};
use crate::job_texts::append_segment;
use crate::lists::{jobs_text, listed_each, listed_each_apart, listed_ranges, tables_text};
use crate::prints::Prints;
use crate::reply::Reply;
use crate::report::{Begun, Page, PollReport, ScanEnd};
use crate::texts::{append_bytes, bytes_text};
use bytes::Bytes;
use fleet_jobs::Compaction;
use fleet_rows::{IdList, JobList, NamesList, RowEntry, RuleList, SlateDBError};
use fleet_tree::{ManifestCore, TableList};
use std::alloc::{AllocError, Global};

/// The reply to the submission of a job, with its number.
pub fn submitted(alloc: Global, job: &JobList) -> Result<Reply, SlateDBError>
    ensures reply { IfOk result
        (λ answer. answer ≡ reply (codes "ok" ∷ codes "job" ∷ jobs_text job.now ∷ [])) }
    ensures memory { IsOkUnless result SlateDBError.Memory }
{
    said_jobs(alloc, &["ok", "job"], job)
}

/// The reply to the submission of the jobs that the scheduler made.
pub fn submitted_all(alloc: Global, jobs: &JobList) -> Result<Reply, SlateDBError>
    ensures reply { IfOk result
        (λ answer. answer ≡ reply (codes "ok" ∷ codes "jobs" ∷ jobs_text jobs.now ∷ [])) }
    ensures memory { IsOkUnless result SlateDBError.Memory }
{
    said_jobs(alloc, &["ok", "jobs"], jobs)
}

/// The reply to a worker that stops, with the jobs that it gave back.
pub fn released(alloc: Global, jobs: &JobList) -> Result<Reply, SlateDBError>
    ensures reply { IfOk result
        (λ answer. answer ≡ reply (codes "ok" ∷ codes "released" ∷ jobs_text jobs.now ∷ [])) }
    ensures memory { IsOkUnless result SlateDBError.Memory }
{
    said_jobs(alloc, &["ok", "released"], jobs)
}

/// The reply to a heartbeat: the jobs that the worker owns, and those that it no longer owns.
pub fn beat(alloc: Global, owned: &JobList, lost: &JobList) -> Result<Reply, SlateDBError>
    ensures reply { IfOk result (λ answer. answer ≡ replies.beat_reply owned.now lost.now) }
    ensures memory { IsOkUnless result SlateDBError.Memory }
{
    let owned = jobs_text(alloc, owned.as_slice())?;
    let lost = jobs_text(alloc, lost.as_slice())?;
    said(
        alloc,
        &["ok", "beat", owned.as_str(), "notowner", lost.as_str()],
    )
}

/// The reply to a poll.
pub fn polled(alloc: Global, report: &PollReport) -> Result<Reply, SlateDBError>
    ensures reply { IfOk result (λ answer. answer ≡ polled_text report.now) }
    ensures memory { IsOkUnless result SlateDBError.Memory }
{
    let freed = jobs_text(alloc, report.freed.as_slice())?;
    let done = jobs_text(alloc, report.done.as_slice())?;
    let lost = listed_each(alloc, report.lost.as_slice())?;
    let added = jobs_text(alloc, report.added.as_slice())?;
    let dropped = listed_each(alloc, report.dropped.as_slice())?;
    let opened = jobs_text(alloc, report.opened.as_slice())?;
    let moved = jobs_text(alloc, report.moved.as_slice())?;
    let drained = jobs_text(alloc, report.drained.as_slice())?;
    let refused = listed_each(alloc, report.refused.as_slice())?;
    let words = [
        "ok",
        "freed",
        freed.as_str(),
        "done",
        done.as_str(),
        "lost",
        lost.as_str(),
        "added",
        added.as_str(),
        "dropped",
        dropped.as_str(),
        "open",
        opened.as_str(),
        "moved",
        moved.as_str(),
        "drained",
        drained.as_str(),
        "bad",
        refused.as_str(),
    ];
    said(alloc, &words)
}

/// The reply to a poll that only commits: the jobs that it committed, and those that failed with
/// their rules.
pub fn committed(alloc: Global, done: &JobList, lost: &RuleList) -> Result<Reply, SlateDBError>
    ensures reply { IfOk result (λ answer. answer ≡ reply (codes "ok" ∷ codes "done"
        ∷ jobs_text done.now ∷ codes "lost" ∷ rules_text lost.now ∷ [])) }
    ensures memory { IsOkUnless result SlateDBError.Memory }
{
    let done = jobs_text(alloc, done.as_slice())?;
    let lost = listed_each(alloc, lost.as_slice())?;
    said(alloc, &["ok", "done", done.as_str(), "lost", lost.as_str()])
}

/// The reply to a claim: the attempts that it began, and the jobs that it stopped.
pub fn claimed(alloc: Global, begun: &[Begun], stopped: &JobList) -> Result<Reply, SlateDBError>
    ensures reply { IfOk result (λ answer. answer ≡ reply (codes "ok" ∷ codes "claimed"
        ∷ list_text semicolon (map attempt_begun begun.now)
        ∷ codes "stopped" ∷ jobs_text stopped.now ∷ [])) }
    ensures memory { IsOkUnless result SlateDBError.Memory }
{
    let begun = listed_each_apart(alloc, begun)?;
    let stopped = jobs_text(alloc, stopped.as_slice())?;
    said(
        alloc,
        &["ok", "claimed", begun.as_str(), "stopped", stopped.as_str()],
    )
}

/// The reply to a finish, with the tables of each range.
pub fn finished(alloc: Global, ranges: &NamesList) -> Result<Reply, SlateDBError>
    ensures reply { IfOk result
        (λ answer. answer ≡ reply (codes "ok" ∷ ranges_text ranges.now ∷ [])) }
    ensures memory { IsOkUnless result SlateDBError.Memory }
{
    let ranges = listed_ranges(alloc, ranges.as_slice())?;
    said(alloc, &["ok", ranges.as_str()])
}

/// The reply that shows the rows of a node.
pub fn rows(alloc: Global, rows: &[RowEntry]) -> Result<Reply, SlateDBError>
    ensures reply { IfOk result
        (λ answer. answer ≡ reply (codes "ok" ∷ rows_text (rows_of rows.now) ∷ [])) }
    ensures memory { IsOkUnless result SlateDBError.Memory }
{
    let rows = rows_listed(alloc, rows)?;
    said(alloc, &["ok", rows.as_str()])
}

/// Prints rows with commas between them.
pub(crate) fn rows_listed(alloc: Global, rows: &[RowEntry]) -> Result<String, AllocError>
    ensures { IfOk result (λ text. string_bytes text ≡ rows_text (rows_of rows.now)) }
{
    listed_each(alloc, rows)
}

/// The reply that shows the tables of a node, each with the number of its rows.
pub fn tables(alloc: Global, tables: &TableList) -> Result<Reply, SlateDBError>
    ensures reply { IfOk result
        (λ answer. answer ≡ reply (codes "ok" ∷ counted_tables tables.now ∷ [])) }
    ensures memory { IsOkUnless result SlateDBError.Memory }
{
    let tables = listed_each(alloc, tables.as_slice())?;
    said(alloc, &["ok", tables.as_str()])
}

/// The reply to a sweep: the tables that it deleted.
pub fn swept(alloc: Global, tables: &IdList) -> Result<Reply, SlateDBError>
    ensures reply { IfOk result
        (λ answer. answer ≡ reply (codes "ok" ∷ replies.tables_text tables.now ∷ [])) }
    ensures memory { IsOkUnless result SlateDBError.Memory }
{
    let tables = tables_text(alloc, tables.as_slice())?;
    said(alloc, &["ok", tables.as_str()])
}

fn trees_text(alloc: Global, core: &ManifestCore) -> Result<String, AllocError>
    ensures { IfOk result (λ text. string_bytes text
        ≡ list_text semicolon (map tree_text (trees_with_prefix core.now))) }
{
    let mut text = String::new(alloc);
    append_segment(alloc, &[], &core.tree, &mut text)?;
    let segments = core.segments.as_slice();
    if segments.is_empty() {
        return Ok(text);
    }
    text.push_str(";")?;
    text.push_str(listed_each_apart(alloc, segments)?.as_str())?;
    Ok(text)
}

/// The reply that shows the trees. Which flushes went into a run is not printed.
pub fn trees(alloc: Global, core: &ManifestCore) -> Result<Reply, SlateDBError>
    ensures reply { IfOk result (λ answer. (flushes : RunFlushes)
        → answer ≡ replies.trees_reply (trees_of flushes core.now)) }
    ensures memory { IsOkUnless result SlateDBError.Memory }
{
    let trees = trees_text(alloc, core)?;
    said(alloc, &["ok", trees.as_str()])
}

fn jobs_listed(alloc: Global, jobs: &[Compaction]) -> Result<String, AllocError>
    ensures { IfOk result (λ text. string_bytes text
        ≡ list_text semicolon (map replies.job_text (jobs_of jobs.now))) }
{
    listed_each_apart(alloc, jobs)
}

/// The reply that shows the jobs.
pub fn jobs(alloc: Global, jobs: &[Compaction]) -> Result<Reply, SlateDBError>
    ensures reply { IfOk result (λ answer. answer ≡ replies.jobs_reply (jobs_of jobs.now)) }
    ensures memory { IsOkUnless result SlateDBError.Memory }
{
    let jobs = jobs_listed(alloc, jobs)?;
    said(alloc, &["ok", jobs.as_str()])
}

impl Prints for (Bytes, Bytes) {
    ghost text = { pair_text };

    fn print(&self, alloc: Global, out: &mut String) -> Result<(), AllocError> {
        append_bytes(alloc, &self.0, out)?;
        out.push_str(":")?;
        append_bytes(alloc, &self.1, out)
    }
}

/// The reply to a scan: the pairs, and how the scan ended.
pub fn scanned(alloc: Global, page: &Page) -> Result<Reply, SlateDBError>
    ensures reply { IfOk result (λ answer. answer ≡ scan_reply (page_of page.now)) }
    ensures memory { IsOkUnless result SlateDBError.Memory }
{
    let pairs = listed_each(alloc, page.pairs.as_slice())?;
    match &page.ends {
        ScanEnd::NoneLeft => said(alloc, &["ok", pairs.as_str(), "end"]),
        ScanEnd::RefusedAt { key, message } => {
            let key = bytes_text(alloc, key)?;
            let message = bytes_text(alloc, message)?;
            let words = [
                "ok",
                pairs.as_str(),
                "callback",
                key.as_str(),
                message.as_str(),
            ];
            said(alloc, &words)
        }
        ScanEnd::StopsBefore { key } => {
            let key = bytes_text(alloc, key)?;
            said(alloc, &["ok", pairs.as_str(), "more", key.as_str()])
        }
    }
}
