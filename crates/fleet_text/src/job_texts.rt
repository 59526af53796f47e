//! Prints trees, jobs and attempts.

ghost use Rattle.std.specs.Prelude.{◌≡◌, ◌++◌, ℕ, IfOk, OnOk, Some, codes, decimal, map, option_map, string_bytes};
ghost use Rattle.std.specs.Option.{option_copied, unwrap_or};
ghost use Rattle.fleet_model.specs.Jobs.{knows_cut};
ghost use Rattle.fleet_jobs.specs.Contexts.{context_of, noted_range, release_in};
ghost use Rattle.fleet_jobs.specs.Jobs.{job_of};
ghost use Rattle.fleet_jobs.specs.Status.{status_of};
ghost use Rattle.fleet_jobs.specs.Workers.{lease_of, release_of};
ghost use Rattle.script_model.specs.Replies as replies;
ghost use Rattle.script_model.specs.Words as words;
ghost use Rattle.fleet_text.specs.Printed.{tree_nodes, tree_text, attempt_begun};

use crate::lists::{listed, listed_ranges};
use crate::node::NodeName;
use crate::prints::Prints;
use crate::report::Begun;
use crate::texts::{append_bytes, append_job, job_text, lettered, whole_id};
use bytes::Bytes;
use fleet_jobs::{Compaction, CompactionContext, CompactionStatus, WorkerSpec};
use fleet_plan::Subcompaction;
use fleet_rows::Ulid;
use fleet_tree::LsmTreeState;
use std::alloc::{AllocError, Global};

/// The letter of a flag: `1` if it holds, and `0` otherwise.
pub fn flag_text(flag: bool) -> &'static str
    ensures { result.now ≡ words.flag_text flag }
{
    if flag { "1" } else { "0" }
}

fn status_text(status: CompactionStatus) -> &'static str
    ensures { result.now ≡ replies.status_text (status_of status) }
{
    match status {
        CompactionStatus::Submitted => "submitted",
        CompactionStatus::Scheduled => "scheduled",
        CompactionStatus::Running => "running",
        CompactionStatus::Compacted => "compacted",
        CompactionStatus::Completed => "completed",
        CompactionStatus::Failed => "failed",
    }
}

fn worker_text(alloc: Global, worker: Option<&WorkerSpec>) -> Result<String, AllocError>
    ensures { IfOk result (λ text. string_bytes text
        ≡ replies.worker_text (option_map lease_of (option_copied worker.entry))) }
{
    let Some(worker) = worker else {
        return String::from_str(alloc, "-");
    };
    let mut text = String::from_str(alloc, "w")?;
    text.push_str(worker.worker_id.to_string(alloc)?.as_str())?;
    Ok(text)
}

fn cut_text(alloc: Global, cut: Option<u64>) -> Result<String, AllocError>
    ensures { IfOk result (λ text. (floor : ℕ) → string_bytes text
        ≡ replies.cut_text (knows_cut (release_of (release_in cut))) (unwrap_or cut floor)) }
{
    match cut {
        Some(cut) => cut.to_string(alloc),
        None => String::from_str(alloc, "-"),
    }
}

// Prints ranges, each as the list of its tables.
fn parts_text(alloc: Global, parts: &[Subcompaction]) -> Result<String, AllocError>
    ensures { IfOk result (λ text. string_bytes text
        ≡ replies.ranges_text (map (λ range. range.1) (map noted_range parts.now))) }
{
    listed_ranges(alloc, parts)
}

fn context_text(alloc: Global, context: &CompactionContext) -> Result<String, AllocError>
    ensures { IfOk result
        (λ text. string_bytes text ≡ replies.context_text (Some (context_of context.now))) }
{
    let settings = context.settings();
    let floor = settings.floor.to_string(alloc)?;
    let tick = settings.tick.to_string(alloc)?;
    let cut = cut_text(alloc, context.cut())?;
    let ranges = parts_text(alloc, context.subcompactions())?;
    let fields = [
        floor.as_str(),
        tick.as_str(),
        flag_text(settings.last_run),
        cut.as_str(),
        ranges.as_str(),
    ];
    fields.join(alloc, "/")
}

fn context_or_none(alloc: Global, context: Option<&CompactionContext>) -> Result<String, AllocError>
    ensures { IfOk result (λ text. string_bytes text
        ≡ replies.context_text (option_map context_of (option_copied context.entry))) }
{
    match context {
        Some(context) => context_text(alloc, context),
        None => String::from_str(alloc, "-"),
    }
}

impl Prints for Compaction {
    ghost text = { λ job. replies.job_text (job_of job) };

    fn print(&self, alloc: Global, out: &mut String) -> Result<(), AllocError> {
        let number = job_text(alloc, self.id())?;
        let attempt = self.attempt().to_string(alloc)?;
        let worker = worker_text(alloc, self.worker())?;
        let context = context_or_none(alloc, self.ctx())?;
        let fields = [
            number.as_str(),
            status_text(self.status()),
            attempt.as_str(),
            worker.as_str(),
            context.as_str(),
        ];
        out.push_str(fields.join(alloc, ":")?.as_str())
    }
}

impl Prints for Begun {
    ghost text = { attempt_begun };

    fn print(&self, alloc: Global, out: &mut String) -> Result<(), AllocError> {
        append_job(self.job, out)?;
        out.push_str(".")?;
        out.write(self.number)?;
        out.push_str(":")?;
        out.push_str(listed_ranges(alloc, self.tables.as_slice())?.as_str())
    }
}

// Prints a flush by its whole id, which is its name.
fn flush_text(alloc: Global, id: Ulid) -> Result<String, AllocError>
    ensures { IfOk result (λ text. string_bytes text ≡ codes "l" ++ decimal id) }
{
    lettered(alloc, "l", whole_id(id))
}

/// Prints the nodes of a tree, with commas between them.
pub fn nodes_text(alloc: Global, tree: &LsmTreeState) -> Result<String, AllocError>
    ensures { IfOk result (λ text. string_bytes text ≡ words.nodes_text (tree_nodes tree.now)) }
{
    let mut nodes = Vec::new(alloc);
    'flushes: for view in tree.l0.iter() {
        nodes.push(flush_text(alloc, view.id)?)?;
    }
    'runs: for run in tree.compacted.iter() {
        nodes.push(lettered(alloc, "r", run.id as u128)?)?;
    }
    listed(alloc, &nodes)
}

/// Appends a segment: its prefix and the nodes of its tree.
pub fn append_segment(
    alloc: Global,
    prefix: &[u8],
    tree: &LsmTreeState,
    out: &mut String,
) -> Result<(), AllocError>
    ensures { OnOk result (string_bytes out.new
        ≡ string_bytes out.old ++ tree_text (prefix.now, tree.now)) }
{
    append_bytes(alloc, prefix, out)?;
    out.push_str(":")?;
    out.push_str(nodes_text(alloc, tree)?.as_str())
}

impl Prints for (Bytes, LsmTreeState) {
    ghost text = { tree_text };

    fn print(&self, alloc: Global, out: &mut String) -> Result<(), AllocError> {
        append_segment(alloc, &self.0, &self.1, out)
    }
}
