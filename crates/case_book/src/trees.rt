//! Trees that are read from words, and how they are printed. The word of a tree is its segment, `=`
//! and its nodes, with `,` between them; `-` is no nodes. After the nodes there may be `@` and the
//! watermark. Trees have `;` between them, and the segment `-` is the root.
//!
//! A node is `l` and the id of a flush, or `r` and the id of a run. After a `:` there may be the
//! size of its table, or the first and the last key of the table with `-` between them. A run may
//! have several tables, with `+` between them.

use bytes::Bytes;
use case_words::flaw::Flaw;
use case_words::tables::{named_view, view_of};
use case_words::tell::Tell;
use case_words::words::{Parse, bytes, number};
use fleet_rows::Ulid;
use fleet_tree::{
    BlockList, LsmTreeState, Manifest, ManifestCore, SegmentList, SortedRun, SsTableView,
    TrackerList, VersionedManifest, ViewList,
};
use std::alloc::{AllocError, Global};

// A table with this id. The word has its size, or its first and its last key.
fn table(alloc: Global, id: u64, word: &str) -> Result<SsTableView, Flaw> {
    let blocks = BlockList::new(alloc);
    match word.split_once('-') {
        Some((first, last)) => view_of(id, bytes(alloc, first)?, bytes(alloc, last)?, 0, blocks),
        None => view_of(id, Bytes::new(), Bytes::new(), number(word)?, blocks),
    }
}

fn flush(alloc: Global, id: u64, content: &str) -> Result<SsTableView, Flaw> {
    if content.is_empty() {
        named_view(alloc, id)
    } else {
        table(alloc, id, content)
    }
}

// A run with this id. Its tables have the run's id, too.
fn run(alloc: Global, id: u32, content: &str) -> Result<SortedRun, Flaw> {
    let mut views = ViewList::new(alloc);
    if !content.is_empty() {
        'tables: for word in content.split('+') {
            views.push(table(alloc, id as u64, word)?)?;
        }
    }
    Ok(SortedRun::new(id, views))
}

fn add_node(alloc: Global, tree: &mut LsmTreeState, word: &str) -> Result<(), Flaw> {
    let (name, content) = word.split_once(':').unwrap_or((word, ""));
    if let Some(id) = name.strip_prefix('l') {
        tree.l0.push(flush(alloc, number(id)?, content)?)?;
        return Ok(());
    }
    let Some(id) = name.strip_prefix('r') else {
        return Err(Flaw::Choice);
    };
    Ok(
        tree.compacted
            .push(run(alloc, u32::parse(alloc, id)?, content)?)?,
    )
}

fn tree(alloc: Global, word: &str) -> Result<LsmTreeState, Flaw> {
    let mut tree = LsmTreeState::new(alloc);
    let (nodes, mark) = word.split_once('@').unwrap_or((word, "-"));
    if nodes != "-" {
        'nodes: for node in nodes.split(',') {
            add_node(alloc, &mut tree, node)?;
        }
    }
    if mark != "-" {
        tree.last_compacted_l0_sst_view_id = Some(Ulid::from_parts(0, number(mark)? as u128));
    }
    Ok(tree)
}

fn add_tree(alloc: Global, core: &mut ManifestCore, word: &str) -> Result<(), Flaw> {
    let Some((segment, tree_word)) = word.split_once('=') else {
        return Err(Flaw::Pair);
    };
    let tree = tree(alloc, tree_word)?;
    if segment == "-" {
        core.tree = tree;
        return Ok(());
    }
    Ok(core.segments.push((bytes(alloc, segment)?, tree))?)
}

/// The contents of a manifest with these trees.
pub fn core(alloc: Global, words: &str) -> Result<ManifestCore, Flaw> {
    let mut core = ManifestCore {
        tree: LsmTreeState::new(alloc),
        segments: SegmentList::new(alloc),
        recent_snapshot_min_seq: 0,
        last_l0_clock_tick: 0,
        tracker: TrackerList::new(alloc),
        horizon: 0,
    };
    'trees: for word in words.split(';') {
        add_tree(alloc, &mut core, word)?;
    }
    Ok(core)
}

/// A manifest with these contents, at this version.
pub fn manifest(id: u64, core: ManifestCore) -> VersionedManifest {
    VersionedManifest {
        id,
        manifest: Manifest {
            compactor_epoch: 0,
            core,
        },
    }
}

// Appends a `,` if a node came before.
fn separate(answer: &mut String, first: bool) -> Result<(), AllocError> {
    if first { Ok(()) } else { answer.push(',') }
}

fn tell_tree(answer: &mut String, tree: &LsmTreeState) -> Result<(), AllocError> {
    let mut first = true;
    'flushes: for view in tree.l0.iter() {
        separate(answer, first)?;
        let number = view.id.number();
        write!(answer, "l{number}")?;
        first = false;
    }
    'runs: for run in tree.compacted.iter() {
        separate(answer, first)?;
        let id = run.id;
        write!(answer, "r{id}")?;
        first = false;
    }
    separate_mark(answer, first, tree.last_compacted_l0_sst_view_id)
}

// Appends `-` if there was no node, and then the watermark.
fn separate_mark(answer: &mut String, none: bool, mark: Option<Ulid>) -> Result<(), AllocError> {
    if none {
        answer.push('-')?;
    }
    match mark {
        Some(id) => {
            let number = id.number();
            write!(answer, "@{number}")
        }
        None => answer.push_str("@-"),
    }
}

/// Appends the trees of a manifest, with `;` between them, as they are read, without the contents of
/// nodes.
pub fn tell_trees(answer: &mut String, core: &ManifestCore) -> Result<(), AllocError> {
    let mut first = true;
    'trees: for (prefix, tree) in core.trees_with_prefix() {
        if !first {
            answer.push(';')?;
        }
        prefix.tell(answer)?;
        answer.push('=')?;
        tell_tree(answer, tree)?;
        first = false;
    }
    Ok(())
}

/// Appends a run with the first and the last key of each of its tables, as it is read.
pub fn tell_run(answer: &mut String, run: &SortedRun) -> Result<(), AllocError> {
    let id = run.id;
    write!(answer, "r{id}")?;
    let mut mark = ':';
    'tables: for view in run.sst_views() {
        answer.push(mark)?;
        view.sst.first_key.as_slice().tell(answer)?;
        answer.push('-')?;
        view.sst.last_key.as_slice().tell(answer)?;
        mark = '+';
    }
    Ok(())
}
